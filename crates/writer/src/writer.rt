//! A writer over a lent buffer. It only appends: no store writes a byte before the end reached.
ghost use Rattle.std.specs.Prelude.{◌≡◌, ◌+◌, [], ◌∷◌, length};
ghost use Rattle.writer.specs.Bytes.{bytes24, bytes32, zeros};
ghost use Rattle.writer.specs.Stores.{Appends, Begins, room};

/// A buffer, written up to `end`.
// No cursor and no `Write` of std: these answer an `io::Result`, and a store here is owed its room, which says that the end lies inside.
#[derive(Drop)]
pub struct Writer<'a> {
    buffer: &'a mut [u8],
    end: usize,
}

impl<'a> Writer<'a> {
    /// A writer at the start of the buffer.
    pub fn new(buffer: &'a mut [u8]) -> Writer<'a>
        ensures { Begins buffer.entry result }
    {
        Writer { buffer, end: 0 }
    }

    /// How many bytes are written.
    pub fn end(&self) -> usize
        ensures { result ≡ self.now.end }
    {
        self.end
    }

    /// A run of bytes.
    pub fn bytes(&mut self, run: &[u8])
        requires { room (length run.now) self.old }
        ensures { Appends self.old run.now self.new }
    {
        let start = self.end;
        let end = start + run.len();
        self.buffer[start..end].copy_from_slice(run);
        self.end = end;
    }

    /// `count` zeros.
    pub fn zeros(&mut self, count: usize)
        requires { room count self.old }
        ensures wrote { Appends self.old (zeros count) self.new }
        ensures ends { self.new.end ≡ self.old.end + count }
    {
        let start = self.end;
        let end = start + count;
        self.buffer[start..end].fill(0);
        self.end = end;
    }

    /// One byte.
    pub fn byte(&mut self, x: u8)
        requires { room 1 self.old }
        ensures { Appends self.old (x ∷ []) self.new }
    {
        self.bytes(&[x]);
    }

    /// A number in three bytes.
    // Not one function with `u32` over the count of bytes: no plainer, since each is one line over its own definition.
    pub(crate) fn u24(&mut self, x: u32)
        requires { room 3 self.old }
        ensures { Appends self.old (bytes24 x) self.new }
    {
        let [_, high, middle, low] = x.to_be_bytes();
        self.bytes(&[high, middle, low]);
    }

    /// A number in four bytes.
    pub fn u32(&mut self, x: u32)
        requires { room 4 self.old }
        ensures { Appends self.old (bytes32 x) self.new }
    {
        self.bytes(&x.to_be_bytes());
    }
}
