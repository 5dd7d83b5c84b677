//! Numbers in decimal digits.
ghost use Rattle.std.specs.Prelude.{◌≡◌, ◌+◌, ◌≤◌, length, decimal};
ghost use Rattle.writer.specs.Stores.{Appends, room};

use crate::writer::Writer;
use itoa::Buffer;

/// How many decimal digits a number has.
pub fn decimal_size(x: u32) -> usize
    ensures size { result ≡ length (decimal x) }
    ensures most { result ≤ 10 }
{
    Buffer::new().format(x).len()
}

impl Writer<'_> {
    /// The decimal digits of a number; ten at most.
    pub fn decimal(&mut self, x: u32)
        requires { room (length (decimal x)) self.old }
        ensures wrote { Appends self.old (decimal x) self.new }
        ensures ends { self.new.end ≤ self.old.end + 10 }
    {
        self.bytes(Buffer::new().format(x).as_bytes());
    }
}
