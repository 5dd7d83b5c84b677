//! AVPs, written one after the other. A group is its header, with the length of its parts, and then its parts.
ghost use Rattle.std.specs.Prelude.{◌≡◌, ◌+◌, ◌^◌, ◌<◌, length};
ghost use Rattle.writer.specs.Bytes.{bytes32};
ghost use Rattle.writer.specs.Avps.{head_size, padding, avp_size, avp_header, avp};
ghost use Rattle.writer.specs.Stores.{Appends, room};

use crate::writer::Writer;
use diameter::avp::AvpView;

/// What the header of an AVP says beside its length. The vendor is written where the flags say that there is one.
#[derive(Clone, Copy)]
pub struct AvpHead {
    pub code: u32,
    pub flags: u8,
    pub vendor: u32,
}

/// How long the header of an AVP with these flags is.
// No method of `AvpHead`: no plainer, since the header that an answer copies was read and is no head of ours.
pub fn head_size(flags: u8) -> usize
    ensures { result ≡ head_size flags }
{
    if flags & AvpView::VENDOR != 0 { 12 } else { 8 }
}

/// How many zeros fill `size` bytes up to a multiple of four.
pub fn padding(size: usize) -> usize
    ensures { result ≡ padding size }
{
    // Not by `next_multiple_of`, which passes the end of a `usize` at the last sizes.
    (4 - size % 4) % 4
}

/// How long the AVP with these flags and `size` bytes of data is, padding included.
pub fn avp_size(flags: u8, size: usize) -> usize
    requires { head_size flags + size < 2 ^ 24 }
    ensures { result ≡ avp_size flags size }
{
    (head_size(flags) + size).next_multiple_of(4)
}

impl Writer<'_> {
    /// The header of an AVP with `size` bytes of data.
    pub fn avp_header(&mut self, head: AvpHead, size: usize)
        requires { (room (head_size head.flags) self.old) × (head_size head.flags + size < 2 ^ 24) }
        ensures wrote { Appends self.old (avp_header head.code head.flags head.vendor size) self.new }
        ensures ends { self.new.end ≡ self.old.end + head_size head.flags }
    {
        self.u32(head.code);
        self.byte(head.flags);
        self.u24((head_size(head.flags) + size) as u32);
        if head.flags & AvpView::VENDOR != 0 {
            self.u32(head.vendor);
        }
    }

    /// A whole AVP.
    pub fn avp(&mut self, head: AvpHead, payload: &[u8])
        requires { (room (avp_size head.flags (length payload.now)) self.old) × (head_size head.flags + length payload.now < 2 ^ 24) }
        ensures wrote { Appends self.old (avp head.code head.flags head.vendor payload.now) self.new }
        ensures ends { self.new.end ≡ self.old.end + avp_size head.flags (length payload.now) }
    {
        self.avp_header(head, payload.len());
        self.bytes(payload);
        self.zeros(padding(payload.len()));
    }

    /// An AVP that holds one number.
    pub fn avp_u32(&mut self, head: AvpHead, x: u32)
        requires { room (avp_size head.flags 4) self.old }
        ensures wrote { Appends self.old (avp head.code head.flags head.vendor (bytes32 x)) self.new }
        ensures ends { self.new.end ≡ self.old.end + avp_size head.flags 4 }
    {
        self.avp(head, &x.to_be_bytes());
    }
}
