//! The AVPs of a sequence one by one, in order.
ghost use Rattle.std.specs.Prelude.{◌≡◌, length};
ghost use Rattle.std.specs.Iterator.{at_most};
ghost use Rattle.diameter.specs.Views.{TakesFirst};

use crate::avp::{AvpView, split_avp};

/// The AVPs that are still to come: those at the front of `rest`.
#[derive(Clone, Copy)]
pub struct Avps<'a> {
    rest: &'a [u8],
}

impl<'a> Avps<'a> {
    /// The AVPs of these bytes, up to the end or to the first place where none stands.
    pub fn new(bytes: &'a [u8]) -> Avps<'a>
        ensures { result.rest.now ≡ bytes.now }
    {
        Avps { rest: bytes }
    }

    /// The bytes after the AVPs that were taken.
    pub fn rest(&self) -> &'a [u8]
        ensures { result.now ≡ self.now.rest.now }
    {
        self.rest
    }
}

impl<'a> Iterator for Avps<'a> {
    type Item = AvpView<'a>;

    ghost next_gives = { λ s r t. TakesFirst r t.rest.now s.rest.now };

    ghost remaining = { λ s. at_most (length s.rest.now) };

    fn next(&mut self) -> Option<AvpView<'a>> {
        let (avp, rest) = split_avp(self.rest)?;
        *self = Avps { rest };
        Some(avp)
    }
}
