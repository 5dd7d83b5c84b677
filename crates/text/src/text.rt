//! A short text, kept in place.
ghost use Rattle.std.specs.Prelude.{◌≤◌};

/// A text of at most `N` bytes. What stands past its length has no meaning, so two texts are equal where they hold the same bytes.
// A buffer with a length beside it, once for all: memory is taken at the start alone, and `arrayvec::ArrayVec` is not `Copy`.
#[derive(Clone, Copy)]
pub struct Text<const N: usize> {
    bytes: [u8; N],
    len: usize,
    ghost fits: { len ≤ N },
}

impl<const N: usize> Text<N> {
    ghost use Rattle.std.specs.Prelude.{◌≡◌, [], length, take};
    ghost use Rattle.text.specs.Texts.{said};

    pub fn empty() -> Text<N>
        ensures { said result ≡ [] }
    {
        Text {
            bytes: [0; N],
            len: 0,
        }
    }

    /// The text of these bytes, or of as many of them as there is room for.
    pub fn new(octets: &[u8]) -> Text<N>
        ensures { said result ≡ take N octets.now }
    {
        let len = octets.len().min(N);
        let mut bytes = [0; N];
        bytes[..len].copy_from_slice(&octets[..len]);
        Text { bytes, len }
    }

    /// The bytes that it holds.
    pub fn octets(&self) -> &[u8]
        ensures is { result.now ≡ said self.now }
        ensures short { length result.now ≤ N }
    {
        &self.bytes[..self.len]
    }
}

impl<const N: usize> PartialEq for Text<N> {
    ghost use Rattle.std.specs.Cmp.Rules.{comparing};
    ghost use Rattle.std.specs.Ordering.{on};
    ghost use Rattle.std.specs.Str.{bytes_eq};
    ghost use Rattle.std.proofs.Common.{rules};
    ghost use Rattle.text.specs.Texts.{said};

    ghost eq = { on said bytes_eq };

    ghost laws = { Prim.search (comparing, rules) };

    fn eq(&self, other: &Text<N>) -> bool {
        self.octets() == other.octets()
    }
}

impl<const N: usize> Eq for Text<N> {
    ghost use Rattle.std.specs.Cmp.Rules.{comparing};
    ghost use Rattle.std.proofs.Common.{rules};

    ghost laws = { Prim.search (comparing, rules) };
}
