//! An answer while it is put together, and when its length is fixed.
ghost use Rattle.std.specs.Prelude.{◌≤◌};
ghost use Rattle.message.specs.Limits.{buffer_least};

use crate::content::Content;

/// An answer that parts may be added to. It is not `Drop`: it ends in `close`.
pub struct Draft<'m, 'o, 's, S> {
    pub(crate) content: Content<'m, 'o, 's, S>,
}

/// An answer to which nothing is added, and whose length is known. It is not `Drop`: it is written.
pub struct Closed<'m, 'o, 's, S> {
    pub(crate) content: Content<'m, 'o, 's, S>,
    /// The length, as `close` promises it; `write` counts it again.
    pub(crate) size: usize,
    // That `size` is the answer's length no invariant can say: the bytes of the values are a word of the source's trait, and the type asks no bound.
    ghost within: { size ≤ buffer_least },
}
