//! Questions to a table: which place holds a key, which place is free, how many are taken.
ghost use Rattle.std.specs.Prelude.{◌≡◌, ◌<◌, true, false, length, is_some, IfSome, Some, None, slice_index_or};
ghost use Rattle.table.specs.Tables.{holds, holder, at, Distinct, number, room};
ghost use Rattle.table.specs.Choices.{choice};

use crate::place::Place;

/// The place that holds the key, if the table has the key.
pub fn find<P: Place>(places: &[P], sought: &P::Key) -> Option<usize>
    ensures known { is_some result ≡ is_some (at P.taken P.key P.entry places.now (P.spelt sought.now)) }
    ensures within { IfSome result (λ i. i < length places.now) }
    ensures held { IfSome result (λ i. (d : P) → holds P.taken P.key (P.spelt sought.now) (slice_index_or places.now i d) ≡ true) }
    ensures alone { Distinct P.taken P.key places.now → IfSome result (λ i. (d : P) → holder P.taken P.key places.now (P.spelt sought.now) ≡ Some (slice_index_or places.now i d)) }
{
    places.iter().position(|place| place.is_at(sought))
}

/// A free place for a new entry, if there is any.
pub fn free_place<P: Place>(places: &[P]) -> Option<usize>
    ensures is { result ≡ choice P.taken places.now }
    ensures known { is_some result ≡ room P.taken places.now }
    ensures within { IfSome result (λ i. i < length places.now) }
    ensures free { IfSome result (λ i. (d : P) → P.taken (slice_index_or places.now i d) ≡ false) }
{
    places.iter().position(|place| place.is_free())
}

/// How many places are taken.
pub fn count<P: Place>(places: &[P]) -> usize
    ensures { result ≡ number P.taken places.now }
{
    // Not `filter` and `count`: a sum of ones and zeros has no branch in it, and takes a third of the time.
    let taken = places.iter().map(|place| usize::from(!place.is_free()));
    taken.sum()
}
