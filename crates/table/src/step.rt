//! Steps of a table: an entry put in, taken out, or changed where it stands.
ghost use Rattle.std.specs.Prelude.{◌≡◌, true, false, map, is_some, None, OnOk, OnErr};
ghost use Rattle.table.specs.Choices.{choice};
ghost use Rattle.table.specs.Laws.{Swept};
ghost use Rattle.table.specs.Tables.{holder, at, content, contents, Distinct, room};
ghost use Rattle.table.specs.Steps.{Updated, changed_content, filled, with_held, insertion};

use crate::place::{Change, Place};
use crate::search::{find, free_place};
use thiserror::Error;

/// Why an entry is not put in.
#[derive(Clone, Copy, PartialEq, Eq, Debug, Error)]
pub enum InsertError {
    #[error("the key is in the table")]
    Present,
    #[error("no place is free")]
    Full,
}

/// Puts an entry in, given as the place that it is to be.
pub fn insert<P: Place + Drop>(places: &mut [P], place: P) -> Result<(), InsertError>
    ensures answer { result ≡ insertion (is_some (at P.taken P.key P.entry places.old (P.key place))) (room P.taken places.old) }
    ensures law { OnOk result (Distinct P.taken P.key places.old → Updated P.taken P.key P.entry places.old places.new (P.key place) (content P.taken P.entry place)) }
    ensures places { OnOk result (contents P.taken P.entry places.new ≡ filled (choice P.taken places.old) (content P.taken P.entry place) (contents P.taken P.entry places.old)) }
    ensures refused { OnErr result (places.new ≡ places.old) }
{
    if find(places, place.own_key()).is_some() {
        return Err(InsertError::Present);
    }
    let i = free_place(places).ok_or(InsertError::Full)?;
    places[i] = place;
    Ok(())
}

/// Takes the entry under the key out; false where there is none.
pub fn remove<P: Place>(places: &mut [P], sought: &P::Key) -> bool
    ensures answer { result ≡ is_some (at P.taken P.key P.entry places.old (P.spelt sought.now)) }
    ensures law { Distinct P.taken P.key places.old → Updated P.taken P.key P.entry places.old places.new (P.spelt sought.now) None }
    ensures places { Distinct P.taken P.key places.old → contents P.taken P.entry places.new ≡ with_held P.taken P.key P.entry (P.spelt sought.now) (λ _. None) places.old }
    ensures refused { result ≡ false → places.new ≡ places.old }
{
    let Some(i) = find(places, sought) else {
        return false;
    };
    places[i].clear();
    true
}

/// Changes the entry under the key where it stands; false where there is none.
pub fn change<C, P: Place + Change<C>>(places: &mut [P], sought: &P::Key, how: &C) -> bool
    ensures answer { result ≡ is_some (at P.taken P.key P.entry places.old (P.spelt sought.now)) }
    ensures law { Distinct P.taken P.key places.old → Updated P.taken P.key P.entry places.old places.new (P.spelt sought.now) (changed_content P.taken P.entry (P.changed how.now) (holder P.taken P.key places.old (P.spelt sought.now))) }
    ensures places { Distinct P.taken P.key places.old → contents P.taken P.entry places.new ≡ with_held P.taken P.key P.entry (P.spelt sought.now) (λ p. content P.taken P.entry (P.changed how.now p)) places.old }
    ensures refused { result ≡ false → places.new ≡ places.old }
{
    let Some(i) = find(places, sought) else {
        return false;
    };
    places[i].change(how);
    true
}

/// Changes every place where it stands. A change that only frees or keeps what it finds changes each entry, and nothing else.
pub fn sweep<C, P: Place + Change<C>>(places: &mut [P], how: &C)
    ensures is { places.new ≡ map (P.changed how.now) places.old }
    ensures law { ((p : P) → P.taken (P.changed how.now p) ≡ true → (P.taken p ≡ true) × (P.key (P.changed how.now p) ≡ P.key p)) → Distinct P.taken P.key places.old → Swept P.taken P.key P.entry (P.changed how.now) places.old }
{
    for place in places.iter_mut() {
        place.change(how);
    }
}
