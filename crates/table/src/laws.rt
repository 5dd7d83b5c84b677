//! The laws of a table, for every kind of places, each on the contract of a function.
ghost use Rattle.table.specs.Laws.{ChoiceLaws, RoomCounted, ToldHere, ToldElsewhere, FreedServes, SweptTold, DistinctMeans, NumberOfMap, EmptyTable};

use crate::place::Place;

/// The place chosen for a new entry is within, is free, is there exactly when some place is free, and hangs on nothing but which places are taken.
#[tactic(auto, using(crate::proofs::Lawful::choice_laws))]
pub fn choice_is_free<P: Place>()
    ensures { ChoiceLaws P.taken }
{}

/// Some place is free exactly when fewer are taken than there are.
#[tactic(auto, using(crate::proofs::Lawful::room_counted))]
pub fn room_is_counted<P: Place>()
    ensures { RoomCounted P.taken }
{}

/// After a step the map is changed at its key, and nowhere else.
#[tactic(auto, using(crate::proofs::Lawful::told_here, crate::proofs::Lawful::told_elsewhere))]
pub fn steps_are_told<P: Place>()
    ensures here { ToldHere P.taken P.key P.entry }
    ensures elsewhere { ToldElsewhere P.taken P.key P.entry }
{}

/// Freed places serve again.
#[tactic(auto, using(crate::proofs::Lawful::freed_serves))]
pub fn freed_places_serve<P: Place>()
    ensures { FreedServes P.taken P.key P.entry }
{}

/// A change of every place changes each entry, and nothing else, where it only frees or keeps what it finds.
pub fn sweeps_are_told<P: Place>()
    ensures { SweptTold P.taken P.key P.entry }
{}

/// No two taken places have the same key, said of any two of them.
#[tactic(auto, using(crate::proofs::Lawful::distinct_means))]
pub fn distinct_is_of_any_two<P: Place>()
    ensures { DistinctMeans P.taken P.key }
{}

/// The number of places taken is the number of entries: it is the same wherever the map is the same.
pub fn number_is_of_the_map<P: Place>()
    ensures { NumberOfMap P.taken P.key P.entry }
{}

/// Places that are all free are a table without entries.
#[tactic(auto, using(crate::proofs::Lawful::empty_table))]
pub fn free_places_are_empty<P: Place>()
    ensures { EmptyTable P.taken P.key P.entry }
{}
