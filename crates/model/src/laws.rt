//! Laws over whole histories, each on a function that has nothing else to do.
ghost use Rattle.model.specs.Days.{WorkedDay, SeventeenDue};
ghost use Rattle.model.specs.Guards.{PairAlike, LeaksShutOut, MiscountsShutOut, LeftAlike, PlacesChosen};
ghost use Rattle.model.specs.Laws.{RefusedKeeps, NothingIsWaiting, ShownExactly, RecordsApart, CountsRise};
ghost use Rattle.model.specs.Histories.{Isolation, Accounts};

/// What the calls of a day return, computed.
#[tactic(auto, using(crate::proofs::Computed::worked_day))]
pub fn worked_day()
    ensures { WorkedDay }
{}

/// Seventeen events fall due and none is taken: 16 wait, and 1 is lost.
#[tactic(auto, using(crate::proofs::Computed::seventeen_due))]
pub fn seventeen_due()
    ensures { SeventeenDue }
{}

/// What an application function is told hangs on nothing but its own two sets, the opening, and the calls that are not struck for it: over any two
/// rule books, and for any two transcripts whatever.
pub fn isolation()
    ensures { Isolation }
{}

/// Whenever an application function of the sheet asks for its counts, they are those of its ledger, and sum up to the events that fell due to it.
pub fn accounts()
    ensures { Accounts }
{}

/// Two histories over two rule books that differ in what is hidden from an application function are alike for it, and it is shown two fields in both.
#[tactic(auto, using(crate::proofs::Guarded::pair_alike))]
pub fn pair_alike()
    ensures { PairAlike }
{}

/// A history and that of only those of its calls that are left for an application function are alike for it.
#[tactic(auto, using(crate::proofs::Remaining::left_alike))]
pub fn left_alike()
    ensures { LeftAlike }
{}

/// Isolation shuts out each of five ways to leak.
#[tactic(auto, using(crate::proofs::Guarded::leaks_shut_out))]
pub fn leaks_shut_out()
    ensures { LeaksShutOut }
{}

/// Accounts shut out an invented loss, and a second subscriber who is not served.
#[tactic(auto, using(crate::proofs::Guarded::miscounts_shut_out))]
pub fn miscounts_shut_out()
    ensures { MiscountsShutOut }
{}

/// The place that a new entry takes is one that is free, and there is one when some place is free.
#[tactic(auto, using(crate::proofs::Guarded::places_chosen))]
pub fn places_chosen()
    ensures { PlacesChosen }
{}

/// A call that is refused leaves everything as it was.
#[tactic(auto, using(crate::proofs::Kept::refused_keeps))]
pub fn refused_keeps()
    ensures { RefusedKeeps }
{}

/// Take says that nothing waits exactly when all else is in order and nothing waits.
#[tactic(auto, using(crate::proofs::Kept::nothing_waiting))]
pub fn nothing_waiting()
    ensures { NothingIsWaiting }
{}

/// An ask shows exactly the fields that are requested, in the view and stored.
#[tactic(auto, using(crate::proofs::Shown::shown_exactly))]
pub fn shown_exactly()
    ensures { ShownExactly }
{}

/// What one application function asks, takes, settles or is told leaves the record of every other as it was: serials move independently.
#[tactic(auto, using(crate::proofs::Counts::records_apart))]
pub fn records_apart()
    ensures { RecordsApart }
{}

/// Acknowledged, given up and lost never fall.
#[tactic(auto, using(crate::proofs::Counts::counts_rise))]
pub fn counts_rise()
    ensures { CountsRise }
{}
