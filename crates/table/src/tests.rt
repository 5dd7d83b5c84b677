//! Two kinds of places, with all that each owes.
ghost use Rattle.std.specs.Prelude.{ℕ, if◌then◌else◌, is_some, unwrap_or, Some, None, Option, nat_eq};
ghost use Rattle.text.specs.Texts.{said};

use crate::place::{Change, Place};
use crate::search::{count, find};
use crate::step::{InsertError, change, insert, remove, sweep};
use text::text::Text;

/// A place for a guest, under a name of at most eight bytes.
// A flag beside the values: a place shows its key also while it is free, which an `Option` of the guest would not hold.
#[derive(Clone, Copy)]
struct Session {
    taken: bool,
    name: Text<8>,
    visits: u64,
}

impl Place for Session {
    type Key = Text<8>;

    ghost Entry = { ℕ };

    ghost taken = { λ p. p.taken };

    ghost key = { λ p. said p.name };

    ghost entry = { λ p. p.visits };

    ghost spelt = { said };

    fn is_free(&self) -> bool {
        !self.taken
    }

    fn is_at(&self, sought: &Text<8>) -> bool {
        self.taken && self.name == *sought
    }

    fn own_key(&self) -> &Text<8> {
        &self.name
    }

    fn clear(&mut self) {
        self.taken = false;
    }
}

#[derive(Clone, Copy)]
struct Watch {
    address: [u8; 4],
    /// The events that are watched and the end, while the place is taken.
    live: Option<(u16, Option<u64>)>,
}

impl Place for Watch {
    type Key = [u8; 4];

    ghost Entry = { ℕ × Option ℕ };

    ghost taken = { λ p. is_some p.live };

    ghost key = { λ p. p.address };

    ghost entry = { λ p. unwrap_or p.live (0, None) };

    ghost spelt = { λ a. a };

    fn is_free(&self) -> bool {
        self.live.is_none()
    }

    fn is_at(&self, sought: &[u8; 4]) -> bool {
        self.live.is_some() && self.address == *sought
    }

    fn own_key(&self) -> &[u8; 4] {
        &self.address
    }

    fn clear(&mut self) {
        self.live = None;
    }
}

/// The events that a watch is to have from now on, and its end; none ends it.
struct Renewal {
    events: u16,
    end: Option<u64>,
}

impl Change<Renewal> for Watch {
    ghost changed = { λ n p. record { address = p.address; live = (if nat_eq n.events 0 then None else Some (n.events, n.end)) } };

    fn change(&mut self, how: &Renewal) {
        self.live = if how.events == 0 {
            None
        } else {
            Some((how.events, how.end))
        };
    }
}

fn visitor(letter: u8) -> Session {
    Session {
        taken: true,
        name: Text::new(&[letter; 3]),
        visits: 0,
    }
}

#[test]
fn sessions_come_and_go(rt: HostRuntime) {
    let mut places = [Session {
        taken: false,
        ..visitor(0)
    }; 2];
    assert_eq!(rt; insert(&mut places, visitor(1)), Ok(()));
    assert_eq!(rt; insert(&mut places, visitor(1)), Err(InsertError::Present));
    assert_eq!(rt; insert(&mut places, visitor(2)), Ok(()));
    assert_eq!(rt; insert(&mut places, visitor(3)), Err(InsertError::Full));
    assert!(rt; remove(&mut places, &visitor(1).name));
    assert!(rt; !remove(&mut places, &visitor(1).name));
    assert_eq!(rt; insert(&mut places, visitor(3)), Ok(()));
    assert!(rt; find(&places, &visitor(2).name).is_some());
}

#[test]
fn watches_are_changed_in_place(rt: HostRuntime) {
    let mut places = [Watch {
        address: [0; 4],
        live: None,
    }; 16];
    let watch = Watch {
        address: [10, 0, 0, 1],
        live: Some((1, None)),
    };
    assert_eq!(rt; insert(&mut places, watch), Ok(()));
    assert!(rt;
        change(
            &mut places,
            &watch.address,
            &Renewal {
                events: 6,
                end: Some(9),
            },
        )
    );
    assert_eq!(rt; count(&places), 1);
    assert!(rt;
        change(
            &mut places,
            &watch.address,
            &Renewal {
                events: 0,
                end: None,
            },
        )
    );
    assert_eq!(rt; count(&places), 0);
}

#[test]
fn a_sweep_reaches_every_watch(rt: HostRuntime) {
    let mut places = [Watch {
        address: [0; 4],
        live: Some((6, None)),
    }; 2];
    places[1].address = [10, 0, 0, 7];
    assert_eq!(rt; count(&places), 2);
    sweep(
        &mut places,
        &Renewal {
            events: 0,
            end: None,
        },
    );
    assert_eq!(rt; count(&places), 0);
}
