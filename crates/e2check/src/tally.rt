//! How many lines were judged in each way.
ghost use Rattle.std.specs.Prelude.{◌≡◌, slice_index};
ghost use Rattle.refusal.specs.Refusals.{number};
ghost use Rattle.e2check.specs.Tallies.{counted, none_counted};

use crate::line::Judged;
use refusal::Refusal;
use std::fmt;

/// Counts of lines.
#[derive(Drop)]
pub struct Tally {
    pub sound: u64,
    /// By the number of the refusal.
    // Not a map: counting never fails, and a map may want memory.
    refused: [u64; 64],
    pub unreadable: u64,
}

impl Tally {
    /// No line is counted yet.
    pub fn new() -> Tally
        ensures { result ≡ none_counted }
    {
        Tally {
            sound: 0,
            refused: [0; 64],
            unreadable: 0,
        }
    }

    /// How many messages were refused for this reason.
    pub fn refused(&self, refusal: Refusal) -> u64
        ensures { result ≡ slice_index self.now.refused (number refusal) }
    {
        self.refused[refusal.number() as usize]
    }

    /// Counts one line more.
    pub fn count(&mut self, judged: Judged)
        ensures { self.new ≡ counted judged self.old }
    {
        match judged {
            Judged::Nothing => {}
            Judged::Sound(_, _) => self.sound = self.sound.saturating_add(1),
            Judged::Refused(refusal) => {
                let i = refusal.number() as usize;
                self.refused[i] = self.refused[i].saturating_add(1);
            }
            Judged::NotHex(_) => self.unreadable = self.unreadable.saturating_add(1),
        }
    }
}

/// The counts, a line for each kind of which there was one.
impl fmt::Display for Tally {
    fn fmt<W: fmt::Write>(&self, f: &mut fmt::Formatter<W>) -> fmt::Result {
        let sound = self.sound;
        writeln!(f, "sound: {sound}")?;
        for refusal in Refusal::ALL {
            let count = self.refused(refusal);
            if count > 0 {
                let number = refusal.number();
                writeln!(f, "refused {number}, {refusal}: {count}")?;
            }
        }
        let unreadable = self.unreadable;
        writeln!(f, "not hexadecimal: {unreadable}")
    }
}
