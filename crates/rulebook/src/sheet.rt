//! The sheet of application functions: a checked value with their names and their rows.
ghost use Rattle.std.specs.Prelude.{◌≡◌, ◌≤◌, length, slice_get};
ghost use Rattle.std.specs.Option.{option_map};
ghost use Rattle.refusal.specs.Verdicts.{Unrefused, judged, told};
ghost use Rattle.rulebook.specs.Kept.{kept, kept_entry};
ghost use Rattle.rulebook.specs.Sheets.{entered, names, rows, sheet_refusals};

use crate::af::Af;
use crate::entering::{has_wrong_name, keep};
use crate::row::{AfRow, Row};
use refusal::Refusal;

/// 1 to 32 application functions, numbered from 0, each with a name of its own and a sound row.
// An array with a length: a sheet takes no memory from the heap and is `Copy`, which `ArrayVec` is not.
#[derive(Clone, Copy)]
pub struct AfSheet {
    pub(crate) afs: [Af; 32],
    pub(crate) len: u8,
    ghost fits: { len ≤ 32 },
    ghost sound: { Unrefused (sheet_refusals (kept len afs)) },
}

impl AfSheet {
    ghost use Rattle.rulebook.specs.Listed.{listing};

    /// The sheet of the application functions that are entered, in their order.
    #[tactic(auto, using(crate::proofs::Entered::entering))]
    pub fn new(afs: &[AfRow<'_>]) -> Result<AfSheet, Refusal>
        ensures { told listing result ≡ judged (sheet_refusals (entered afs.now)) (entered afs.now) }
    {
        if afs.is_empty() || afs.len() > 32 {
            return Err(Refusal::WrongAfCount);
        }
        if has_wrong_name(afs) {
            return Err(Refusal::WrongName);
        }
        Ok(AfSheet {
            afs: keep(afs)?,
            len: afs.len() as u8,
        })
    }

    /// How many application functions there are.
    pub fn len(&self) -> u8
        ensures { result ≡ length (listing self.now) }
    {
        self.len
    }

    /// The application function of a number, or none where it is not on the sheet.
    fn af(&self, number: u32) -> Option<&Af>
        ensures { option_map (λ x. kept_entry x.now) result ≡ slice_get (listing self.now) number }
    {
        self.afs[..usize::from(self.len)].get(number as usize)
    }

    /// The name of an application function, or none where the number is not on the sheet.
    pub fn name(&self, af: u32) -> Option<&[u8]>
        ensures { option_map (λ x. x.now) result ≡ slice_get (names (listing self.now)) af }
    {
        self.af(af).map(|entry| entry.name.octets())
    }

    /// The row of an application function, or none where the number is not on the sheet.
    pub fn row(&self, af: u32) -> Option<Row>
        ensures { result ≡ slice_get (rows (listing self.now)) af }
    {
        self.af(af).map(|entry| Row::from(entry.rights))
    }
}
