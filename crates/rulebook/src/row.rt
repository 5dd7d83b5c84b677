//! The rights of one application function, as two plain numbers.
ghost use Rattle.std.specs.Prelude.{◌≡◌};
ghost use Rattle.rulebook.specs.Rows.{wrong_row};
ghost use Rattle.rulebook.specs.Sheets.{entered_row};

use crate::rights::Rights;

/// The fields that an application function may see, and those that it may see though they are withheld: field `k` as 2^k.
#[derive(Clone, Copy, PartialEq, Eq, Debug, Default)]
pub struct Row {
    pub allowed: u16,
    pub overriding: u16,
}

/// An application function as it is entered into a sheet.
// Not a `Row` beside the name: who enters an application function gives three things, and the numbers are not checked yet.
#[derive(Clone, Copy)]
pub struct AfRow<'a> {
    pub name: &'a [u8],
    pub allowed: u16,
    pub overriding: u16,
}

impl Row {
    /// Whether it has bits that stand for no field, or overrides what it does not allow.
    pub fn is_wrong(self) -> bool
        ensures { result ≡ wrong_row self }
    {
        Rights::try_from(self).is_err()
    }
}

impl From<AfRow<'_>> for Row {
    ghost from_gives = { λ af row. row ≡ entered_row af };

    fn from(af: AfRow<'_>) -> Row {
        Row {
            allowed: af.allowed,
            overriding: af.overriding,
        }
    }
}
