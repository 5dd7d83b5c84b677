//! The rights of one application function as two sets of fields that are checked against each other.
ghost use Rattle.std.specs.Prelude.{◌≡◌, true};
ghost use Rattle.fieldset.specs.Sets.{inside};

use crate::row::Row;
use fieldset::FieldSet;
use refusal::Refusal;

/// The fields that an application function may see, and those among them that it sees though they are withheld.
#[derive(Clone, Copy)]
pub(crate) struct Rights {
    allowed: FieldSet,
    overriding: FieldSet,
    ghost within: { inside overriding.bits allowed.bits ≡ true },
}

impl Rights {
    /// No rights.
    pub(crate) fn none() -> Rights {
        Rights {
            allowed: FieldSet::empty(),
            overriding: FieldSet::empty(),
        }
    }
}

impl TryFrom<Row> for Rights {
    type Error = Refusal;

    ghost use Rattle.rulebook.specs.Rights.{ChecksRow};

    ghost try_from_gives = { ChecksRow };

    fn try_from(row: Row) -> Result<Rights, Refusal> {
        let allowed = FieldSet::from_bits(row.allowed).ok_or(Refusal::WrongRow)?;
        let overriding = FieldSet::from_bits(row.overriding).ok_or(Refusal::WrongRow)?;
        if !overriding.is_subset(allowed) {
            return Err(Refusal::WrongRow);
        }
        Ok(Rights {
            allowed,
            overriding,
        })
    }
}

impl From<Rights> for Row {
    ghost use Rattle.std.specs.Prelude.{◌≡◌};
    ghost use Rattle.rulebook.specs.Rights.{row_of};

    ghost from_gives = { λ rights row. row ≡ row_of rights };

    fn from(rights: Rights) -> Row {
        Row {
            allowed: rights.allowed.bits(),
            overriding: rights.overriding.bits(),
        }
    }
}
