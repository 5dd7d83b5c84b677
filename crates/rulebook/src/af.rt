//! An application function as a sheet keeps it.
use crate::rights::Rights;
use crate::row::{AfRow, Row};
use refusal::Refusal;
use text::text::Text;

/// An application function: its name, and what it may see.
#[derive(Clone, Copy)]
pub(crate) struct Af {
    pub(crate) name: Text<64>,
    pub(crate) rights: Rights,
}

impl Af {
    /// An application function without a name and without rights.
    pub(crate) fn nameless() -> Af {
        Af {
            name: Text::empty(),
            rights: Rights::none(),
        }
    }
}

impl TryFrom<AfRow<'_>> for Af {
    type Error = Refusal;

    ghost use Rattle.rulebook.specs.Kept.{KeepsAf};

    ghost try_from_gives = { KeepsAf };

    /// The application function with as much of the name as there is room for, where its row is sound.
    fn try_from(af: AfRow<'_>) -> Result<Af, Refusal> {
        Ok(Af {
            name: Text::new(af.name),
            rights: Rights::try_from(Row::from(af))?,
        })
    }
}
