//! The fields of a set one by one, in ascending order.
ghost use Rattle.std.specs.Prelude.{◌≡◌};
ghost use Rattle.fieldset.specs.Fields.{number};
ghost use Rattle.fieldset.specs.Sets.{members};
ghost use Rattle.std.specs.Iterator.{YieldsFirstBy, item_count};

use crate::{Field, FieldSet};

/// The fields of a set that are still to come.
#[derive(Clone, Copy)]
pub struct Fields {
    rest: FieldSet,
}

impl FieldSet {
    /// The fields of the set, in ascending order.
    pub fn fields(self) -> Fields
        ensures { result.rest.bits ≡ self.bits }
    {
        Fields { rest: self }
    }
}

impl Iterator for Fields {
    type Item = Field;

    ghost next_gives = { YieldsFirstBy number (λ s. members 10 s.rest.bits) };

    ghost remaining = { item_count (λ s. members 10 s.rest.bits) };

    fn next(&mut self) -> Option<Field> {
        let lowest = self.rest.bits().trailing_zeros();
        let field = Field::try_from(lowest as u8).ok()?;
        self.rest = self.rest.without_lowest();
        Some(field)
    }
}
