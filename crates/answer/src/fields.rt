//! The fields that an answer shows.
ghost use Rattle.std.specs.Prelude.{◌≡◌, ◌≤◌, length};
ghost use Rattle.fieldset.specs.Fields.{number};
ghost use Rattle.fieldset.specs.Sets.{members};
ghost use Rattle.writer.specs.Parts.{part_bytes, parts_bytes};
ghost use Rattle.message.specs.Limits.{field_limit};
ghost use Rattle.message.specs.Fields.{field_part, field_parts, fields_most};

use crate::source::FieldSource;
use fieldset::{Field, FieldSet};
use message::section::{Avp, Octets, Section};
use writer::writer::Writer;

/// Fields of a set, with their values.
#[derive_where(Clone, Copy)]
pub(crate) struct Shown<'s, S> {
    pub(crate) source: &'s S,
    pub(crate) set: FieldSet,
}

impl<'s, S: FieldSource> Shown<'s, S> {
    /// The AVP of a field, with its value.
    fn avp(self, field: Field) -> Avp<Field, Octets<'s>>
        ensures fits { length (S.value self.entry.source.now (number field)) ≤ field_limit (number field) }
        ensures is { ⟦<Avp<Field, Octets<'s>> as Section>⟧.bytes result ≡ part_bytes (field_part (number field) (S.value self.entry.source.now (number field))) }
    {
        Avp::of(field, self.source.value(field))
    }
}

impl<S: FieldSource> Section for Shown<'_, S> {
    ghost bytes = { λ s. parts_bytes (field_parts (S.value s.source.now) (members 10 s.set.bits)) };

    ghost most = { fields_most };

    fn size(&self) -> usize {
        let mut size = 0;
        // Tried as `map` and `sum`, and the proof didn't close: the bound rests on what each call of `value` ensures.
        for field in self.set.fields() {
            size += self.avp(field).size();
        }
        size
    }

    fn put(&self, w: &mut Writer<'_>) {
        for field in self.set.fields() {
            self.avp(field).put(w);
        }
    }
}
