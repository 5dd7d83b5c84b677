//! Where the values of fields come from.
ghost use Rattle.std.specs.Prelude.{◌≡◌, ℕ, ◌≤◌, List, [], length};
ghost use Rattle.fieldset.specs.Fields.{number};
ghost use Rattle.message.specs.Limits.{field_limit};

use fieldset::Field;

/// What has a value for each of the ten fields, empty where there is none.
pub trait FieldSource {
    ghost value: { Self → ℕ → List ℕ };

    fn value(&self, field: Field) -> &[u8]
        ensures is { result.now ≡ value self.now (number field) }
        ensures fits { length result.now ≤ field_limit (number field) };
}

/// The source of an answer that shows no field.
#[derive(Clone, Copy)]
pub struct NoFields;

impl FieldSource for NoFields {
    ghost value = { λ _ _. [] };

    fn value(&self, _field: Field) -> &[u8] {
        b""
    }
}
