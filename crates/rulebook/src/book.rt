//! What every rule book answers.
ghost use Rattle.std.specs.Prelude.{◌≡◌, ℕ};

use fieldset::FieldSet;

/// Who may see what: two sets of fields for every application function (AF), by its number. An unknown one has two empty sets.
/// Whoever writes a book says by `allows` and `overrides` what it means, and shows that the two questions answer that.
// Two functions of one shape in each book: the two questions have each its own meaning.
pub trait RuleBook {
    ghost allows: { Self → ℕ → ℕ };

    ghost overrides: { Self → ℕ → ℕ };

    /// The fields that the AF may see.
    fn allowed(&self, af: u32) -> FieldSet
        ensures { result.bits ≡ allows self.now af };

    /// The fields that the AF sees also where they are withheld.
    fn overriding(&self, af: u32) -> FieldSet
        ensures { result.bits ≡ overrides self.now af };
}
