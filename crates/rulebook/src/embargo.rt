//! The embargo: a book over another one, from whose sets it takes the same fields for everyone.
ghost use Rattle.std.specs.Prelude.{◌≡◌, ℕ, true, false, [], ◌∷◌, nat_le};
ghost use Rattle.fieldset.specs.Sets.{has, minus};
ghost use Rattle.refusal.specs.Verdicts.{judged, told};
ghost use Rattle.refusal.specs.declared.Refusal.TheVariants.{WrongOpening};
ghost use Rattle.rulebook.specs.Views.{view_under};

use crate::book::RuleBook;
use crate::views::view_of;
use fieldset::FieldSet;
use refusal::Refusal;

/// A book that it owns, and the fields that it shuts.
#[derive(Drop)]
pub struct Embargo<B> {
    book: B,
    shut: FieldSet,
}

impl<B: RuleBook> Embargo<B> {
    /// The embargo on the fields that are written as `fields`, over a book.
    pub fn new(book: B, fields: u16) -> Result<Embargo<B>, Refusal>
    where
        B: Drop,
        ensures shut { told (λ e. e.shut.bits) result ≡ judged ((WrongOpening, nat_le 1024 fields) ∷ []) fields }
        ensures book { told (λ e. e.book) result ≡ judged ((WrongOpening, nat_le 1024 fields) ∷ []) book }
    {
        let shut = FieldSet::from_bits(fields).ok_or(Refusal::WrongOpening)?;
        Ok(Embargo { book, shut })
    }

    /// What an AF sees under the embargo of a session that withholds some fields: nothing that is shut.
    #[tactic(auto, using(fieldset::proofs::Laws::has_minus))]
    pub fn view(&self, af: u32, withheld: FieldSet) -> FieldSet
        ensures is { result.bits ≡ view_under self.now.shut.bits (B.RuleBook.allows self.now.book af) (B.RuleBook.overrides self.now.book af) withheld.bits }
        ensures shut { (k : ℕ) → has self.now.shut.bits k ≡ true → has result.bits k ≡ false }
    {
        view_of(self, af, withheld)
    }
}

impl<B: RuleBook> RuleBook for Embargo<B> {
    ghost allows = { λ e af. minus (B.RuleBook.allows e.book af) e.shut.bits };

    ghost overrides = { λ e af. minus (B.RuleBook.overrides e.book af) e.shut.bits };

    fn allowed(&self, af: u32) -> FieldSet {
        self.book.allowed(af).difference(self.shut)
    }

    fn overriding(&self, af: u32) -> FieldSet {
        self.book.overriding(af).difference(self.shut)
    }
}
