//! The view: what an application function sees of a session.
ghost use Rattle.std.specs.Prelude.{◌≡◌, ℕ, true, false};
ghost use Rattle.fieldset.specs.Sets.{has};
ghost use Rattle.rulebook.specs.Views.{seen, view, WorkedViews};

use crate::book::RuleBook;
use fieldset::FieldSet;

/// Of the fields that are allowed, those that are not withheld or are overriding.
// Three sets, the first two in no pair: a book answers each question by itself, and need not keep the overriding among the allowed.
pub fn view(allowed: FieldSet, overriding: FieldSet, withheld: FieldSet) -> FieldSet
    ensures is { result.bits ≡ view allowed.bits overriding.bits withheld.bits }
    ensures each { (k : ℕ) → has result.bits k ≡ seen allowed.bits overriding.bits withheld.bits k }
{
    allowed.difference(withheld.difference(overriding))
}

/// What an AF sees of a session that withholds some fields, by any book.
pub fn view_of<B: RuleBook>(book: &B, af: u32, withheld: FieldSet) -> FieldSet
    ensures is { result.bits ≡ view (B.RuleBook.allows book.now af) (B.RuleBook.overrides book.now af) withheld.bits }
    ensures each { (k : ℕ) → has result.bits k ≡ seen (B.RuleBook.allows book.now af) (B.RuleBook.overrides book.now af) withheld.bits k }
    ensures inside { (k : ℕ) → has result.bits k ≡ true → has (B.RuleBook.allows book.now af) k ≡ true }
    ensures hidden { (k : ℕ) → has withheld.bits k ≡ true → has (B.RuleBook.overrides book.now af) k ≡ false → has result.bits k ≡ false }
{
    view(book.allowed(af), book.overriding(af), withheld)
}

/// The worked example stands: `docs/rights.md` tells it.
pub fn worked_views()
    ensures { WorkedViews }
{}
