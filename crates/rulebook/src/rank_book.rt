//! The rank book: an application function may see the fields that need no more than its rank.
ghost use Rattle.std.specs.Prelude.{◌≡◌, ℕ, ◌<◌, Ok, Err, nat_le, slice_index};
ghost use Rattle.fieldset.specs.Sets.{has};
ghost use Rattle.refusal.specs.Verdicts.{judged, told};
ghost use Rattle.rulebook.specs.Listed.{listing};
ghost use Rattle.rulebook.specs.Books.{reached, ranked, AnswersBy, rank_refusals, rank_rights, sheet_allows, sheet_overrides};

use crate::book::RuleBook;
use crate::ranks::{has_above_three, rank_rows};
use crate::sheet::AfSheet;
use crate::sheet_book::SheetBook;
use fieldset::FieldSet;
use refusal::Refusal;

/// Ranks and needs, worked out to a row for each AF.
#[derive(Clone, Copy)]
pub struct RankBook {
    rows: SheetBook,
}

impl RankBook {
    /// The book of the ranks of a sheet's AFs, by number, and of the needs of the ten fields. An AF without a rank has no
    /// rights, and ranks past the sheet are of no AF.
    #[tactic(auto, using(crate::proofs::Reached::reached_each))]
    pub fn new(sheet: &AfSheet, ranks: &[u8], needs: &[u8; 10]) -> Result<RankBook, Refusal>
        ensures rights { told rank_rights result ≡ judged (rank_refusals ranks.now needs.now) (ranked (listing sheet.now) ranks.now needs.now) }
        ensures answers { elim result [ Ok b ↦ AnswersBy (ranked (listing sheet.now) ranks.now needs.now) b.rows | Err e ↦ Unit {0} ] }
        ensures each { (rank k : ℕ) → k < 10 → has (reached rank needs.now) k ≡ nat_le (slice_index needs.now k) rank }
    {
        if has_above_three(ranks) || has_above_three(needs) {
            return Err(Refusal::WrongOpening);
        }
        let count = usize::from(sheet.len()).min(ranks.len());
        let rows = rank_rows(&ranks[..count], needs);
        Ok(RankBook {
            rows: SheetBook {
                rows,
                count: count as u8,
            },
        })
    }
}

impl RuleBook for RankBook {
    ghost allows = { λ b. sheet_allows b.rows };

    ghost overrides = { λ b. sheet_overrides b.rows };

    fn allowed(&self, af: u32) -> FieldSet {
        self.rows.allowed(af)
    }

    fn overriding(&self, af: u32) -> FieldSet {
        self.rows.overriding(af)
    }
}
