//! Ranks and needs on their way into a rank book.
ghost use Rattle.std.specs.Prelude.{◌≡◌, ◌≤◌, map, length, take};
ghost use Rattle.rulebook.specs.Books.{reached, rank_row, above_three};

use crate::row::Row;
use fieldset::FieldSet;

/// Whether some number is above 3.
pub(crate) fn has_above_three(numbers: &[u8]) -> bool
    ensures { result ≡ above_three numbers.now }
{
    numbers.iter().any(|number| *number > 3)
}

/// The fields whose need is at most the rank.
#[tactic(auto, using(crate::proofs::Reached::reaching))]
fn reach(needs: &[u8; 10], rank: u8) -> FieldSet
    ensures { result.bits ≡ reached rank needs.now }
{
    // Not `fold`: tried, and that no turn passes 16 bits did not close.
    let mut bits = 0;
    for (k, need) in needs.iter().enumerate() {
        if *need <= rank {
            bits |= 1 << k;
        }
    }
    FieldSet::from_bits_truncate(bits)
}

/// The row of an application function with a rank.
fn rank_row(needs: &[u8; 10], rank: u8) -> Row
    ensures { result ≡ rank_row needs.now rank }
{
    let allowed = reach(needs, rank).bits();
    Row {
        allowed,
        overriding: if rank == 3 { allowed } else { 0 },
    }
}

/// The rows of application functions with these ranks.
pub(crate) fn rank_rows(ranks: &[u8], needs: &[u8; 10]) -> [Row; 32]
    requires { length ranks.now ≤ 32 }
    ensures { take (length ranks.now) result ≡ map (rank_row needs.now) ranks.now }
{
    let mut rows = [Row::default(); 32];
    // Not `zip` with `iter_mut`: tried, and what the loop leaves in the array did not close.
    for (k, rank) in ranks.iter().enumerate() {
        rows[k] = rank_row(needs, *rank);
    }
    rows
}
