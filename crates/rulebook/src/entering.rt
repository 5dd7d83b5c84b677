//! Application functions on their way into a sheet: the tests that they pass, and how they are kept.
ghost use Rattle.std.specs.Prelude.{◌≡◌, ◌≤◌, false, [], ◌∷◌, length};
ghost use Rattle.std.specs.List.{list_any};
ghost use Rattle.std.specs.Str.{bytes_eq};
ghost use Rattle.refusal.specs.Verdicts.{judged, told};
ghost use Rattle.refusal.specs.declared.Refusal.TheVariants.{WrongRow};
ghost use Rattle.rulebook.specs.Kept.{kept};
ghost use Rattle.rulebook.specs.Sheets.{wrong_name, wrong_names, wrong_rows, entered_name, entered_row, entered};

use crate::af::Af;
use crate::row::AfRow;
use refusal::Refusal;

/// Whether an application function has this name.
fn is_taken(afs: &[AfRow<'_>], name: &[u8]) -> bool
    ensures { result ≡ list_any (λ a. bytes_eq (entered_name a) name.now) afs.now }
{
    afs.iter().any(|af| af.name == name)
}

/// Whether a name is empty, too long or that of an earlier application function.
fn is_wrong_name(earlier: &[AfRow<'_>], name: &[u8]) -> bool
    ensures { result ≡ wrong_name entered_name earlier.now name.now }
{
    name.is_empty() || name.len() > 64 || is_taken(earlier, name)
}

/// Whether some name is wrong.
pub(crate) fn has_wrong_name(afs: &[AfRow<'_>]) -> bool
    ensures { result ≡ wrong_names entered_name afs.now }
{
    afs.iter()
        .enumerate()
        .any(|(k, af)| is_wrong_name(&afs[..k], af.name))
}

/// The application functions as they are kept, where each row is sound.
pub(crate) fn keep(afs: &[AfRow<'_>]) -> Result<[Af; 32], Refusal>
    requires few { length afs.now ≤ 32 }
    requires named { wrong_names entered_name afs.now ≡ false }
    ensures { told (kept (length afs.now)) result ≡ judged ((WrongRow, wrong_rows entered_row afs.now) ∷ []) (entered afs.now) }
{
    let mut kept = [Af::nameless(); 32];
    for (k, af) in afs.iter().enumerate() {
        kept[k] = Af::try_from(*af)?;
    }
    Ok(kept)
}
