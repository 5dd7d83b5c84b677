//! Who may see what: the sheet of application functions, the rule books, and the view of a session.
#![tactic(auto)]

mod af;
mod book;
mod embargo;
mod entering;
mod rank_book;
mod ranks;
mod rights;
mod row;
mod sheet;
mod sheet_book;
mod views;

pub use book::RuleBook;
pub use embargo::Embargo;
pub use rank_book::RankBook;
pub use row::{AfRow, Row};
pub use sheet::AfSheet;
pub use sheet_book::SheetBook;
pub use views::{view, view_of, worked_views};

#[cfg(test)]
mod tests {
    use super::*;
    use fieldset::FieldSet;
    use refusal::Refusal;
    use std::test::Fail;

    const VOICE: AfRow<'static> = AfRow {
        name: b"voice",
        allowed: 50,
        overriding: 2,
    };

    #[test]
    fn views(rt: HostRuntime) -> Result<(), Fail> {
        let sheet = AfSheet::new(&[VOICE])?;
        let book = SheetBook::new(&sheet);
        let withheld = FieldSet::from_bits_truncate(34);
        assert_eq!(rt; view_of(&book, 0, withheld).bits(), 18);
        assert_eq!(rt; view_of(&book, 1, withheld).bits(), 0);
        let shut = Embargo::new(book, 2)?;
        assert_eq!(rt; view_of(&shut, 0, withheld).bits(), 16);
        let twice = Embargo::new(shut, 16)?;
        assert_eq!(rt; view_of(&twice, 0, withheld).bits(), 0);
        Ok(())
    }

    #[test]
    fn ranks(rt: HostRuntime) -> Result<(), Fail> {
        let sheet = AfSheet::new(&[VOICE])?;
        let book = RankBook::new(&sheet, &[3, 0], &[0, 1, 2, 3, 0, 1, 2, 3, 0, 1])?;
        assert_eq!(rt; book.overriding(0).bits(), 1023);
        assert_eq!(rt; book.allowed(1).bits(), 0);
        Ok(())
    }

    #[test]
    fn sheets_are_refused(rt: HostRuntime) {
        assert_eq!(rt; refused(&[]), Some(26));
        assert_eq!(rt; refused(&[VOICE, VOICE]), Some(27));
        let video = AfRow {
            name: b"video",
            allowed: 1,
            overriding: 2,
        };
        assert_eq!(rt; refused(&[video]), Some(28));
    }

    fn refused(afs: &[AfRow<'_>]) -> Option<u8> {
        AfSheet::new(afs).err().map(Refusal::number)
    }
}
