//! The sheet book: the rights of each application function as its row says.
ghost use Rattle.std.specs.Prelude.{◌≡◌, slice_index_or};
ghost use Rattle.rulebook.specs.Rows.{blank};
ghost use Rattle.rulebook.specs.Listed.{listing};
ghost use Rattle.rulebook.specs.Sheets.{rows};
ghost use Rattle.rulebook.specs.Books.{rights, AnswersBy, sheet_allows, sheet_overrides};

use crate::book::RuleBook;
use crate::row::Row;
use crate::sheet::AfSheet;
use fieldset::FieldSet;

/// The first `count` rows, by number. They are plain numbers, and a set is made of one when it is read.
// An array with a length, in plain numbers: whoever has a book may write and put back a row, and it takes no memory from the heap.
#[derive(Clone, Copy)]
pub struct SheetBook {
    pub rows: [Row; 32],
    pub count: u8,
}

impl SheetBook {
    /// The book of a sheet.
    pub fn new(sheet: &AfSheet) -> SheetBook
        ensures rights { rights result ≡ rows (listing sheet.now) }
        ensures answers { AnswersBy (rows (listing sheet.now)) result }
    {
        // Not `sheet.afs.map`: that takes the array with its names by value, and moves them all.
        let mut rows = [Row::default(); 32];
        for (k, af) in sheet.afs.iter().enumerate() {
            rows[k] = Row::from(af.rights);
        }
        SheetBook {
            rows,
            count: sheet.len,
        }
    }

    /// The row of an AF: without rights where its number is unknown.
    pub fn row(&self, af: u32) -> Row
        ensures { result ≡ slice_index_or (rights self.now) af blank }
    {
        let count = usize::from(self.count).min(self.rows.len());
        self.rows[..count]
            .get(af as usize)
            .copied()
            .unwrap_or_default()
    }
}

impl RuleBook for SheetBook {
    ghost allows = { sheet_allows };

    ghost overrides = { sheet_overrides };

    fn allowed(&self, af: u32) -> FieldSet {
        FieldSet::from_bits_truncate(self.row(af).allowed)
    }

    fn overriding(&self, af: u32) -> FieldSet {
        FieldSet::from_bits_truncate(self.row(af).overriding)
    }
}
