//! A new shelf, and what can be read of one.
ghost use Rattle.std.specs.Prelude.{◌≡◌, [], length, replicate};
ghost use Rattle.recompression.specs.Contents.{row_at, with_blanks};
ghost use Rattle.rows.specs.Filing.{blank_row};
ghost use Rattle.shelf.specs.Contents.{kind_of, rows_on, slots_on, length_at, code_at};

use crate::Shelf;
use cells::CellKind;
use recompression::Table;
use rows::Row;

impl Shelf {
    /// A new shelf of a kind: 1,024 blank rows, none in use.
    pub fn new<K: CellKind>() -> Shelf
        ensures rows { rows_on result ≡ [] }
        ensures slots { slots_on result ≡ replicate 1024 blank_row }
        ensures kind { kind_of result ≡ K.NUMBER }
    {
        Shelf {
            table: Table::new(),
            kind: K::NUMBER,
        }
    }

    /// The number of the kind of its cells.
    pub fn kind_number(&self) -> u8
        ensures { result ≡ kind_of self.now }
    {
        self.kind
    }

    /// All 1,024 slots: the rows in use, in the order of their numbers, and then blank ones.
    pub fn slots(&self) -> &[Row]
        ensures shown { result.now ≡ slots_on self.now }
        ensures blanks { result.now ≡ with_blanks (rows_on self.now) }
    {
        self.table.slots()
    }

    /// How many rows are in use: at most 1,024.
    pub fn count(&self) -> usize
        ensures { result ≡ length (rows_on self.now) }
    {
        self.table.count()
    }

    /// The row of a known number; none for number 0, the empty strip, and for one that is not known.
    pub fn row(&self, number: u16) -> Option<Row>
        ensures { result ≡ row_at (rows_on self.now) number }
    {
        self.table.row(number)
    }

    /// The length of a known number's strip, in cells: 0 for number 0, and none for a number that is not known.
    #[tactic(auto, using(crate::proofs::RowFacts::length_known))]
    pub fn length_of(&self, number: u16) -> Option<usize>
        ensures { result ≡ length_at (rows_on self.now) number }
    {
        if usize::from(number) > self.table.count() {
            return None;
        }
        Some(usize::from(self.table.length_of(number)))
    }

    /// The code at a place of a number's strip, counted from 0; none from its length on, and so for every place of a number
    /// that is not known.
    #[tactic(auto, using(crate::proofs::RowFacts::code_told))]
    pub fn code_at(&self, number: u16, place: usize) -> Option<u32>
        ensures { result ≡ code_at (rows_on self.now) number place }
    {
        self.table.code_at(number, place)
    }
}
