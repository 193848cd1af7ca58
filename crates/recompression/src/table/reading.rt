//! A new table, and what can be read of one.
ghost use Rattle.std.specs.Prelude.{◌≡◌, [], length, replicate};
ghost use Rattle.recompression.specs.Contents.{rows_in, row_at, slots_in, with_blanks};
ghost use Rattle.rows.specs.Filing.{blank_row, row_of};

use crate::slots::Slots;
use crate::table::Table;
use rows::Row;

impl Table {
    /// A table of 1,024 blank slots, none in use.
    pub fn new() -> Table
        ensures rows { rows_in result ≡ [] }
        ensures slots { slots_in result ≡ replicate 1024 blank_row }
    {
        Table {
            slots: Slots::new(),
        }
    }

    /// All 1,024 slots: the rows in use, in the order of their numbers, and then blank ones.
    #[tactic(auto, using(crate::proofs::SlotFacts::slots_blank))]
    pub fn slots(&self) -> &[Row]
        ensures shown { result.now ≡ slots_in self.now }
        ensures blanks { result.now ≡ with_blanks (rows_in self.now) }
    {
        self.slots.all()
    }

    /// How many rows are in use.
    pub fn count(&self) -> usize
        ensures { result ≡ length (rows_in self.now) }
    {
        self.slots.count
    }

    /// The row of a number; none for number 0 and for one that is not known.
    pub fn row(&self, number: u16) -> Option<Row>
        ensures { result ≡ row_at (rows_in self.now) number }
    {
        // Number 0 wraps round to an index past all rows.
        let index = usize::from(number).wrapping_sub(1);
        self.slots.in_use().get(index).copied()
    }

    /// The length that a number's row keeps, in cells: 0 for number 0 and for one that is not known.
    pub fn length_of(&self, number: u16) -> u16
        ensures { result ≡ (row_of (rows_in self.now) number).length }
    {
        self.row(number).map_or(0, |row| row.length)
    }
}
