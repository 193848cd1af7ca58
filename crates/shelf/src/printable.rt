//! Printable cells, few enough for a strip, and how they are filed on a table.
ghost use Rattle.std.specs.Prelude.{◌≡◌, ◌≤◌, length, None, IfOk, IfErr};
ghost use Rattle.book.specs.Calls.{printed, filing};
ghost use Rattle.cells.specs.Printing.{first_unprintable};
ghost use Rattle.recompression.specs.Contents.{rows_in};
ghost use Rattle.shelf.specs.Leaves.{LeavesFiled, SettlesAs, SettlesOrUndoes};
ghost use Rattle.shelf.specs.Refusals.{StripFiled, Unfit};

use crate::leaves::settle_leaves;
use crate::refusal::Refusal;
use cells::{CellKind, first_unprintable};
use recompression::Table;
use rows::{MAX_CELLS, Shape};

// Cells that all have a code, and of which a strip can have so many. The work places stand beside them: a struct of
// both would hold a `&mut` that the caller needs back to clear it.
#[derive(Drop)]
pub(crate) struct Printable<'a, K: CellKind> {
    cells: &'a [K],
    ghost printable: { first_unprintable K.coded cells.now ≡ None },
    ghost short: { length cells.now ≤ 65535 },
}

impl<'a, K: CellKind> Printable<'a, K> {
    // Cells that pass both checks, or the refusal of the first that they fail.
    pub(crate) fn of(cells: &'a [K]) -> Result<Self, Refusal>
        ensures fit { IfOk result (λ fit. fit.cells.now ≡ cells.now) }
        ensures unfit { IfErr result (λ refusal. Unfit K.coded cells.now refusal) }
    {
        if cells.len() > MAX_CELLS {
            return Err(Refusal::TooLong);
        }
        // No method makes an error of a `Some`.
        match first_unprintable(cells) {
            Some(place) => Err(Refusal::Unprintable { place }),
            None => Ok(Printable { cells }),
        }
    }

    // Files the leaf of each cell from left to right, and writes their numbers. Where a row 1,025 would be
    // needed, rows are left behind that the caller takes off again.
    fn file_leaves(&self, table: &mut Table, numbers: &mut [u16]) -> Result<(), Refusal>
        requires { length numbers.old ≡ length self.now.cells.now }
        ensures { LeavesFiled (rows_in table.old) (printed K.coded self.now.cells.now) result (rows_in table.new) numbers.new }
    {
        // By place, since the checker knows nothing of what is written through a zipped `iter_mut`.
        for (i, cell) in self.cells.iter().enumerate() {
            let code = cell.code().unwrap();
            numbers[i] = table
                .file(0, Shape::Leaf { code })
                .ok_or(Refusal::ShelfFull)?;
        }
        Ok(())
    }

    // The number of the strip. A refusal leaves rows behind that the caller takes off again.
    fn settle(&self, table: &mut Table, numbers: &mut [u16]) -> Result<u16, Refusal>
        requires { length numbers.old ≡ length self.now.cells.now }
        ensures { SettlesAs (rows_in table.old) (printed K.coded self.now.cells.now) result (rows_in table.new) }
    {
        self.file_leaves(table, numbers)?;
        settle_leaves(table, numbers)
    }

    // The number of the strip, which gets its rows. A refusal leaves the rows as they were. A method of the table that
    // takes the work to try would have to require that it can be called, and no public function requires anything.
    fn settle_or_undo(&self, table: &mut Table, numbers: &mut [u16]) -> Result<u16, Refusal>
        requires { length numbers.old ≡ length self.now.cells.now }
        ensures { SettlesOrUndoes (rows_in table.old) (printed K.coded self.now.cells.now) result (rows_in table.new) }
    {
        let count = table.count();
        let answer = self.settle(table, numbers);
        if answer.is_err() {
            table.truncate(count);
        }
        answer
    }

    // The number of the strip, which gets its rows, worked out on a work area that the caller clears.
    pub(crate) fn file(&self, table: &mut Table, work: &mut [u16]) -> Result<u16, Refusal>
        ensures { StripFiled result (rows_in table.new) (filing (rows_in table.old) (printed K.coded self.now.cells.now) (length work.old)) }
    {
        let size = self.cells.len();
        if work.len() < size {
            return Err(Refusal::WorkAreaTooShort);
        }
        self.settle_or_undo(table, &mut work[..size])
    }
}
