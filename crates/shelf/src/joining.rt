//! Joining: the number that two strips, one after the other, come to.
ghost use Rattle.std.specs.Prelude.{◌≡◌, ◌+◌, ◌≤◌, ◌++◌, length, replicate};
ghost use Rattle.book.specs.Laws.{KindKept};
ghost use Rattle.book.specs.Calls.{joined_up};
ghost use Rattle.recompression.specs.Contents.{rows_in};
ghost use Rattle.recompression.specs.Expansions.{written_out};
ghost use Rattle.rows.specs.Filing.{row_of};
ghost use Rattle.rows.specs.Strips.{strip};
ghost use Rattle.shelf.specs.Contents.{book_of, kind_of, rows_on};
ghost use Rattle.shelf.specs.Refusals.{ComesTo, StaysWritten, Writes};

use crate::Shelf;
use crate::leaves::{expand_part, settle_leaves};
use crate::refusal::Refusal;
use crate::work::WorkArea;
use book::law_of_joins_and_cuts;
use recompression::Table;
use rows::MAX_CELLS;

// Writes the leaf numbers of two strips, one after the other.
fn expand_both(table: &Table, left: u16, right: u16, numbers: &mut [u16])
    requires { length numbers.old ≡ (row_of (rows_in table.now) left).length + (row_of (rows_in table.now) right).length }
    ensures { numbers.new ≡ written_out (rows_in table.now) left 0 (row_of (rows_in table.now) left).length ++ written_out (rows_in table.now) right 0 (row_of (rows_in table.now) right).length }
{
    let (front, back) = numbers.split_at_mut(usize::from(table.length_of(left)));
    expand_part(table, left, 0, front);
    expand_part(table, right, 0, back);
}

// How many cells two strips have, one after the other.
fn joint_length(left: usize, right: usize) -> usize
    requires { left + right ≤ 131070 }
    ensures { result ≡ left + right }
{
    left + right
}

impl Shelf {
    // The number that the strips of two numbers come to, on a work area that the caller clears.
    fn join_on(&mut self, left: u16, right: u16, work: &mut [u16]) -> Result<u16, Refusal>
        ensures writes { Writes (strip (rows_on self.old) left ++ strip (rows_on self.old) right) (book_of self.old) (joined_up (book_of self.old) left right (length work.old)) result (book_of self.new) }
        ensures kind { kind_of self.new ≡ kind_of self.old }
    {
        law_of_joins_and_cuts();
        let left_length = self.length_of(left).ok_or(Refusal::UnknownNumber)?;
        let right_length = self.length_of(right).ok_or(Refusal::UnknownNumber)?;
        let length = joint_length(left_length, right_length);
        if length > MAX_CELLS {
            return Err(Refusal::TooLong);
        }
        if work.len() < length {
            return Err(Refusal::WorkAreaTooShort);
        }
        let numbers = &mut work[..length];
        expand_both(&self.table, left, right, numbers);
        settle_leaves(&mut self.table, numbers)
    }

    /// The number that the strips of two numbers, one after the other, come to by the rounds. It writes these, now and
    /// later. The work area needs a place for each cell of both.
    ///
    /// Refused, in this sequence, by `UnknownNumber`, `TooLong`, `WorkAreaTooShort`, `ShelfFull`.
    pub fn join(&mut self, left: u16, right: u16, work: &mut [u16]) -> Result<u16, Refusal>
        ensures outcome { ComesTo result (book_of self.new) (joined_up (book_of self.old) left right (length work.old)) }
        ensures kept { KindKept (rows_on self.old) (rows_on self.new) }
        ensures kind { kind_of self.new ≡ kind_of self.old }
        ensures cleared { work.new ≡ replicate (length work.old) 0 }
        ensures back { StaysWritten (strip (rows_on self.old) left ++ strip (rows_on self.old) right) (rows_on self.new) result }
    {
        let work = WorkArea(work);
        self.join_on(left, right, work.0)
    }
}
