//! Cutting: the number that a part of a strip comes to.
ghost use Rattle.std.specs.Prelude.{◌≡◌, length, replicate};
ghost use Rattle.book.specs.Laws.{KindKept};
ghost use Rattle.book.specs.Calls.{cut_out, part_of};
ghost use Rattle.shelf.specs.Contents.{book_of, kind_of, rows_on};
ghost use Rattle.shelf.specs.Refusals.{ComesTo, StaysWritten, Writes};

use crate::Shelf;
use crate::leaves::{expand_part, settle_leaves};
use crate::refusal::Refusal;
use crate::work::WorkArea;
use book::law_of_joins_and_cuts;
use periodicity::Fragment;

impl Shelf {
    // The number that a part of a number's strip comes to, on a work area that the caller clears.
    fn cut_on(&mut self, number: u16, part: Fragment, work: &mut [u16]) -> Result<u16, Refusal>
        ensures writes { Writes (part_of (rows_on self.old) number part.start part.length) (book_of self.old) (cut_out (book_of self.old) number part.start part.length (length work.old)) result (book_of self.new) }
        ensures kind { kind_of self.new ≡ kind_of self.old }
    {
        law_of_joins_and_cuts();
        let whole = self.length_of(number).ok_or(Refusal::UnknownNumber)?;
        if !part.lies_within(whole) {
            return Err(Refusal::FragmentLeavesStrip);
        }
        if work.len() < part.length {
            return Err(Refusal::WorkAreaTooShort);
        }
        let numbers = &mut work[..part.length];
        expand_part(&self.table, number, part.start, numbers);
        settle_leaves(&mut self.table, numbers)
    }

    /// The number that a part of a number's strip comes to by the rounds. It writes that part, now and later. The work area
    /// needs a place for each cell of the part.
    ///
    /// Refused, in this sequence, by `UnknownNumber`, `FragmentLeavesStrip`, `WorkAreaTooShort`, `ShelfFull`.
    pub fn cut(&mut self, number: u16, part: Fragment, work: &mut [u16]) -> Result<u16, Refusal>
        ensures outcome { ComesTo result (book_of self.new) (cut_out (book_of self.old) number part.start part.length (length work.old)) }
        ensures kept { KindKept (rows_on self.old) (rows_on self.new) }
        ensures kind { kind_of self.new ≡ kind_of self.old }
        ensures cleared { work.new ≡ replicate (length work.old) 0 }
        ensures back { StaysWritten (part_of (rows_on self.old) number part.start part.length) (rows_on self.new) result }
    {
        let work = WorkArea(work);
        self.cut_on(number, part, work.0)
    }
}
