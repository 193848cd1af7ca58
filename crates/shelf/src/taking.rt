//! Taking: the number that given cells come to.
ghost use Rattle.std.specs.Prelude.{◌≡◌, length, replicate, ◌==◌};
ghost use Rattle.book.specs.Calls.{taken};
ghost use Rattle.book.specs.Laws.{OfKind};
ghost use Rattle.cells.specs.Giving.{given_by};
ghost use Rattle.shelf.specs.Contents.{book_of, kind_of, rows_on};
ghost use Rattle.shelf.specs.Refusals.{ComesTo};
ghost use Rattle.shelf.specs.WritingOut.{WrittenBack};

use crate::Shelf;
use crate::printable::Printable;
use crate::refusal::Refusal;
use crate::work::WorkArea;
use book::law_of_takes;
use cells::CellKind;

impl Shelf {
    // Whether its cells are of this kind.
    pub(crate) fn is_of_kind<K: CellKind>(&self) -> bool
        ensures { result ≡ (kind_of self.now == K.NUMBER) }
    {
        self.kind == K::NUMBER
    }

    // The number that the cells come to, on a work area that the caller clears.
    fn take_on<K: CellKind>(&mut self, cells: &[K], work: &mut [u16]) -> Result<u16, Refusal>
        ensures outcome { ComesTo result (book_of self.new) (taken (kind_of self.old == K.NUMBER) K.coded (book_of self.old) cells.now (length work.old)) }
        ensures kind { kind_of self.new ≡ kind_of self.old }
        ensures kept { OfKind K.has (rows_on self.old) → OfKind K.has (rows_on self.new) }
        ensures back { WrittenBack K.same (given_by K.has K.spelled K.BLANK) (rows_on self.new) cells.now result }
    {
        law_of_takes::<K>();
        if !self.is_of_kind::<K>() {
            return Err(Refusal::OtherKind);
        }
        Printable::of(cells)?.file(&mut self.table, work)
    }

    /// The number that the cells come to by the rounds: 0 for no cells. What is written out for that number, now or later,
    /// has the same cells. The work area needs a place for each cell.
    ///
    /// Refused, in this sequence, by `OtherKind`, `TooLong`, `Unprintable`, `WorkAreaTooShort`, `ShelfFull`.
    pub fn take<K: CellKind>(&mut self, cells: &[K], work: &mut [u16]) -> Result<u16, Refusal>
        ensures outcome { ComesTo result (book_of self.new) (taken (kind_of self.old == K.NUMBER) K.coded (book_of self.old) cells.now (length work.old)) }
        ensures kind { kind_of self.new ≡ kind_of self.old }
        ensures cleared { work.new ≡ replicate (length work.old) 0 }
        ensures kept { OfKind K.has (rows_on self.old) → OfKind K.has (rows_on self.new) }
        ensures back { WrittenBack K.same (given_by K.has K.spelled K.BLANK) (rows_on self.new) cells.now result }
    {
        let work = WorkArea(work);
        self.take_on(cells, work.0)
    }
}
