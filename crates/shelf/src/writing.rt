//! Writing out: the cells of a part of a number's strip.
ghost use Rattle.std.specs.Prelude.{◌≡◌, ◌+◌, ◌≤◌, map, length, ◌==◌};
ghost use Rattle.book.specs.Calls.{part_of};
ghost use Rattle.rows.specs.Strips.{strip};
ghost use Rattle.cells.specs.Giving.{given_by};
ghost use Rattle.shelf.specs.Contents.{kind_of, rows_on};
ghost use Rattle.shelf.specs.WritingOut.{refusal_of, check_number, writing_check, cells_after};

use crate::Shelf;
use crate::refusal::Refusal;
use cells::CellKind;
use periodicity::Fragment;

impl Shelf {
    // Writes the cells given back for the codes of the places from `start` on.
    fn fill<K: CellKind>(&self, number: u16, start: usize, cells: &mut [K])
        requires known { number ≤ length (rows_on self.now) }
        requires inside { start + length cells.old ≤ length (strip (rows_on self.now) number) }
        ensures { cells.new ≡ map (given_by K.has K.spelled K.BLANK) (part_of (rows_on self.now) number start (length cells.old)) }
    {
        for (i, cell) in cells.iter_mut().enumerate() {
            *cell = K::cell(self.table.code_at(number, start + i).unwrap());
        }
    }

    /// Fills the list with the cells of a number's strip from place `start` on, as many as it has places. A refusal leaves
    /// the list as it was.
    ///
    /// Refused, in this sequence, by `OtherKind`, `UnknownNumber`, `FragmentLeavesStrip`.
    pub fn write_out<K: CellKind>(
        &self,
        number: u16,
        start: usize,
        cells: &mut [K],
    ) -> Result<(), Refusal>
        ensures outcome { refusal_of result ≡ check_number (writing_check (kind_of self.now == K.NUMBER) (rows_on self.now) number start (length cells.old)) }
        ensures written { cells.new ≡ cells_after (given_by K.has K.spelled K.BLANK) (writing_check (kind_of self.now == K.NUMBER) (rows_on self.now) number start (length cells.old)) (rows_on self.now) number start cells.old }
    {
        if !self.is_of_kind::<K>() {
            return Err(Refusal::OtherKind);
        }
        let whole = self.length_of(number).ok_or(Refusal::UnknownNumber)?;
        let length = cells.len();
        if !(Fragment { start, length }).lies_within(whole) {
            return Err(Refusal::FragmentLeavesStrip);
        }
        self.fill(number, start, cells);
        Ok(())
    }
}
