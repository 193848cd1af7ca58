//! A strip on a shelf.

ghost use Rattle.std.specs.Prelude.{◌≡◌, ◌≤◌, length, drop};
ghost use Rattle.periodicity.specs.Agreement.{common};
ghost use Rattle.keepers.specs.Shortness.{ShortList};
ghost use Rattle.rows.specs.Strips.{strip};
ghost use Rattle.shelf.specs.Contents.{rows_on};
ghost use Rattle.shelf_strip.specs.Sides.{seen};

use crate::cursor::{Cursor, View};
use crate::length::strip_length;
use keepers::{Keeper, Side};
use shelf::Shelf;

/// A strip on a shelf, kept as the shelf, shared, and the strip's number. While it is held the shelf takes, joins and
/// cuts nothing. Its codes are those of the cells of the strip: of days, those that differ only in their notes are equal.
#[derive(Clone, Copy)]
pub struct ShelfStrip<'a> {
    shelf: &'a Shelf,
    number: u16,
    ghost few: { ShortList (strip (rows_on shelf.now) number) },
}

impl<'a> ShelfStrip<'a> {
    ghost use Rattle.shelf_strip.specs.ShelfStrip.{number_of, shelf_of, strip_of};

    /// The strip of a number. A number that the shelf does not know is not refused: it stands for the empty strip, as 0
    /// does. Whether it is known, `Shelf::length_of` tells.
    #[tactic(auto, using(rows::proofs::LawfulFacts::strip_short))]
    pub fn new(shelf: &'a Shelf, number: u16) -> Self
        ensures shelf { shelf_of result ≡ shelf.now }
        ensures number { number_of result ≡ number }
        ensures list { strip_of result ≡ strip (rows_on shelf.now) number }
    {
        ShelfStrip { shelf, number }
    }
}

impl ShelfStrip<'_> {
    ghost use Rattle.shelf_strip.specs.ShelfStrip.{number_of, shelf_of, strip_of};

    // How many codes agree from two places on, counted from one side.
    fn agreeing(&self, side: Side, i: usize, j: usize) -> usize
        requires first { i ≤ length (strip_of self.now) }
        requires second { j ≤ length (strip_of self.now) }
        ensures { result ≡ common (drop i (seen side (rows_on (shelf_of self.now)) (number_of self.now))) (drop j (seen side (rows_on (shelf_of self.now)) (number_of self.now))) }
    {
        let len = self.len();
        let room = len - i.max(j);
        let view = View {
            shelf: self.shelf,
            side,
        };
        // By steps as long as the rows decide, which no iterator gives.
        let mut agreed = 0;
        while agreed < room {
            let left = Cursor::at(self.number, len, i + agreed);
            let right = Cursor::at(self.number, len, j + agreed);
            let more = view.step(left, right);
            if more == 0 {
                return agreed;
            }
            agreed += more;
        }
        agreed
    }
}

impl Keeper for ShelfStrip<'_> {
    ghost use Rattle.shelf_strip.specs.ShelfStrip.{strip_of, strip_of_short};

    ghost codes = { strip_of };

    ghost short = { strip_of_short };

    fn len(&self) -> usize {
        strip_length(self.shelf, self.number)
    }

    fn code_at(&self, place: usize) -> Option<u32> {
        self.shelf.code_at(self.number, place)
    }

    #[tactic(auto, using(crate::proofs::CountFacts::behind_seen))]
    fn extension(&self, side: Side, i: usize, j: usize) -> Option<usize> {
        let len = self.len();
        if i > len || j > len {
            return None;
        }
        let (i, j) = match side {
            Side::Ahead => (i, j),
            Side::Behind => (len - i, len - j),
        };
        Some(self.agreeing(side, i, j))
    }
}
