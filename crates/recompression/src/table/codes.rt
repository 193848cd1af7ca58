//! The code at a place of a number's strip, found from row to part.
ghost use Rattle.std.specs.Prelude.{◌≡◌};
ghost use Rattle.recompression.specs.Contents.{rows_in};
ghost use Rattle.recompression.specs.Codes.{code_in};

use crate::table::Table;
use rows::Shape;

impl Table {
    /// The code at a place of a number's strip, counted from 0; none from the length that its row keeps on, and so for
    /// number 0 and for one that is not known.
    pub fn code_at(&self, number: u16, place: usize) -> Option<u32>
        ensures { result ≡ code_in (rows_in self.now) number place }
    {
        let row = self.row(number)?;
        if place >= usize::from(row.length) {
            return None;
        }
        match row.shape {
            Shape::Leaf { code } => Some(code),
            Shape::Pair { left, right } => {
                let first = self.part_length(number, left);
                if place < first {
                    self.code_at(left, place)
                } else {
                    self.code_at(right, place - first)
                }
            }
            Shape::Repeat { part, .. } => self.code_at(
                part,
                place % self.part_length(number, part),
            ),
        }
    }
}
