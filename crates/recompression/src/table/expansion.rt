//! A part of a number's strip, written out as the numbers of its leaves.
ghost use Rattle.std.specs.Prelude.{◌≡◌, ◌-◌, ◌%◌, ◌<◌, ◌≤◌, length};
ghost use Rattle.recompression.specs.Contents.{rows_in};
ghost use Rattle.recompression.specs.Expansions.{Asked, ExpandsTo, copies_out, part_length, written_out};
ghost use Rattle.rows.specs.declared.Shape.TheVariants.{Pair, Repeat};
ghost use Rattle.rows.specs.Filing.{row_of, shape_length};

use crate::table::Table;
use rows::Shape;

/// The part asked for goes past the length that the number's row keeps: that of its strip, or 65,535 for a longer one.
#[derive(Clone, Copy, PartialEq, Eq, Debug)]
pub struct OutOfStrip;

// Where in a copy a place of the copies lies: whole copies are skipped.
fn place_in_copy(place: usize, copy_length: usize) -> usize
    requires { 0 < copy_length }
    ensures { result ≡ place % copy_length }
{
    place % copy_length
}

impl Table {
    /// Fills `out` with the leaf numbers of the places from `start` on of a number's strip; `out` is left alone where
    /// these go past the length that the number's row keeps. Number 0 and a number that is not known have no place.
    pub fn expand(&self, number: u16, start: usize, out: &mut [u16]) -> Result<(), OutOfStrip>
        ensures { ExpandsTo (rows_in self.now) number start out.old result out.new }
    {
        let kept = usize::from(self.length_of(number));
        // By hand, since this crate knows no fragments.
        if start > kept || out.len() > kept - start {
            return Err(OutOfStrip);
        }
        // A number is its own one copy, and so is each part of a pair.
        self.expand_repeat(number, 1, start, out);
        Ok(())
    }

    // The length that a part of a row keeps. A part that is not below its row stands for the empty strip.
    pub(super) fn part_length(&self, number: u16, part: u16) -> usize
        ensures { result ≡ part_length (rows_in self.now) number part }
    {
        if part < number {
            usize::from(self.length_of(part))
        } else {
            0
        }
    }

    // Places before the end of the left part come from it, and the others from the right part.
    #[cycle(expand_pair_expand_repeat)]
    fn expand_pair(&self, number: u16, left: u16, right: u16, start: usize, out: &mut [u16])
        requires { Asked (rows_in self.now) number (Pair left right) start (length out.old) }
        ensures { out.new ≡ written_out (rows_in self.now) number start (length out.old) }
    {
        let left_length = self.part_length(number, left);
        let split = left_length.saturating_sub(start).min(out.len());
        let (front, back) = out.split_at_mut(split);
        self.expand_repeat(left, 1, start, front);
        self.expand_repeat(right, 1, start.saturating_sub(left_length), back);
    }

    // The copies of a number's strip, one after the other, the first of them from where the start lies in it. A leaf is
    // its own number in each of them, and of one copy the places are those of the strip. A part that any place is asked
    // of lies below its row, so that the calls come to leaves.
    #[cycle(expand_pair_expand_repeat)]
    fn expand_repeat(&self, number: u16, copies: u16, start: usize, out: &mut [u16])
        requires { length out.old ≤ shape_length (rows_in self.now) (Repeat number copies) - start }
        ensures { out.new ≡ copies_out (rows_in self.now) number copies start (length out.old) }
    {
        if out.is_empty() {
            return;
        }
        let Some(row) = self.row(number) else {
            return;
        };
        match row.shape {
            // One place, as most are asked for, needs no loop.
            Shape::Leaf { .. } if out.len() == 1 => out[0] = number,
            Shape::Leaf { .. } => out.fill(number),
            Shape::Pair { left, right } if copies == 1 => {
                self.expand_pair(number, left, right, start, out)
            }
            Shape::Repeat { part, times } if copies == 1 => {
                self.expand_repeat(part, times, start, out)
            }
            _ => {
                let copy_length = usize::from(row.length);
                let mut filled = 0;
                while filled < out.len() {
                    let place = place_in_copy(start + filled, copy_length);
                    let end = out.len().min(filled + (copy_length - place));
                    self.expand_repeat(number, 1, place, &mut out[filled..end]);
                    filled = end;
                }
            }
        }
    }
}
