//! One round, run in place: the string is cut into blocks from left to right, and each block that is a shape gets
//! its number.
ghost use Rattle.std.specs.Prelude.{◌<◌, ◌≤◌, ◌∷◌, length};
ghost use Rattle.recompression.specs.Contents.{FilesAs, rows_in};
ghost use Rattle.recompression.specs.InPlace.{IsFirst, Ran, block_of, file_block};
ghost use Rattle.rows.specs.Rounds.{blocks};

use crate::table::Table;
use crate::table::pairing::first_pair;
use crate::table::stretch::first_stretch;
use rows::Shape;

// A block of a string: a number that stays as it is, or a shape that becomes a row.
#[derive(Clone, Copy)]
pub(super) enum Block {
    One(u16),
    New(Shape),
}

// The first block of a string, given as its first number and the rest, and how many numbers it takes: odd rounds
// merge stretches, and even rounds make pairs. The two answers are a tuple, since only the loop takes them apart.
#[tactic(auto, unfolding(rows::specs::Rounds::blocks))]
fn first_block(round: u32, first: u16, rest: &[u16]) -> (Block, usize)
    requires { length rest.now < 65535 }
    ensures { IsFirst (blocks round) (first ∷ rest.now) result.0 result.1 }
{
    if round % 2 == 1 {
        first_stretch(first, rest)
    } else {
        first_pair(round, first, rest)
    }
}

impl Table {
    // The number of a block: a number is its own, and a shape has that of its row.
    fn file_block(&mut self, round: u32, block: Block) -> Option<u16>
        ensures { FilesAs (rows_in self.old) (file_block round (rows_in self.old) (block_of block)) result (rows_in self.new) }
    {
        match block {
            Block::One(number) => Some(number),
            Block::New(shape) => self.file(round, shape),
        }
    }

    // Runs one round, and answers how many numbers are left; none where the table is full.
    pub(super) fn run_round(&mut self, round: u32, numbers: &mut [u16]) -> Option<usize>
        requires { length numbers.old ≤ 65535 }
        ensures { Ran round (blocks round numbers.old) (rows_in self.old) result (rows_in self.new) numbers.new }
    {
        // Two places in one slice, since rounds run in place on the work area: what is read is ahead of what is
        // written.
        let mut read = 0;
        let mut write = 0;
        while let Some((first, rest)) = numbers[read..].split_first() {
            let (block, taken) = first_block(round, *first, rest);
            numbers[write] = self.file_block(round, block)?;
            read += taken;
            write += 1;
        }
        Some(write)
    }
}
