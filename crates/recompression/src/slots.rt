//! The slots of a table: plain data, with no invariant, since the table around them has one that says more.
ghost use Rattle.std.specs.Prelude.{◌≡◌, ◌<◌, ◌≤◌, [], ◌∷◌, ◌++◌, take, replicate};
ghost use Rattle.rows.specs.Filing.{blank_row, find};
ghost use Rattle.recompression.specs.Buckets.{Distinct, IndexOf};
ghost use Rattle.recompression.specs.Tables.{Sound, in_use, appended, truncated};

use crate::index::Index;
use rows::{BLANK, MAX_ROWS, Row, Shape};

// Rows, of which the first `count` are in use, and their index. The memory is fixed, so that it is an array with a
// count and no list that grows.
#[derive(Drop)]
pub struct Slots {
    rows: [Row; MAX_ROWS],
    index: Index,
    pub(crate) count: usize,
}

impl Slots {
    // Blank slots, none in use.
    pub(crate) fn new() -> Slots
        ensures rows { result.rows ≡ replicate 1024 blank_row }
        ensures count { result.count ≡ 0 }
        ensures index { IndexOf [] result.index }
    {
        Slots {
            rows: [BLANK; MAX_ROWS],
            index: Index::new(),
            count: 0,
        }
    }

    // Puts a row after those in use.
    pub(crate) fn append(&mut self, row: Row)
        requires room { self.old.count < 1024 }
        requires indexed { IndexOf (in_use self.old) self.old.index }
        ensures slots { self.new ≡ appended self.old row self.new.index }
        ensures indexed { IndexOf (in_use self.old ++ (row ∷ [])) self.new.index }
    {
        self.index.add(&self.rows[..self.count], row);
        self.rows[self.count] = row;
        self.count += 1;
    }

    // All slots, in use or not.
    pub(crate) fn all(&self) -> &[Row]
        ensures { result.now ≡ self.now.rows }
    {
        &self.rows
    }

    // The rows in use.
    pub(crate) fn in_use(&self) -> &[Row]
        requires { self.now.count ≤ 1024 }
        ensures { result.now ≡ in_use self.now }
    {
        &self.rows[..self.count]
    }

    // The number of the first row of that shape.
    pub(crate) fn find(&self, shape: Shape) -> Option<u16>
        requires few { self.now.count ≤ 1024 }
        requires indexed { IndexOf (in_use self.now) self.now.index }
        requires distinct { Distinct (in_use self.now) }
        ensures { result ≡ find (in_use self.now) shape }
    {
        self.index.find(self.in_use(), shape)
    }

    // Takes the rows after the first `count` out of use, and makes their slots blank, as those after them are.
    #[tactic(auto, using(crate::proofs::SlotFacts::blank_on))]
    pub(crate) fn truncate(&mut self, count: usize)
        requires { Sound self.old }
        ensures slots { self.new ≡ truncated count self.old self.new.index }
        ensures indexed { IndexOf (take count (in_use self.old)) self.new.index }
    {
        self.index.truncate(&self.rows[..self.count], count);
        let left = self.count.min(count);
        self.rows[left..self.count].fill(BLANK);
        self.count = left;
    }
}
