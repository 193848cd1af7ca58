//! Where the row of a shape is found in a few steps: the rows in use are parted into buckets by their shapes, and
//! those of a bucket are chained, from the last to the first. Plain data, as the slots are.
ghost use Rattle.std.specs.Prelude.{◌≡◌, ◌-◌, ◌<◌, ◌≤◌, [], ◌∷◌, ◌++◌, length, take, slice_index, slice_index_or};
ghost use Rattle.rows.specs.Filing.{alike, blank_row, find};
ghost use Rattle.recompression.specs.Buckets.{Distinct, IndexOf, bucket_of, key_of, linked, unlinked};

use rows::{MAX_ROWS, Row, Shape};

// A bucket is told by so many bits: there are twice as many buckets as there can be rows, so that most have one row or
// none.
const BUCKET_BITS: u32 = 11;

const BUCKETS: usize = 1 << BUCKET_BITS;

// An odd number near 2 to the 64th over the golden ratio: multiplied by it, near keys fall far apart.
const SPREAD: u64 = 0x9E37_79B9_7F4A_7C15;

// Each number is that of a row, or 0 for none: the last row of each bucket, and for each row the one before it in
// its bucket.
#[derive(Drop)]
pub struct Index {
    heads: [u16; BUCKETS],
    next: [u16; MAX_ROWS],
}

// A number of its own for each shape.
fn key(shape: Shape) -> u64
    ensures { result ≡ key_of shape }
{
    match shape {
        Shape::Leaf { code } => u64::from(code),
        Shape::Pair { left, right } => 0x1_0000_0000
            + u64::from(left) * 0x1_0000
            + u64::from(right),
        Shape::Repeat { part, times } => 0x2_0000_0000
            + u64::from(part) * 0x1_0000
            + u64::from(times),
    }
}

// The bucket of a shape: the highest eleven bits of its key, spread.
#[tactic(auto, unfolding(crate::specs::Buckets::bucket_of))]
fn bucket(shape: Shape) -> usize
    ensures value { result ≡ bucket_of shape }
    ensures below { result < 2048 }
{
    // The checker proves that the cast fits; `try_from` would have an error that never comes.
    (key(shape).wrapping_mul(SPREAD) >> (u64::BITS - BUCKET_BITS)) as usize
}

// Whether the row of a number has that shape.
fn has_shape(rows: &[Row], number: u16, shape: Shape) -> bool
    requires some { 0 < number }
    requires known { number ≤ length rows.now }
    ensures { result ≡ alike (slice_index_or rows.now (number - 1) blank_row).shape shape }
{
    rows[usize::from(number) - 1].shape == shape
}

impl Index {
    // The index of no rows.
    pub(crate) fn new() -> Index
        ensures { IndexOf [] result }
    {
        Index {
            heads: [0; BUCKETS],
            next: [0; MAX_ROWS],
        }
    }

    // The number of the row before one in its bucket; 0 where it is the first there.
    fn before(&self, number: u16) -> u16
        requires some { 0 < number }
        requires few { number ≤ 1024 }
        ensures { result ≡ slice_index self.now.next (number - 1) }
    {
        self.next[usize::from(number) - 1]
    }

    // Makes the row at a place the last of a bucket.
    fn link(&mut self, bucket: usize, place: usize)
        requires below { bucket < 2048 }
        requires room { place < 1024 }
        ensures { self.new ≡ linked bucket place self.old }
    {
        self.next[place] = self.heads[bucket];
        // The checker proves that the cast fits; `try_from` would have an error that never comes.
        self.heads[bucket] = place as u16 + 1;
    }

    // Makes the row before the one at a place the last of a bucket.
    fn unlink(&mut self, bucket: usize, place: usize)
        requires below { bucket < 2048 }
        requires few { place < 1024 }
        ensures { self.new ≡ unlinked bucket place self.old }
    {
        self.heads[bucket] = self.next[place];
    }

    // The number of the row of that shape: the rows of its bucket are tried, from the last to the first. Since no two
    // rows are alike, it is the first of that shape.
    pub(crate) fn find(&self, rows: &[Row], shape: Shape) -> Option<u16>
        requires indexed { IndexOf rows.now self.now }
        requires distinct { Distinct rows.now }
        requires few { length rows.now ≤ 1024 }
        ensures { result ≡ find rows.now shape }
    {
        let mut number = self.heads[bucket(shape)];
        while number > 0 {
            if has_shape(rows, number, shape) {
                return Some(number);
            }
            number = self.before(number);
        }
        None
    }

    // Puts a row after the others into its bucket.
    pub(crate) fn add(&mut self, rows: &[Row], row: Row)
        requires indexed { IndexOf rows.now self.old }
        requires room { length rows.now < 1024 }
        ensures { IndexOf (rows.now ++ (row ∷ [])) self.new }
    {
        self.link(bucket(row.shape), rows.len());
    }

    // Takes the rows after the first `count` out of their buckets, from the last on.
    pub(crate) fn truncate(&mut self, rows: &[Row], count: usize)
        requires indexed { IndexOf rows.now self.old }
        requires few { length rows.now ≤ 1024 }
        ensures { IndexOf (take count rows.now) self.new }
    {
        let mut left = rows.len();
        while left > count {
            left -= 1;
            self.unlink(bucket(rows[left].shape), left);
        }
    }
}
