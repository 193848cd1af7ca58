//! How a shape gets its number: the first row of that shape, or a row added after the others.
ghost use Rattle.std.specs.Prelude.{◌≡◌, take, None};
ghost use Rattle.recompression.specs.Contents.{FilesAs, rows_in, number_in, rows_left};
ghost use Rattle.rows.specs.Filing.{find, file, numbered, shape_length, whole_length};

use crate::table::Table;
use rows::{MAX_CELLS, MAX_ROWS, Row, Shape};

impl Table {
    /// The number of the first row of that shape.
    pub fn find(&self, shape: Shape) -> Option<u16>
        ensures { result ≡ find (rows_in self.now) shape }
    {
        self.slots.find(shape)
    }

    /// The length of the strip of a shape, in cells, from the lengths that the rows of its parts keep. It may be more
    /// than a row can keep.
    pub fn whole_length(&self, shape: Shape) -> u32
        ensures { result ≡ whole_length (rows_in self.now) shape }
    {
        match shape {
            Shape::Leaf { .. } => 1,
            Shape::Pair { left, right } => u32::from(self.length_of(left))
                + u32::from(self.length_of(right)),
            Shape::Repeat { part, times } => u32::from(self.length_of(part)) * u32::from(times),
        }
    }

    // The length that a row of that shape keeps: the field has a ceiling.
    fn shape_length(&self, shape: Shape) -> u16
        ensures { result ≡ shape_length (rows_in self.now) shape }
    {
        self.whole_length(shape).min(MAX_CELLS as u32) as u16
    }

    // A row of a shape that no row has, put after the others, made in that round, and its number; none where all
    // slots are in use.
    fn add(&mut self, round: u32, shape: Shape) -> Option<u16>
        requires { find (rows_in self.old) shape ≡ None }
        ensures { FilesAs (rows_in self.old) (numbered round (rows_in self.old) shape None) result (rows_in self.new) }
    {
        let count = self.slots.count;
        if count >= MAX_ROWS {
            return None;
        }
        let length = self.shape_length(shape);
        self.slots.append(Row {
            shape,
            length,
            round,
        });
        Some(count as u16 + 1)
    }

    /// The number of a shape: that of the row on the table, or else of a row added for it, made in that round. None
    /// where no row has the shape and all slots are in use: that is the only way to no number, so that an `Option`
    /// says all.
    pub fn file(&mut self, round: u32, shape: Shape) -> Option<u16>
        ensures number { result ≡ number_in (file round (rows_in self.old) shape) }
        ensures rows { rows_in self.new ≡ rows_left (rows_in self.old) (file round (rows_in self.old) shape) }
    {
        // A `match`, since the contract of `or_else` says nothing of the table where its closure is not called.
        match self.find(shape) {
            Some(number) => Some(number),
            None => self.add(round, shape),
        }
    }

    /// Takes the rows after the first `count` off again; their slots are blank then. Where there are no more than
    /// that, nothing changes.
    pub fn truncate(&mut self, count: usize)
        ensures { rows_in self.new ≡ take count (rows_in self.old) }
    {
        self.slots.truncate(count);
    }
}
