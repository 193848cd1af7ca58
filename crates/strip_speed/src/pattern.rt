//! Long strips with much that repeats.

use cells::Glyph;
use std::alloc::{AllocError, Global};
use std::fmt;

// A pattern of glyphs, by which the strips of this program are made.
#[derive(Clone, Copy)]
pub(crate) enum Pattern {
    // One cell, over and over.
    Same,
    // Seven cells, over and over.
    Weeks,
    // The steps of a slope near the golden ratio: repeats at every scale, and none for long.
    Slope,
    // Whether a place has an odd number of binary ones: no stretch stands three times on end.
    Parities,
}

impl Pattern {
    pub(crate) const ALL: [Pattern; 4] = [
        Pattern::Same,
        Pattern::Weeks,
        Pattern::Slope,
        Pattern::Parities,
    ];
}

impl fmt::Display for Pattern {
    fn fmt<W: fmt::Write>(&self, f: &mut fmt::Formatter<W>) -> fmt::Result {
        f.write_str(match self {
            Pattern::Same => "same",
            Pattern::Weeks => "weeks",
            Pattern::Slope => "slope",
            Pattern::Parities => "parities",
        })
    }
}

// How high the slope is at a place.
fn height(place: u32) -> u64 {
    u64::from(place) * 514_229 / 832_040
}

impl Pattern {
    fn cell(self, place: u16) -> Glyph {
        Glyph(match self {
            Pattern::Same => 0,
            Pattern::Weeks => place % 7,
            Pattern::Slope => {
                let place = u32::from(place);
                u16::from(height(place) < height(place + 1))
            }
            Pattern::Parities => u16::from(place.count_ones() % 2 == 1),
        })
    }

    // The first 65,535 cells, as many as a strip may have.
    pub(crate) fn cells(self, heap: Global) -> Result<Vec<Glyph>, AllocError> {
        (0..u16::MAX).map(|place| self.cell(place)).collect(heap)
    }
}
