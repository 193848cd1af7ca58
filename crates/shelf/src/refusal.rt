//! Why a call on a shelf is refused.

ghost use Rattle.std.specs.Prelude.{◌≡◌, Some};
ghost use Rattle.shelf.specs.Refusals.{refusal_number, refusal_sentence};

use std::fmt;

/// Why a call on a shelf is refused. A refused call leaves the rows and the caller's lists as they were, and the work area
/// all zeros. It prints as a sentence.
#[derive(Clone, Copy, PartialEq, Eq, Debug)]
pub enum Refusal {
    /// The shelf has another kind number: taking and writing out.
    OtherKind,
    /// The strip would have over 65,535 cells: taking and joining.
    TooLong,
    /// A cell is not printable; the place, counted from 0, is that of the first: taking.
    Unprintable { place: usize },
    /// The work area has fewer places than the strip that the call would write has cells: taking, joining and cutting.
    WorkAreaTooShort,
    /// A row 1,025 would be needed: taking, joining and cutting. A full shelf still answers where it has all rows.
    ShelfFull,
    /// A number is above the count of rows in use: joining, cutting and writing out. Number 0 is always known.
    UnknownNumber,
    /// The part leaves the strip: cutting and writing out.
    FragmentLeavesStrip,
}

impl Refusal {
    /// The number by which users know the refusal.
    pub fn number(self) -> u8
        ensures { result ≡ refusal_number self }
    {
        match self {
            Refusal::OtherKind => 1,
            Refusal::TooLong => 2,
            Refusal::Unprintable { .. } => 3,
            Refusal::WorkAreaTooShort => 4,
            Refusal::ShelfFull => 5,
            Refusal::UnknownNumber => 6,
            Refusal::FragmentLeavesStrip => 7,
        }
    }
}

impl fmt::Display for Refusal {
    ghost output = { λ refusal. Some (refusal_sentence refusal) };

    fn fmt<W: fmt::Write>(&self, f: &mut fmt::Formatter<W>) -> fmt::Result {
        match *self {
            Refusal::OtherKind => f.write_str("the shelf has another kind of cell"),
            Refusal::TooLong => f.write_str("the strip would have over 65535 cells"),
            Refusal::Unprintable { place } => {
                write!(f, "the cell at place {place} is not printable")
            }
            Refusal::WorkAreaTooShort => f.write_str("the work area is shorter than the strip"),
            Refusal::ShelfFull => f.write_str("the shelf has no row left"),
            Refusal::UnknownNumber => f.write_str("the number is unknown"),
            Refusal::FragmentLeavesStrip => f.write_str("a fragment leaves the strip"),
        }
    }
}
