//! Cursors: places in the strips of rows, which go down from a row to the part under them.

ghost use Rattle.std.specs.Prelude.{◌≡◌, ◌+◌, ◌<◌, ◌≤◌};
ghost use Rattle.shelf.specs.Contents.{rows_on};
ghost use Rattle.shelf_strip.specs.Cursors.{Descends, Stands, Steps, at_place, in_copies, in_pair, same_stand};
ghost use Rattle.shelf_strip.specs.Sides.{first_of, second_of};

use crate::length::strip_length;
use keepers::Side;
use rows::Shape;
use shelf::Shelf;

// A place in copies of a number's strip that stand side by side, seen from one side: `place` codes of the
// first copy are passed, and the next `reach` codes, at least the rest of that copy, belong to the copies.
#[derive(Clone, Copy)]
pub(crate) struct Cursor {
    pub(crate) number: u16,
    pub(crate) place: usize,
    pub(crate) reach: usize,
}

// The parts of a pair, the one that comes first from that side and then the other.
fn in_order(side: Side, left: u16, right: u16) -> (u16, u16)
    ensures { result ≡ (first_of side left right, second_of side left right) }
{
    match side {
        Side::Ahead => (left, right),
        Side::Behind => (right, left),
    }
}

impl Cursor {
    // At a place of one number's strip, which has so many codes.
    pub(crate) fn at(number: u16, len: usize, place: usize) -> Cursor
        requires { place ≤ len }
        ensures { result ≡ at_place number len place }
    {
        Cursor {
            number,
            place,
            reach: len - place,
        }
    }

    // Whether both stand at the same place of one number's strip. No `==`, since the reach does not count.
    fn stands_with(self, other: Cursor) -> bool
        ensures { result ≡ same_stand self other }
    {
        self.number == other.number && self.place == other.place
    }
}

// A place in a pair falls in the first of its parts or in the second. A length stands beside its number, since it
// is looked up once.
fn in_pair(
    first: u16,
    first_length: usize,
    second: u16,
    second_length: usize,
    place: usize,
) -> Cursor
    requires { place < first_length + second_length }
    ensures { result ≡ in_pair first first_length second second_length place }
{
    if place < first_length {
        Cursor::at(first, first_length, place)
    } else {
        Cursor::at(second, second_length, place - first_length)
    }
}

// A place in a repeat falls in one of the copies, and all that is left of the repeat is copies.
fn in_copies(part: u16, part_length: usize, whole_length: usize, place: usize) -> Cursor
    requires some { 0 < part_length }
    requires within { place ≤ whole_length }
    ensures { result ≡ in_copies part part_length whole_length place }
{
    Cursor {
        number: part,
        place: place % part_length,
        reach: whole_length - place,
    }
}

// A shelf, and the side from which places are counted in its strips.
#[derive(Clone, Copy)]
pub(crate) struct View<'a> {
    pub(crate) shelf: &'a Shelf,
    pub(crate) side: Side,
}

impl View<'_> {
    // The cursor, moved down into the part under its place; none for a leaf. The hint is for the step, which does little
    // else: with a call left there, each answer goes through memory.
    #[inline]
    #[tactic(auto, using(crate::proofs::CursorFacts::shape_read, crate::proofs::CursorFacts::row_there))]
    fn descend(self, cursor: Cursor) -> Option<Cursor>
        requires { Stands self.side (rows_on self.shelf.now) cursor }
        ensures { Descends self.entry.side (rows_on self.entry.shelf.now) cursor result }
    {
        let row = self.shelf.row(cursor.number)?;
        match row.shape {
            Shape::Leaf { .. } => None,
            Shape::Pair { left, right } => {
                let (first, second) = in_order(self.side, left, right);
                Some(in_pair(
                    first,
                    strip_length(self.shelf, first),
                    second,
                    strip_length(self.shelf, second),
                    cursor.place,
                ))
            }
            Shape::Repeat { part, .. } => Some(in_copies(
                part,
                strip_length(self.shelf, part),
                strip_length(self.shelf, cursor.number),
                cursor.place,
            )),
        }
    }

    // How many codes from two cursors on are known to agree at once: none only where the first ones differ. The
    // cursor with the greater number goes down, until both stand at the same place of one number's strip.
    #[tactic(auto, using(crate::proofs::StepFacts::steps_same, crate::proofs::StepFacts::apart_right, crate::proofs::StepFacts::apart_left))]
    pub(crate) fn step(self, left: Cursor, right: Cursor) -> usize
        requires left { Stands self.side (rows_on self.shelf.now) left }
        requires right { Stands self.side (rows_on self.shelf.now) right }
        ensures { Steps self.entry.side (rows_on self.entry.shelf.now) left right result }
    {
        if left.stands_with(right) {
            return left.reach.min(right.reach);
        }
        // Two arms, since what is told of a step speaks of the cursors in their order; and no `map_or`, since a closure
        // in a cycle of calls would need clauses of its own.
        if left.number < right.number {
            match self.descend(right) {
                Some(part) => self.step(left, part),
                None => 0,
            }
        } else {
            match self.descend(left) {
                Some(part) => self.step(part, right),
                None => 0,
            }
        }
    }
}
