//! The length of a number's strip.

ghost use Rattle.std.specs.Prelude.{◌≡◌, length};
ghost use Rattle.rows.specs.Strips.{strip};
ghost use Rattle.shelf.specs.Contents.{rows_on};

use shelf::Shelf;

// A number that is not known stands for the empty strip.
#[tactic(auto, using(crate::proofs::LengthFacts::length_or_none))]
pub(crate) fn strip_length(shelf: &Shelf, number: u16) -> usize
    ensures { result ≡ length (strip (rows_on shelf.now) number) }
{
    shelf.length_of(number).unwrap_or(0)
}
