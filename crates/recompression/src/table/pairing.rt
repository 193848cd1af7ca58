//! Even rounds: every left number followed by a right number becomes a pair.
ghost use Rattle.std.specs.Prelude.{◌≡◌, ◌<◌, ◌∷◌};
ghost use Rattle.recompression.specs.InPlace.{IsFirst, Partner};
ghost use Rattle.rows.specs.Rounds.{is_left, left_at, pairs};

use crate::table::rounds::Block;
use rows::Shape;

// Whether a number is left in one of the 22 phases of even rounds: in the first eleven those whose bit of that
// place is 1, and in the others those whose bit is 0.
fn left_in_phase(phase: u32, number: u16) -> bool
    requires { phase < 22 }
    ensures { result ≡ left_at phase number }
{
    if phase < 11 {
        (number >> phase) % 2 == 1
    } else {
        (number >> (phase - 11)) % 2 == 0
    }
}

// The class of a number in an even round: left, or else right.
#[tactic(auto, unfolding(rows::specs::Rounds::is_left))]
fn is_left(round: u32, number: u16) -> bool
    ensures { result ≡ is_left round number }
{
    left_in_phase((round / 2).saturating_sub(1) % 22, number)
}

// The number with which the first of the numbers makes a pair in that round, if it does.
#[tactic(auto, using(crate::proofs::RoundFacts::not_left_alone))]
fn partner(round: u32, first: u16, rest: &[u16]) -> Option<u16>
    ensures { Partner round (first ∷ rest.now) result }
{
    match rest {
        [second, ..] if is_left(round, first) && !is_left(round, *second) => Some(*second),
        _ => None,
    }
}

// The first block of a string in an even round, and how many numbers it takes.
pub(super) fn first_pair(round: u32, first: u16, rest: &[u16]) -> (Block, usize)
    ensures { IsFirst (pairs round) (first ∷ rest.now) result.0 result.1 }
{
    match partner(round, first, rest) {
        Some(right) => (Block::New(Shape::Pair { left: first, right }), 2),
        None => (Block::One(first), 1),
    }
}
