//! Odd rounds: every longest stretch of two or more equal numbers becomes a repeat.
ghost use Rattle.std.specs.Prelude.{◌≡◌, ◌<◌, ◌≤◌, ◌∷◌, length, ◌==◌};
ghost use Rattle.std.specs.List.{prefix_len};
ghost use Rattle.recompression.specs.InPlace.{IsFirst};
ghost use Rattle.rows.specs.Rounds.{stretches};

use crate::table::rounds::Block;
use rows::Shape;

// How many numbers at the front are equal to the one before them.
fn more_alike(part: u16, rest: &[u16]) -> usize
    ensures within { result ≤ length rest.now }
    ensures value { result ≡ prefix_len (λ x. x == part) rest.now }
{
    rest.iter().take_while(|number| **number == part).count()
}

// The first block of a string in an odd round, and how many numbers it takes: the whole of the longest stretch.
#[tactic(auto, using(crate::proofs::RoundFacts::stretch_first))]
pub(super) fn first_stretch(part: u16, rest: &[u16]) -> (Block, usize)
    requires { length rest.now < 65535 }
    ensures { IsFirst stretches (part ∷ rest.now) result.0 result.1 }
{
    let times = 1 + more_alike(part, rest);
    if times < 2 {
        return (Block::One(part), times);
    }
    // The checker proves that the cast fits; `try_from` would have an error that never comes.
    let shape = Shape::Repeat {
        part,
        times: times as u16,
    };
    (Block::New(shape), times)
}
