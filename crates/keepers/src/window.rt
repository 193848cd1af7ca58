//! A window: a part of what another keeper stands for.

ghost use Rattle.std.specs.Prelude.{◌≡◌};
ghost use Rattle.std.proofs.Common.{arith};
ghost use Rattle.periodicity.specs.Fragments.{part};
ghost use Rattle.periodicity.proofs.Agreements.{length_window};
ghost use Rattle.keepers.specs.Layers.{capped, WindowAnswers};

use crate::{Keeper, Side};
use periodicity::Fragment;

/// A part of the codes of the keeper below. Any part will do: the window starts at the smaller of the part's start and the length below, and has the
/// part's length or, where fewer codes remain, those.
#[derive(Clone, Copy)]
pub struct Window<K> {
    /// The keeper of whose codes a part is seen.
    pub below: K,
    /// The part, in places and codes of the keeper below.
    pub part: Fragment,
}

// An answer, cut where it counts more codes than there is room for.
#[tactic(auto, unfolding(crate::specs::Layers::capped))]
fn at_most(room: usize, answer: Option<usize>) -> Option<usize>
    ensures { result ≡ capped room answer }
{
    answer.map(|count| count.min(room))
}

impl<K: Keeper> Window<K> {
    // The fragment of what is below that the window shows.
    #[tactic(auto, using(crate::proofs::Layers::window_answers))]
    fn shown(&self) -> Fragment
        ensures { WindowAnswers (K.Keeper.codes self.now.below) self.now.part.start self.now.part.length result }
    {
        let below = self.below.len();
        let start = self.part.start.min(below);
        Fragment {
            start,
            length: self.part.length.min(below - start),
        }
    }
}

impl<K: Keeper> Keeper for Window<K> {
    ghost codes = { λ window. part (K.Keeper.codes window.below) window.part.start window.part.length };

    ghost short = { λ window. Prim.omega (arith, length_window, K.Keeper.short window.below) };

    fn len(&self) -> usize {
        self.shown().length
    }

    fn code_at(&self, place: usize) -> Option<u32> {
        let shown = self.shown();
        if place >= shown.length {
            return None;
        }
        self.below.code_at(shown.start + place)
    }

    fn extension(&self, side: Side, i: usize, j: usize) -> Option<usize> {
        let shown = self.shown();
        if i > shown.length || j > shown.length {
            return None;
        }
        let room = side.room(shown.length, i, j);
        at_most(
            room,
            self.below.extension(side, shown.start + i, shown.start + j),
        )
    }
}
