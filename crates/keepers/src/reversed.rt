//! A reversed layer: what another keeper stands for, from its end to its start.

ghost use Rattle.std.specs.Prelude.{reverse};
ghost use Rattle.std.proofs.lemmas.List.{length-reverse};
ghost use Rattle.keepers.specs.Layers.{ReversedAnswers};

use crate::{Keeper, Side};

/// The codes of the keeper below, the last one first. A place counts from their end: 0 is the place of the last code.
#[derive(Clone, Copy)]
pub struct Reversed<K> {
    /// The keeper whose codes are seen backwards.
    pub below: K,
}

impl<K: Keeper> Reversed<K> {
    // How many codes there are, below as in the layer.
    #[tactic(auto, using(crate::proofs::Layers::reversed_answers))]
    fn count(&self) -> usize
        ensures { ReversedAnswers (K.Keeper.codes self.now.below) result }
    {
        self.below.len()
    }
}

impl<K: Keeper> Keeper for Reversed<K> {
    ghost codes = { λ layer. reverse (K.Keeper.codes layer.below) };

    ghost short = { λ layer. Prim.simp length-reverse (K.Keeper.short layer.below) };

    fn len(&self) -> usize {
        self.count()
    }

    fn code_at(&self, place: usize) -> Option<u32> {
        let count = self.count();
        if place >= count {
            return None;
        }
        self.below.code_at(count - 1 - place)
    }

    fn extension(&self, side: Side, i: usize, j: usize) -> Option<usize> {
        let count = self.count();
        if i > count || j > count {
            return None;
        }
        self.below.extension(side.turned(), count - i, count - j)
    }
}
