//! A shared reference to a keeper is a keeper, so that layers can stand on one that is borrowed.

use crate::{Keeper, Side};

impl<K: Keeper> Keeper for &K {
    ghost codes = { λ r. K.Keeper.codes r.now };

    ghost short = { λ r. K.Keeper.short r.now };

    fn len(&self) -> usize {
        (**self).len()
    }

    fn code_at(&self, place: usize) -> Option<u32> {
        (**self).code_at(place)
    }

    fn extension(&self, side: Side, i: usize, j: usize) -> Option<usize> {
        (**self).extension(side, i, j)
    }
}
