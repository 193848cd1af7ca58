//! Two fragments of a keeper's strip, checked once to lie in it.

ghost use Rattle.std.specs.Prelude.{◌≡◌, ◌+◌, ◌≤◌, ◌&&◌, false, length, drop, IfOk, IfErr};
ghost use Rattle.periodicity.specs.Agreement.{Greatest};
ghost use Rattle.periodicity.specs.Fragments.{inside};

use crate::refusal::Refusal;
use keepers::Keeper;
use periodicity::Fragment;

// Refuses a fragment that leaves the strip; any numbers will do.
pub(crate) fn check_lies<K: Keeper>(keeper: &K, fragment: Fragment) -> Result<(), Refusal>
    ensures lies { IfOk result (λ _. fragment.start + fragment.length ≤ length (K.codes keeper.now)) }
    ensures leaves { IfErr result (λ refusal. (refusal ≡ Refusal.FragmentLeavesStrip) × (inside (K.codes keeper.now) fragment ≡ false)) }
{
    if !fragment.lies_within(keeper.len()) {
        return Err(Refusal::FragmentLeavesStrip);
    }
    Ok(())
}

// Two fragments that lie in the keeper's strip.
#[derive(Drop)]
pub(crate) struct Parts<'a, K: Keeper> {
    pub(crate) keeper: &'a K,
    pub(crate) first: Fragment,
    pub(crate) second: Fragment,
    ghost first_lies: { first.start + first.length ≤ length (K.codes keeper.now) },
    ghost second_lies: { second.start + second.length ≤ length (K.codes keeper.now) },
}

impl<'a, K: Keeper> Parts<'a, K> {
    // The two fragments, unless one leaves the strip; any numbers will do.
    pub(crate) fn of(keeper: &'a K, first: Fragment, second: Fragment) -> Result<Self, Refusal>
        ensures parts { IfOk result (λ parts. (parts.keeper.now ≡ keeper.now) × (parts.first ≡ first) × (parts.second ≡ second)) }
        ensures refused { IfErr result (λ refusal. (refusal ≡ Refusal.FragmentLeavesStrip) × ((inside (K.codes keeper.now) first && inside (K.codes keeper.now) second) ≡ false)) }
    {
        check_lies(keeper, first)?;
        check_lies(keeper, second)?;
        Ok(Parts {
            keeper,
            first,
            second,
        })
    }

    // How many codes agree from two places of the strip on.
    pub(crate) fn common_ahead(&self, i: usize, j: usize) -> usize
        requires i_in_bounds { i ≤ length (K.codes self.now.keeper.now) }
        requires j_in_bounds { j ≤ length (K.codes self.now.keeper.now) }
        ensures { Greatest (drop i (K.codes self.now.keeper.now)) (drop j (K.codes self.now.keeper.now)) result }
    {
        self.keeper.ahead(i, j).unwrap()
    }
}
