//! Keepers. A keeper is a text with longest common extensions in both directions: it stands for one list
//! of at most 65,535 codes, and says how many there are, which one stands at a place, and how far the
//! codes agree from two places on or just before them. A loose strip keeps the caller's own codes; a
//! window and a reversed layer stand on any keeper, and a shared reference to a keeper is one.
#![tactic(auto)]

mod loose;
mod reversed;
mod shared;
mod side;
mod window;

ghost use Rattle.std.specs.Prelude.{◌≡◌, ℕ, List, length};
ghost use Rattle.periodicity.specs.Agreement.{code_of, ahead_of, behind_of};
ghost use Rattle.keepers.specs.Shortness.{AllShort};
ghost use Rattle.keepers.specs.Extensions.{GreatestAhead, GreatestBehind};
ghost use Rattle.keepers.specs.Sides.{extension_of, ExtensionsGreatest};

pub use loose::LooseStrip;
pub use reversed::Reversed;
pub use side::Side;
pub use window::Window;

/// The most codes that a keeper stands for. It equals `rows::MAX_CELLS`, the most cells of a strip on a shelf, and stands
/// here too, since keepers do not build on rows.
pub const MAX_CODES: usize = 65_535;

/// What stands for a list of codes and tells its longest common extensions.
pub trait Keeper {
    // The one list of codes that the keeper stands for.
    ghost codes: { Self → List ℕ };

    /// How many codes there are.
    fn len(&self) -> usize
        ensures { result ≡ length (codes self.now) };

    /// The code at a place; absent from the length on.
    fn code_at(&self, place: usize) -> Option<u32>
        ensures { result ≡ code_of (codes self.now) place };

    /// The greatest number of codes that agree on a side of `i` and `j`; absent when `i` or `j` is above
    /// the length. What a keeper owes; callers have `ahead` and `behind`.
    fn extension(&self, side: Side, i: usize, j: usize) -> Option<usize>
        ensures { result ≡ extension_of side (codes self.now) i j };

    // The law of a keeper: the list that it stands for has at most `MAX_CODES` codes.
    ghost short: { AllShort codes };

    /// How many codes agree from `i` and from `j` on; absent when `i` or `j` is above the length. Of the codes
    /// 7 8 7 8 9 the first two agree with the next two, so that 2 agree from places 0 and 2 on.
    #[tactic(auto, using(crate::proofs::Greatests::ahead_greatest))]
    final fn ahead(&self, i: usize, j: usize) -> Option<usize>
        ensures value { result ≡ ahead_of (codes self.now) i j }
        ensures greatest { GreatestAhead (codes self.now) i j result }
    {
        self.extension(Side::Ahead, i, j)
    }

    /// How many codes agree just before `i` and just before `j`, going back; absent likewise. Of the codes
    /// 7 8 7 8 9, 2 agree behind places 2 and 4.
    #[tactic(auto, using(crate::proofs::Greatests::behind_greatest))]
    final fn behind(&self, i: usize, j: usize) -> Option<usize>
        ensures value { result ≡ behind_of (codes self.now) i j }
        ensures greatest { GreatestBehind (codes self.now) i j result }
    {
        self.extension(Side::Behind, i, j)
    }
}

/// The law of the extensions, for whoever calls `extension` itself: an answer is the one that it promises exactly
/// when it is the greatest number of codes that agree on that side, absent exactly when a place is above the
/// length. It does nothing when it is called: who proves something cites it.
#[tactic(auto, using(crate::proofs::Greatests::extensions_greatest))]
pub fn law_of_extensions()
    ensures { ExtensionsGreatest }
{}
