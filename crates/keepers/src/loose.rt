//! A loose strip: a keeper of the caller's own codes, compared code by code.

ghost use Rattle.std.specs.Prelude.{◌≡◌, ◌≤◌, reverse, length, take};
ghost use Rattle.periodicity.specs.Agreement.{common};
ghost use Rattle.keepers.specs.Shortness.{most_codes, ShortList};

use crate::{Keeper, MAX_CODES, Side};

/// The caller's codes, the first `MAX_CODES` of them.
#[derive(Clone, Copy)]
pub struct LooseStrip<'a> {
    kept: &'a [u32],
    ghost few: { ShortList kept.now },
}

impl<'a> LooseStrip<'a> {
    ghost use Rattle.keepers.specs.LooseStrip.{kept_codes};

    /// Of more codes than `MAX_CODES` the first are kept. Nothing in the answer tells so: a caller who has to know compares
    /// `codes.len()` with `MAX_CODES`.
    pub fn new(codes: &'a [u32]) -> Self
        ensures { kept_codes result ≡ take most_codes codes.now }
    {
        LooseStrip {
            kept: first_codes(codes, MAX_CODES),
        }
    }
}

// The first codes, so many of them or, where there are fewer, all.
#[tactic(auto, using(periodicity::proofs::Agreements::take_min))]
fn first_codes(codes: &[u32], most: usize) -> &[u32]
    ensures front { result.now ≡ take most codes.now }
    ensures few { length result.now ≤ most }
{
    let count = codes.len().min(most);
    &codes[..count]
}

// How many codes agree from the start of both lists on.
fn agreeing_ahead(left: &[u32], right: &[u32]) -> usize
    ensures { result ≡ common left.now right.now }
{
    // Cut to one length, so that each turn looks for one end.
    let room = left.len().min(right.len());
    left[..room]
        .iter()
        .zip(&right[..room])
        .take_while(|(one, other)| one == other)
        .count()
}

// How many codes agree from the end of both lists back.
fn agreeing_behind(left: &[u32], right: &[u32]) -> usize
    ensures { result ≡ common (reverse left.now) (reverse right.now) }
{
    let room = left.len().min(right.len());
    left[left.len() - room..]
        .iter()
        .rev()
        .zip(right[right.len() - room..].iter().rev())
        .take_while(|(one, other)| one == other)
        .count()
}

impl Keeper for LooseStrip<'_> {
    ghost use Rattle.keepers.specs.LooseStrip.{kept_codes, kept_short};

    ghost codes = { kept_codes };

    ghost short = { kept_short };

    fn len(&self) -> usize {
        self.kept.len()
    }

    fn code_at(&self, place: usize) -> Option<u32> {
        self.kept.get(place).copied()
    }

    #[tactic(auto, using(crate::proofs::Greatests::ahead_counted))]
    fn extension(&self, side: Side, i: usize, j: usize) -> Option<usize> {
        let len = self.len();
        if i > len || j > len {
            return None;
        }
        Some(match side {
            Side::Ahead => agreeing_ahead(&self.kept[i..], &self.kept[j..]),
            Side::Behind => agreeing_behind(&self.kept[..i], &self.kept[..j]),
        })
    }
}
