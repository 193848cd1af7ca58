//! The overlaps of two fragments.

ghost use Rattle.std.specs.Prelude.{◌≡◌, ◌+◌, ◌-◌, ◌*◌, ◌/◌, ◌<◌, ◌≤◌, min};
ghost use Rattle.periodicity.specs.Progressions.{triple};
ghost use Rattle.periodicity.specs.Ranges.{GreatestFrom, Tells};
ghost use Rattle.questions.specs.Answers.{OverlapsLaw, overlap_in};
ghost use Rattle.questions.specs.Outcomes.{outcome, overlaps_outcome};

use crate::alone::alone;
use crate::parts::Parts;
use crate::refusal::Refusal;
use keepers::Keeper;
use periodicity::{Fragment, Progression};
use std::ops::Range;

// The greatest two overlaps from `least` on.
#[derive(Clone, Copy)]
struct LongestTwo {
    longest: usize,
    next: usize,
    least: usize,
}

impl LongestTwo {
    // One overlap at each step from the longest down, as far as the least; told from the shortest up.
    fn progression(self) -> Progression
        requires some { 0 < self.least }
        requires low { self.least ≤ self.next }
        requires apart { self.next < self.longest }
        ensures { result ≡ triple (self.longest - ((self.longest - self.least) / (self.longest - self.next)) * (self.longest - self.next)) (self.longest - self.next) (1 + (self.longest - self.least) / (self.longest - self.next)) }
    {
        let step = self.longest - self.next;
        let shorter = (self.longest - self.least) / step;
        Progression {
            first: self.longest - shorter * step,
            step,
            count: 1 + shorter,
        }
    }
}

// An overlap is a suffix of the second fragment that is a prefix of the first.
impl<K: Keeper> Parts<'_, K> {
    // Whether the fragments overlap in so many codes.
    fn is_overlap(&self, size: usize) -> bool
        requires in_first { size ≤ self.now.first.length }
        requires in_second { size ≤ self.now.second.length }
        ensures { result ≡ overlap_in (K.codes self.now.keeper.now) self.now.first self.now.second size }
    {
        let suffix = self.second.start + (self.second.length - size);
        self.common_ahead(self.first.start, suffix) >= size
    }

    // The lengths to look at: from `least` on and below twice `least`, as far as both fragments have room.
    fn lengths(&self, least: usize) -> Range<usize>
        ensures { result ≡ record { start = least; end = min (least + least) (min self.now.first.length self.now.second.length + 1) } }
    {
        let room = self.first.length.min(self.second.length);
        least..least.saturating_add(least).min(room + 1)
    }

    // The greatest of the lengths that is one of an overlap.
    fn longest_overlap(&self, mut lengths: Range<usize>) -> Option<usize>
        requires in_first { lengths.end ≤ self.now.first.length + 1 }
        requires in_second { lengths.end ≤ self.now.second.length + 1 }
        ensures { GreatestFrom (overlap_in (K.codes self.now.keeper.now) self.now.first self.now.second) lengths.start lengths.end result }
    {
        lengths.rfind(|&size| self.is_overlap(size))
    }

    // All overlaps of lengths from `least` on and below twice `least`. The greatest two fix the step, and
    // with it all shorter ones, since each is shorter by a period of the greatest.
    pub(crate) fn overlaps_from(&self, least: usize) -> Option<Progression>
        requires some { 0 < least }
        ensures { Tells (overlap_in (K.codes self.now.keeper.now) self.now.first self.now.second) least (least + least) result }
    {
        let longest = self.longest_overlap(self.lengths(least))?;
        let Some(next) = self.longest_overlap(least..longest) else {
            return Some(alone(longest));
        };
        let two = LongestTwo {
            longest,
            next,
            least,
        };
        Some(two.progression())
    }
}

/// All lengths from `least` to `2 * least - 1` of suffixes of the second fragment that are prefixes of the
/// first.
///
/// Refused where a fragment leaves the strip, then where `least` is 0.
pub fn overlaps<K: Keeper>(
    keeper: &K,
    first: Fragment,
    second: Fragment,
    least: usize,
) -> Result<Option<Progression>, Refusal>
    ensures value { outcome result ≡ overlaps_outcome (K.codes keeper.now) first second least }
    ensures law { OverlapsLaw (K.codes keeper.now) first second least result }
{
    let parts = Parts::of(keeper, first, second)?;
    if least == 0 {
        return Err(Refusal::ZeroOverlap);
    }
    Ok(parts.overlaps_from(least))
}
