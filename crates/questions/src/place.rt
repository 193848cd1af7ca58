//! The places of a pattern in a field.

ghost use Rattle.std.specs.Prelude.{◌≡◌, ◌+◌, ◌-◌, ◌*◌, ◌/◌, ◌<◌, ◌≤◌, min, length, None};
ghost use Rattle.periodicity.specs.Places.{is_place};
ghost use Rattle.periodicity.specs.Progressions.{triple};
ghost use Rattle.periodicity.specs.Ranges.{LeastFrom, Tells};
ghost use Rattle.questions.specs.Answers.{PlacesLaw};
ghost use Rattle.questions.specs.Outcomes.{outcome, places_check, places_outcome};

use crate::alone::alone;
use crate::parts::Parts;
use crate::refusal::Refusal;
use keepers::Keeper;
use periodicity::{Fragment, Progression};
use std::ops::Range;

// The first two places in a field, and the end of the starts that it has room for.
#[derive(Clone, Copy)]
struct FirstTwo {
    first: usize,
    second: usize,
    end: usize,
}

impl FirstTwo {
    // One place at each step from the first on, as far as whole patterns repeat by the step and the field
    // has room. The strip agrees with itself for `agreeing` codes from the two places on, so that it
    // repeats for a step more.
    fn progression(self, pattern: Fragment, agreeing: usize) -> Progression
        requires apart { self.first < self.second }
        requires ends { self.second < self.end }
        requires whole { pattern.length ≤ agreeing }
        requires short { self.second + agreeing ≤ 65535 }
        ensures { result ≡ triple self.first (self.second - self.first) (1 + min (self.second - self.first + agreeing - pattern.length) (self.end - 1 - self.first) / (self.second - self.first)) }
    {
        let step = self.second - self.first;
        let repeating = step + agreeing;
        let reach = (repeating - pattern.length).min(self.end - 1 - self.first);
        Progression {
            first: self.first,
            step,
            count: 1 + reach / step,
        }
    }
}

// The first fragment is the pattern, and the second the field.
impl<K: Keeper> Parts<'_, K> {
    // Whether the pattern's codes stand at a place.
    fn is_place(&self, i: usize) -> bool
        requires { i + self.now.first.length ≤ length (K.codes self.now.keeper.now) }
        ensures { result ≡ is_place (K.codes self.now.keeper.now) self.now.first i }
    {
        self.common_ahead(self.first.start, i) >= self.first.length
    }

    // The first of the starts where the pattern stands.
    fn first_place(&self, mut starts: Range<usize>) -> Option<usize>
        requires room { starts.end + self.now.first.length ≤ length (K.codes self.now.keeper.now) + 1 }
        ensures { LeastFrom (is_place (K.codes self.now.keeper.now) self.now.first) starts.start starts.end result }
    {
        starts.find(|&i| self.is_place(i))
    }

    // All places in a field shorter than twice the pattern. The first two fix the step, since places so
    // near to each other stand in a progression; how far the strip repeats by that step fixes the count.
    fn places(&self) -> Option<Progression>
        requires near { self.now.second.length < 2 * self.now.first.length }
        ensures unchecked { places_check (K.codes self.now.keeper.now) self.now.first self.now.second ≡ None }
        ensures places { Tells (is_place (K.codes self.now.keeper.now) self.now.first) self.now.second.start (self.now.second.start + (self.now.second.length + 1 - self.now.first.length)) result }
    {
        let pattern = self.first;
        let field = self.second;
        let spare = field.length.checked_sub(pattern.length)?;
        let end = field.start + spare + 1;
        let first = self.first_place(field.start..end)?;
        let Some(second) = self.first_place(first + 1..end) else {
            return Some(alone(first));
        };
        let agreeing = self.common_ahead(first, second);
        let two = FirstTwo { first, second, end };
        Some(two.progression(pattern, agreeing))
    }
}

/// All starts, counted in the strip, of parts of the field that have the pattern's length and codes. In a b a b a b a
/// the pattern a b a stands in the first five codes at 0 and 2: first 0, step 2, count 2.
///
/// Refused where a fragment leaves the strip, then where the field is at least twice as long as the pattern, since
/// places further apart need not stand in a progression. An empty pattern is refused so.
pub fn places<K: Keeper>(
    keeper: &K,
    pattern: Fragment,
    field: Fragment,
) -> Result<Option<Progression>, Refusal>
    ensures value { outcome result ≡ places_outcome (K.codes keeper.now) pattern field }
    ensures law { PlacesLaw (K.codes keeper.now) pattern field result }
{
    let parts = Parts::of(keeper, pattern, field)?;
    if field.length / 2 >= pattern.length {
        return Err(Refusal::FieldTooLong);
    }
    Ok(parts.places())
}
