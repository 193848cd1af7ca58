//! The periods of a fragment.

ghost use Rattle.std.specs.Prelude.{◌≡◌, ℕ, List, Some, IfOk, IfErr, ◌+◌, ◌-◌, ◌*◌, ◌<◌, ◌≤◌, ◌++◌, length, drop};
ghost use Rattle.std.specs.Iterator.Adapters.{rev_source, repeat_n_item, repeat_n_count};
ghost use Rattle.std.specs.Iterator.{IsFinite, Drains, size};
ghost use Rattle.periodicity.specs.declared.Progression.{Progression};
ghost use Rattle.periodicity.specs.Fragments.{cut};
ghost use Rattle.periodicity.specs.Periods.{periods_in, written_records};
ghost use Rattle.periodicity.specs.Progressions.{progression_of, triple, mirrored};
ghost use Rattle.questions.specs.Answers.{PeriodsLaw};
ghost use Rattle.questions.specs.Outcomes.{outcome, checked, periods_check, after_periods};

use crate::alone::alone;
use crate::parts::{Parts, check_lies};
use crate::refusal::Refusal;
use keepers::Keeper;
use periodicity::{Fragment, Progression};
use std::iter::{RepeatN, Rev, once, repeat_n};
use std::ops::Range;

/// How many records the periods of a fragment take at most: borders are below 2^16, which makes 16 ranges,
/// and border 0 makes the last record.
pub const RECORDS: usize = 17;

// The record of the periods of a fragment of `length` codes that belong to a progression of borders: the
// greatest border makes the first.
fn borders_record(length: usize, borders: Progression) -> Progression
    requires some { 1 ≤ borders.count }
    requires short { borders.first + (borders.count - 1) * borders.step ≤ length }
    ensures { result ≡ mirrored length borders }
{
    let greatest = borders.first + (borders.count - 1) * borders.step;
    Progression {
        first: length - greatest,
        step: borders.step,
        count: borders.count,
    }
}

// The ranges of borders below 2^16, greatest first.
fn border_ranges() -> Rev<Range<u32>>
    ensures { rev_source result ≡ record { start = 0; end = 16 } }
{
    (0..16).rev()
}

// As many records of three zeros as may not be in use: one for each range.
fn unused() -> RepeatN<Progression>
    ensures zeros { repeat_n_item result ≡ triple 0 0 0 }
    ensures count { repeat_n_count result ≡ 16 }
{
    repeat_n(Progression::default(), RECORDS - 1)
}

// Writes what comes into the first records, one by one. By place, since the checker knows nothing of what is
// written through a zipped `iter_mut`.
fn write_first<I: Iterator<Item = Progression> + Drop>(records: &mut [Progression], new: I)
    requires can { I.can_next new }
    requires ends { IsFinite (I.remaining new) }
    requires room { size (I.remaining new) ≤ length records.old }
    ensures { (xs : List Progression) × Drains I.next_gives new xs × (records.new ≡ xs ++ drop (length xs) records.old) }
{
    for (place, record) in new.enumerate() {
        records[place] = record;
    }
}

// A fragment of at least one code that lies in the keeper's strip. Beside `Parts`, since the periods also need that
// the fragment is not empty.
#[derive(Drop)]
struct Part<'a, K: Keeper> {
    keeper: &'a K,
    fragment: Fragment,
    ghost lies: { fragment.start + fragment.length ≤ length (K.codes keeper.now) },
    ghost some: { 1 ≤ fragment.length },
}

impl<'a, K: Keeper> Part<'a, K> {
    // The fragment, unless it leaves the strip or is empty; any numbers will do.
    fn of(keeper: &'a K, fragment: Fragment) -> Result<Self, Refusal>
        ensures part { IfOk result (λ part. (part.keeper.now ≡ keeper.now) × (part.fragment ≡ fragment)) }
        ensures refused { IfErr result (λ refusal. (supplied : ℕ) → periods_check (K.codes keeper.now) fragment supplied ≡ Some refusal) }
    {
        check_lies(keeper, fragment)?;
        if fragment.length == 0 {
            return Err(Refusal::EmptyFragment);
        }
        Ok(Part { keeper, fragment })
    }

    // The fragment without its last code and without its first.
    fn ends(&self) -> Parts<'a, K>
        ensures keeper { result.keeper.now ≡ self.now.keeper.now }
        ensures first { result.first ≡ record { start = self.now.fragment.start; length = self.now.fragment.length - 1 } }
        ensures second { result.second ≡ record { start = self.now.fragment.start + 1; length = self.now.fragment.length - 1 } }
    {
        let length = self.fragment.length - 1;
        Parts {
            keeper: self.keeper,
            first: Fragment {
                start: self.fragment.start,
                length,
            },
            second: Fragment {
                start: self.fragment.start + 1,
                length,
            },
        }
    }

    // The record of the periods whose borders are from 2^range to 2^(range + 1) - 1. A border shorter than
    // the fragment is an overlap of the fragment without its last code and without its first.
    fn range_record(&self, range: u32) -> Option<Progression>
        requires range { range < 16 }
        ensures { result ≡ progression_of (periods_in (cut (K.codes self.now.keeper.now) self.now.fragment) range) }
    {
        // A border is shorter than its fragment: a short one has none in most of the ranges.
        let least = 1 << range;
        if least >= self.fragment.length {
            return None;
        }
        let borders = self.ends().overlaps_from(least)?;
        Some(borders_record(self.fragment.length, borders))
    }

    // The record of the length itself, whose border is empty.
    fn length_record(&self) -> Progression
        ensures { result ≡ triple self.now.fragment.length 0 1 }
    {
        alone(self.fragment.length)
    }

    // Writes the 17 records: one for each range with a border, then the length's, then the unused ones.
    fn write_records(&self, records: &mut [Progression])
        requires room { 17 ≤ length records.old }
        ensures { records.new ≡ written_records (cut (K.codes self.now.keeper.now) self.now.fragment) ++ drop 17 records.old }
    {
        let borders = border_ranges().filter_map(|range| self.range_record(range));
        let used = borders.chain(once(self.length_record()));
        write_first(records, used.chain(unused()).take(RECORDS));
    }
}

/// All p from 1 to the fragment's length with every code equal to the one p further on, if any. The first
/// 17 records are written: for each range of borders from the greatest down, first period, step and count,
/// then the length itself, then three zeros for each record that is not in use. Records from the 18th on stay as
/// they were. The codes a b a b a b a have the periods 2, 4, 6 and 7, whose borders 5, 3 and 1 lie in three ranges, so
/// that four records are in use.
///
/// Refused where the fragment leaves the strip, then where it is empty, then where fewer than 17 records are
/// supplied; all records are then as they were.
pub fn periods<K: Keeper>(
    keeper: &K,
    fragment: Fragment,
    records: &mut [Progression],
) -> Result<(), Refusal>
    ensures value { outcome result ≡ checked (periods_check (K.codes keeper.now) fragment (length records.old)) tt }
    ensures written { records.new ≡ after_periods (periods_check (K.codes keeper.now) fragment (length records.old)) (cut (K.codes keeper.now) fragment) records.old }
    ensures law { PeriodsLaw (K.codes keeper.now) fragment (length records.old) records.new result }
{
    let part = Part::of(keeper, fragment)?;
    if records.len() < RECORDS {
        return Err(Refusal::TooFewRecords);
    }
    part.write_records(records);
    Ok(())
}
