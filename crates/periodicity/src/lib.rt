//! Periodicity of strips: fragments, progressions and the facts that make the answers about
//! repetition short. Theory stands here; nothing in this crate reads a strip.
#![tactic(auto)]

ghost use Rattle.std.specs.Prelude.{◌≡◌, Some};
ghost use Rattle.periodicity.specs.Fragments.{within};
ghost use Rattle.periodicity.specs.Progressions.{triple_text};
ghost use Rattle.periodicity.specs.Laws.{TestsHold, CommonGreatest, DifferenceRepeats, LeastDivides, OverlapsProgress, PlacesProgress, OverlapsExact, PlacesExact, RecordsName};

use std::fmt;

/// A part of a strip. Any numbers make one: whether it lies in a strip, `lies_within` tells.
#[derive(Clone, Copy, PartialEq, Eq, Debug, Default)]
pub struct Fragment {
    /// The place of its first code, counted from 0.
    pub start: usize,
    /// How many codes it has.
    pub length: usize,
}

impl Fragment {
    /// Whether it lies within so many places; any numbers will do.
    pub fn lies_within(self, len: usize) -> bool
        ensures { result ≡ within len self }
    {
        self.start <= len && self.length <= len - self.start
    }
}

/// An arithmetic progression of `count` numbers: first, first + step, and so on. It prints as first, step and
/// count: `2 3 4` stands for 2, 5, 8 and 11.
#[derive(Clone, Copy, PartialEq, Eq, Debug, Default)]
pub struct Progression {
    /// Its least number. What is counted, places or codes, depends on the question.
    pub first: usize,
    /// How much each number is above the one before it; 0 where there is one number alone.
    pub step: usize,
    /// How many numbers there are. A record that is not in use has none.
    pub count: usize,
}

// Its first number, its step and its count.
impl fmt::Display for Progression {
    ghost output = { λ p. Some (triple_text p) };

    fn fmt<W: fmt::Write>(&self, f: &mut fmt::Formatter<W>) -> fmt::Result {
        write!(f, "{} {} {}", self.first, self.step, self.count)
    }
}

/// The laws of periodicity, which the answers to all questions rest on. It does nothing when it is called: who
/// proves something cites it.
///
/// - `tests`: two lists are the same exactly when they are equal, and a list passes the test of a period exactly
///   when it has it.
/// - `greatest`: the common length of two lists is the greatest in which they agree.
/// - `difference`: the difference of two periods is a period, when their sum is at most the length.
/// - `least`: the least period divides each other period, when their sum is at most the length.
/// - `overlaps`: overlaps of lengths from d to 2d - 1 are a progression.
/// - `places`: of a pattern and a field that lie in the list, with the field shorter than twice the pattern, the places
///   are a progression.
/// - `overlaps_exact`: the overlaps listed are exactly those lengths in which the lists overlap.
/// - `places_exact`: of a pattern and a field that lie in the list, the places listed are exactly those where the
///   pattern stands in the field.
/// - `records`: of a list of 1 to 65,535 codes, the records name its periods, range of borders by range, and joined all
///   of them, each once.
pub fn laws_of_periodicity()
    ensures tests { TestsHold }
    ensures greatest { CommonGreatest }
    ensures difference { DifferenceRepeats }
    ensures least { LeastDivides }
    ensures overlaps { OverlapsProgress }
    ensures places { PlacesProgress }
    ensures overlaps_exact { OverlapsExact }
    ensures places_exact { PlacesExact }
    ensures records { RecordsName }
{}
