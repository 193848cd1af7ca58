//! Why a question is refused. Refusal 7 stands here and in `shelf`, neither of which builds on the other.

ghost use Rattle.std.specs.Prelude.{◌≡◌, Some};
ghost use Rattle.questions.specs.Outcomes.{refusal_number, refusal_sentence};

use std::fmt;

/// What a question is refused for. Where several apply, the first in this order is told.
#[derive(Clone, Copy, PartialEq, Eq, Debug)]
pub enum Refusal {
    /// A fragment leaves the strip.
    FragmentLeavesStrip,
    /// The field is at least twice as long as the pattern.
    FieldTooLong,
    /// Overlaps of at least 0 codes were asked for.
    ZeroOverlap,
    /// The periods of an empty fragment were asked for.
    EmptyFragment,
    /// Fewer than 17 records were supplied for the periods.
    TooFewRecords,
}

impl Refusal {
    /// The number by which users know the refusal, from 7 to 11.
    pub fn number(self) -> u8
        ensures { result ≡ refusal_number self }
    {
        match self {
            Refusal::FragmentLeavesStrip => 7,
            Refusal::FieldTooLong => 8,
            Refusal::ZeroOverlap => 9,
            Refusal::EmptyFragment => 10,
            Refusal::TooFewRecords => 11,
        }
    }

    // The sentence that the refusal prints as.
    fn sentence(self) -> &'static str
        ensures { result.now ≡ refusal_sentence self }
    {
        match self {
            Refusal::FragmentLeavesStrip => "a fragment leaves the strip",
            Refusal::FieldTooLong => "the field is at least twice as long as the pattern",
            Refusal::ZeroOverlap => "an overlap of 0 was asked for",
            Refusal::EmptyFragment => "the fragment is empty",
            Refusal::TooFewRecords => "fewer than 17 records were supplied",
        }
    }
}

impl fmt::Display for Refusal {
    ghost output = { λ refusal. Some (refusal_sentence refusal) };

    fn fmt<W: fmt::Write>(&self, f: &mut fmt::Formatter<W>) -> fmt::Result {
        f.write_str(self.sentence())
    }
}
