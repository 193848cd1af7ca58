//! Tallies: how many cases were run, and how many of them agree with what is expected.
#![tactic(auto)]

ghost use Rattle.std.specs.Prelude.{◌≡◌, Some, ◌==◌};
ghost use Rattle.tally.specs.Tallies.{none_yet, with_case, together, tally_text};

use std::fmt;

/// A tally. It prints as `3 of 4 agree`. A count that a `usize` cannot hold stays at the greatest that it can.
#[derive(Clone, Copy, Default)]
pub struct Tally {
    /// How many cases were run.
    pub run: usize,
    /// How many of them agree.
    pub agree: usize,
}

impl Tally {
    /// No case yet.
    pub fn new() -> Self
        ensures { result ≡ none_yet }
    {
        Self::default()
    }

    /// One case more.
    pub fn count(&mut self, agrees: bool)
        ensures { self.new ≡ with_case self.old agrees }
    {
        self.run = self.run.saturating_add(1);
        if agrees {
            self.agree = self.agree.saturating_add(1);
        }
    }

    /// The cases of another tally too.
    pub fn add(&mut self, other: Tally)
        ensures { self.new ≡ together self.old other }
    {
        self.run = self.run.saturating_add(other.run);
        self.agree = self.agree.saturating_add(other.agree);
    }

    /// Whether every case that was run agrees.
    pub fn all_agree(self) -> bool
        ensures { result ≡ (self.agree == self.run) }
    {
        self.agree == self.run
    }
}

impl fmt::Display for Tally {
    ghost output = { λ tally. Some (tally_text tally) };

    fn fmt<W: fmt::Write>(&self, f: &mut fmt::Formatter<W>) -> fmt::Result {
        write!(f, "{} of {} agree", self.agree, self.run)
    }
}
