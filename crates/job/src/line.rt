//! The lines that a job prints.

ghost use Rattle.std.specs.Prelude.{◌≡◌, IfOk, Some, string_bytes};
ghost use Rattle.shelf.specs.Refusals.{told as answer_of};
ghost use Rattle.job.specs.Lines.{told_in, answer_shown, line_text, line_bytes};

use questions::Found;
use shelf::Answer;
use std::alloc::{AllocError, Global};
use std::fmt;

/// What a line tells. It prints as the line without its end, as `T 3`, `J refused 6`, `F 0 2 3` or `F none`.
#[derive(Clone, Copy)]
pub enum Line {
    /// T: the number that the tray came to, or why it was refused.
    Take(Answer),
    /// J: the number that two strips came to, or why they were refused.
    Join(Answer),
    /// K: the number that a part of a strip came to, or why it was refused.
    Cut(Answer),
    /// F: the places of a pattern in a field, or why the question was refused.
    Places(Found),
    /// The job stopped at the command whose letter stands at this place.
    Stopped { place: usize },
    /// The job is longer than a job may be, and nothing of it was run.
    TooLong,
}

// What the shelf answered, as a line shows it: a number, or why the call is refused. Beside `Found`, since the
// shelf has refusals of its own.
#[derive(Clone, Copy)]
struct Shown(Answer);

impl fmt::Display for Shown {
    ghost output = { λ shown. Some (answer_shown (answer_of shown.0)) };

    fn fmt<W: fmt::Write>(&self, f: &mut fmt::Formatter<W>) -> fmt::Result {
        match self.0 {
            Ok(number) => write!(f, "{number}"),
            Err(refusal) => write!(f, "refused {}", refusal.number()),
        }
    }
}

impl fmt::Display for Line {
    ghost output = { λ l. Some (line_text (told_in l)) };

    #[tactic(auto, unfolding(crate::specs::Lines::line_text))]
    fn fmt<W: fmt::Write>(&self, f: &mut fmt::Formatter<W>) -> fmt::Result {
        match *self {
            Line::Take(answer) => write!(f, "T {}", Shown(answer)),
            Line::Join(answer) => write!(f, "J {}", Shown(answer)),
            Line::Cut(answer) => write!(f, "K {}", Shown(answer)),
            Line::Places(found) => write!(f, "F {found}"),
            Line::Stopped { place } => write!(f, "job stopped at {place}"),
            Line::TooLong => write!(f, "job too long"),
        }
    }
}

impl Line {
    /// Its bytes, with the byte 0A that ends a line.
    pub fn bytes(&self, heap: Global) -> Result<String, AllocError>
        ensures { IfOk result (λ text. string_bytes text ≡ line_bytes (told_in self.now)) }
    {
        format!(in heap; "{self}\n")
    }
}
