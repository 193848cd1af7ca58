//! A case: a question about a strip, the layers between them, and the answer that is expected.

ghost use Rattle.std.specs.Prelude.{◌≡◌, IfOk, string_bytes};
ghost use Rattle.ask.specs.Transcript.{transcript_of};
ghost use Rattle.question_cases.specs.Cases.{asking_lines, expected_line};

use crate::asked::Asked;
use ask::{Statement, parse, transcript};
use std::alloc::{AllocError, Global};

/// The columns of a line `question | codes | layers | arguments | answer`, where the layers with their bar may
/// be left out. Layers stand from the strip outwards, with a comma between two piles of them.
#[derive(Clone, Copy)]
pub struct Case<'a> {
    /// The name of the question.
    pub question: &'a str,
    /// The codes of the strip, with spaces between.
    pub codes: &'a str,
    /// The layers as lines spell them: one pile of them, or two with a comma between; empty where there are none.
    pub layers: &'a str,
    /// The numbers that the question has.
    pub arguments: &'a str,
    /// What is printed after the question's name, as it is expected.
    pub answer: &'a str,
}

// What comes of a case of which a line is not understood.
const NOT_UNDERSTOOD: &str = "not understood\n";

impl<'a> Case<'a> {
    pub(crate) fn of(line: &'a str) -> Self {
        // Not trimmed all at once: a fifth column that is empty is none, and one of blanks is an empty answer.
        let mut columns = line.splitn(5, '|');
        let question = columns.next().unwrap_or("").trim();
        let codes = columns.next().unwrap_or("").trim();
        let third = columns.next().unwrap_or("").trim();
        let fourth = columns.next().unwrap_or("").trim();
        let (layers, arguments, answer) = match columns.next() {
            None | Some("") => ("", third, fourth),
            Some(fifth) => (third, fourth, fifth.trim()),
        };
        Case {
            question,
            codes,
            layers,
            arguments,
            answer,
        }
    }

    // The line that is expected.
    pub(crate) fn expected(self, heap: Global) -> Result<String, AllocError>
        ensures { IfOk result (λ text. string_bytes text ≡ expected_line self.entry) }
    {
        format!(in heap; "{} {}\n", self.question, self.answer)
    }

    // A line of the language of lines, as it is read: layers, and the question with its numbers.
    fn question_line(self, heap: Global, layers: &str) -> Result<Statement, AllocError> {
        let line = format!(in heap; "{layers} {} {}", self.question, self.arguments)?;
        parse(heap, line.as_bytes())
    }

    // What is asked of which codes, through two sets of layers; none where a line of it is not understood.
    fn asked(self, heap: Global) -> Result<Option<Asked>, AllocError> {
        let (below, above) = self.layers.split_once(',').unwrap_or((self.layers, ""));
        let strip = format!(in heap; "strip {}", self.codes)?;
        let strip = parse(heap, strip.as_bytes())?;
        let below = self.question_line(heap, below)?;
        let above = self.question_line(heap, above)?;
        Ok(match (strip, below, above) {
            (
                Statement::Strip { codes },
                Statement::Question { layers: below, .. },
                Statement::Question {
                    layers: above,
                    question,
                },
            ) => Some(Asked {
                codes,
                below,
                above,
                question,
            }),
            _ => None,
        })
    }

    // The answer through layers upon layers.
    fn through_pile(self, heap: Global) -> Result<String, AllocError> {
        let Some(asked) = self.asked(heap)? else {
            return String::from_str(heap, NOT_UNDERSTOOD);
        };
        asked.of_codes(heap)
    }

    // The answer for the same strip on a shelf.
    pub(crate) fn on_shelf(self, heap: Global) -> Result<String, AllocError> {
        let Some(asked) = self.asked(heap)? else {
            return String::from_str(heap, NOT_UNDERSTOOD);
        };
        asked.on_shelf(heap)
    }

    // The answer through layers that a line can name: two lines are answered as the program for lines does.
    fn through_lines(self, heap: Global) -> Result<String, AllocError>
        ensures { IfOk result (λ text. string_bytes text ≡ transcript_of (asking_lines self.entry)) }
    {
        let lines = format!(in heap;
            "strip {}\n{} {} {}\n",
            self.codes, self.layers, self.question, self.arguments
        )?;
        transcript(heap, lines.as_bytes())
    }

    // The line that comes.
    pub(crate) fn run(self, heap: Global) -> Result<String, AllocError> {
        if self.layers.contains(',') {
            self.through_pile(heap)
        } else {
            self.through_lines(heap)
        }
    }
}
