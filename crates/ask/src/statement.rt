//! What a line of text says.

ghost use Rattle.std.specs.Prelude.{◌≡◌, IfOk, vec_items};
ghost use Rattle.std.specs.Option.{option_map};
ghost use Rattle.ask.specs.Words.{words_left, named_front};
ghost use Rattle.ask.specs.Lines.{front_of, at_end, number_front, fragment_front, layers_front, places_words};
ghost use Rattle.ask.specs.Lines.{overlaps_words, periods_words, question_words, question_line, codes_words, saying_of, said_by};

use crate::number::{code, number};
use crate::question::{Layers, Question};
use crate::words::{Words, spells};
use periodicity::Fragment;
use std::alloc::{AllocError, Global};

/// What a line of text that was read says.
#[derive(Drop)]
pub enum Statement {
    /// It has no words.
    Nothing,
    /// The strip is now this one.
    Strip { codes: Vec<u32> },
    /// A question, and the layers through which it sees the strip.
    Question { layers: Layers, question: Question },
    /// It names no question; or it has a number too few or too many, a word that is no number where one is due, or a
    /// number that does not fit.
    NotUnderstood,
}

// What the words of a line say, from the next one on; each takes the words that it reads.
impl Words<'_> {
    // A number.
    fn number(&mut self) -> Option<usize>
        ensures { front_of result self.new ≡ number_front (words_left self.old) }
    {
        number(self.next()?)
    }

    // A fragment: its start and its length.
    fn fragment(&mut self) -> Option<Fragment>
        ensures { front_of result self.new ≡ fragment_front (words_left self.old) }
    {
        Some(Fragment {
            start: self.number()?,
            length: self.number()?,
        })
    }

    // Whether the next word is this name, which is then taken.
    fn takes(&mut self, name: &str) -> bool
        ensures { (result, words_left self.new) ≡ named_front name.now (words_left self.old) }
    {
        let mut after = *self;
        let named = after.next().is_some_and(|word| spells(word, name));
        if named {
            *self = after;
        }
        named
    }

    // The layers, if any; absent when `window` stands without a fragment.
    fn layers(&mut self) -> Option<Layers>
        ensures { front_of result self.new ≡ layers_front (words_left self.old) }
    {
        let window = if self.takes("window") {
            Some(self.fragment()?)
        } else {
            None
        };
        Some(Layers {
            window,
            reversed: self.takes("reversed"),
        })
    }

    // What was asked, unless words are left over.
    fn ended(mut self, question: Question) -> Option<Question>
        ensures { result ≡ at_end (words_left self.entry) question }
    {
        self.next().is_none().then_some(question)
    }

    fn places(mut self) -> Option<Question>
        ensures { result ≡ places_words (words_left self.entry) }
    {
        let question = Question::Places {
            pattern: self.fragment()?,
            field: self.fragment()?,
        };
        self.ended(question)
    }

    fn overlaps(mut self) -> Option<Question>
        ensures { result ≡ overlaps_words (words_left self.entry) }
    {
        let question = Question::Overlaps {
            first: self.fragment()?,
            second: self.fragment()?,
            least: self.number()?,
        };
        self.ended(question)
    }

    fn periods(mut self) -> Option<Question>
        ensures { result ≡ periods_words (words_left self.entry) }
    {
        let fragment = self.fragment()?;
        self.ended(Question::Periods { fragment })
    }

    // A question by its name and its numbers.
    fn question(mut self) -> Option<Question>
        ensures { result ≡ question_words (words_left self.entry) }
    {
        let name = self.next()?;
        if spells(name, "places") {
            self.places()
        } else if spells(name, "overlaps") {
            self.overlaps()
        } else if spells(name, "periods") {
            self.periods()
        } else {
            None
        }
    }

    // The layers and the question behind them.
    fn asked(mut self) -> Option<(Layers, Question)>
        ensures { result ≡ question_line (words_left self.entry) }
    {
        let layers = self.layers()?;
        Some((layers, self.question()?))
    }

    // All words as codes; absent when one is none.
    fn codes(self, heap: Global) -> Result<Option<Vec<u32>>, AllocError>
        ensures { IfOk result (λ codes. option_map vec_items codes ≡ codes_words (words_left self.entry)) }
    {
        let mut codes = Vec::new(heap);
        for word in self {
            let Some(code) = code(word) else {
                return Ok(None);
            };
            codes.push(code)?;
        }
        Ok(Some(codes))
    }
}

/// What a line says, without its newline. `strip 7 8 7` sets the strip; `window 1 2 reversed periods 0 2` asks about
/// what is seen of it through a window and then backwards. What names no question, or has a number too few or too
/// many, is `NotUnderstood`; the only error is that memory runs out.
pub fn parse(heap: Global, line: &[u8]) -> Result<Statement, AllocError>
    ensures { IfOk result (λ parsed. said_by parsed ≡ saying_of line.now) }
{
    let mut words = Words::of(line);
    let parsed = match words.next() {
        None => Some(Statement::Nothing),
        Some(name) if spells(name, "strip") => words
            .codes(heap)?
            .map(|codes| Statement::Strip { codes }),
        Some(_) => Words::of(line).asked().map(|(layers, question)| Statement::Question {
            layers,
            question,
        }),
    };
    Ok(parsed.unwrap_or(Statement::NotUnderstood))
}
