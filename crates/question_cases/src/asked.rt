//! What a case asks: a question of some codes through layers upon layers, more of them than a line of questions names.

ghost use Rattle.std.specs.Prelude.{◌≡◌};
ghost use Rattle.ask.specs.Answers.{reply_of, reply_to, seen_through};

use ask::{Answer, Asking, Layers, Question, Through};
use cells::Glyph;
use keepers::{Keeper, LooseStrip};
use shelf::Shelf;
use shelf_strip::ShelfStrip;
use std::alloc::{AllocError, Global};

/// The codes, the layers from the strip outwards in two parts, and the question.
#[derive(Drop)]
pub struct Asked {
    /// The codes of the strip.
    pub codes: Vec<u32>,
    /// The layers that stand on the strip.
    pub below: Layers,
    /// The layers that stand on those.
    pub above: Layers,
    /// What is asked of what is seen through both.
    pub question: Question,
}

// The glyph for a code: the place at which the code comes first, since a glyph has 16 bits and a code has 32. What
// is asked depends on which codes are equal, and on nothing else of them. Cases are shorter than 65,536 codes.
fn glyph_for(codes: &[u32], code: u32) -> Glyph {
    let place = codes.iter().take_while(|other| **other != code).count();
    Glyph(u16::try_from(place).unwrap_or(u16::MAX))
}

impl Asked {
    // The answer for the strip of a keeper.
    fn ask<K: Keeper>(&self, keeper: &K) -> Answer
        ensures { reply_of result ≡ reply_to self.now.question (seen_through self.now.above (seen_through self.now.below (K.codes keeper.now))) }
    {
        let pile = Through {
            layers: self.below,
            asking: Through {
                layers: self.above,
                asking: self.question,
            },
        };
        pile.ask(keeper)
    }

    // The line of the answer for the codes as they are.
    pub(crate) fn of_codes(&self, heap: Global) -> Result<String, AllocError> {
        let answer = self.ask(&LooseStrip::new(self.codes.as_slice()));
        format!(in heap; "{answer}\n")
    }

    // The same when they have been taken onto a new shelf.
    pub(crate) fn on_shelf(&self, heap: Global) -> Result<String, AllocError> {
        let codes = self.codes.as_slice();
        let glyphs = codes
            .iter()
            .map(|code| glyph_for(codes, *code))
            .collect::<Vec<_>>(heap)?;
        let mut work = vec![in heap; 0; codes.len()]?;
        let mut shelf = Shelf::new::<Glyph>();
        match shelf.take(glyphs.as_slice(), work.as_mut_slice()) {
            Ok(number) => {
                let answer = self.ask(&ShelfStrip::new(&shelf, number));
                format!(in heap; "{answer}\n")
            }
            Err(refusal) => format!(in heap; "{refusal}\n"),
        }
    }
}
