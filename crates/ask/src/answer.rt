//! Questions asked of a keeper, and their answers as text.

ghost use Rattle.std.specs.Prelude.{◌≡◌, ℕ, List, Some, codes as ascii};
ghost use Rattle.std.specs.Fmt.{WritesOnOk};
ghost use Rattle.questions.specs.Outcomes.{outcome};
ghost use Rattle.ask.specs.Answers.{Reply, records_outcome, reply_to, reply_of, seen_through, reversed_if};
ghost use Rattle.ask.specs.Answers.{triples_text, reply_text};
ghost use Rattle.ask.specs.Laws.{AnswerLaw, RecordsLaw};

use crate::question::{Layers, Question};
use keepers::{Keeper, Reversed, Window};
use periodicity::{Fragment, Progression};
use questions::{Found, RECORDS, Refusal, overlaps, periods, places};
use std::fmt;

/// What was found, or why the question is refused. It prints as the question's name and what was found, as
/// `places 0 2 3`, `overlaps none`, `periods 2 0 1 / 4 0 1` or `periods refused 10`.
#[derive(Clone, Copy)]
pub enum Answer {
    /// The places, counted in the strip as the question sees it, or none.
    Places(Result<Option<Progression>, Refusal>),
    /// The lengths of the overlaps in codes, or none.
    Overlaps(Result<Option<Progression>, Refusal>),
    /// The records of the periods, which are numbers of codes; those that are not in use are three zeros.
    Periods(Result<[Progression; RECORDS], Refusal>),
}

/// Something that can be asked of a keeper, whatever keeper it is.
pub trait Asking {
    ghost use Rattle.ask.specs.declared.answer.Answer.{Answer};

    // What it comes to, by the codes that the keeper stands for.
    ghost reply: { Self → List ℕ → Reply };

    // What its answer owes to them.
    ghost owed: { Self → List ℕ → Answer → Type 0 };

    /// Asks about the codes that a keeper stands for.
    fn ask<K: Keeper>(&self, keeper: &K) -> Answer
        ensures value { reply_of result ≡ reply self.now (K.codes keeper.now) }
        ensures law { owed self.now (K.codes keeper.now) result };
}

// The records of a fragment's periods.
#[tactic(auto, using(crate::proofs::Lawful::all_named))]
fn periods_of<K: Keeper>(keeper: &K, fragment: Fragment) -> Result<[Progression; RECORDS], Refusal>
    ensures value { outcome result ≡ records_outcome (K.codes keeper.now) fragment }
    ensures law { RecordsLaw (K.codes keeper.now) fragment result }
{
    let mut records = [Progression::default(); RECORDS];
    periods(keeper, fragment, &mut records)?;
    Ok(records)
}

impl Asking for Question {
    ghost reply = { reply_to };

    ghost owed = { AnswerLaw };

    fn ask<K: Keeper>(&self, keeper: &K) -> Answer {
        match *self {
            Question::Places { pattern, field } => Answer::Places(places(keeper, pattern, field)),
            Question::Overlaps {
                first,
                second,
                least,
            } => Answer::Overlaps(overlaps(keeper, first, second, least)),
            Question::Periods { fragment } => Answer::Periods(periods_of(keeper, fragment)),
        }
    }
}

/// Something asked of what is seen through layers. It can be asked through further layers, which stand below: of
/// codes, `Through { layers: window, asking: Through { layers: reversed, asking: question } }` asks about a window of
/// them, read backwards.
#[derive(Clone, Copy)]
pub struct Through<A> {
    /// The layers, which stand on the codes that it is asked of.
    pub layers: Layers,
    /// What is asked of the codes seen through them.
    pub asking: A,
}

impl<A: Asking> Through<A> {
    // Asks of what is seen through the window.
    fn ask_windowed<K: Keeper>(&self, keeper: &K) -> Answer
        ensures value { reply_of result ≡ A.reply self.now.asking (reversed_if self.now.layers.reversed (K.codes keeper.now)) }
        ensures law { A.owed self.now.asking (reversed_if self.now.layers.reversed (K.codes keeper.now)) result }
    {
        if self.layers.reversed {
            self.asking.ask(&Reversed { below: keeper })
        } else {
            self.asking.ask(keeper)
        }
    }
}

impl<A: Asking> Asking for Through<A> {
    ghost reply = { λ through xs. A.reply through.asking (seen_through through.layers xs) };

    ghost owed = { λ through xs answer. A.owed through.asking (seen_through through.layers xs) answer };

    fn ask<K: Keeper>(&self, keeper: &K) -> Answer {
        match self.layers.window {
            Some(part) => self.ask_windowed(&Window {
                below: keeper,
                part,
            }),
            None => self.ask_windowed(keeper),
        }
    }
}

/// Asks about the codes that are seen through the layers, of which there need be none.
pub fn ask_through<K: Keeper>(keeper: &K, layers: Layers, question: Question) -> Answer
    ensures value { reply_of result ≡ reply_to question (seen_through layers (K.codes keeper.now)) }
    ensures law { AnswerLaw question (seen_through layers (K.codes keeper.now)) result }
{
    Through {
        layers,
        asking: question,
    }
    .ask(keeper)
}

// The records in use, parted by slashes. By the rules a record that is not in use is three zeros. The slash
// stands between records, so the first has another mark before it.
#[tactic(auto, using(crate::proofs::Records::recording))]
fn write_records<W: fmt::Write>(
    f: &mut fmt::Formatter<W>,
    records: [Progression; RECORDS],
) -> fmt::Result
    ensures { WritesOnOk W.Write.write_str_gives f.old result (triples_text (ascii " ") records) f.new }
{
    let mut before = " ";
    for record in records.iter() {
        if record.count > 0 {
            write!(f, "{before}{record}")?;
            before = " / ";
        }
    }
    Ok(())
}

impl fmt::Display for Answer {
    ghost output = { λ answer. Some (reply_text (reply_of answer)) };

    fn fmt<W: fmt::Write>(&self, f: &mut fmt::Formatter<W>) -> fmt::Result {
        match *self {
            Answer::Places(found) => write!(f, "places {}", Found(found)),
            Answer::Overlaps(found) => write!(f, "overlaps {}", Found(found)),
            Answer::Periods(Ok(records)) => {
                f.write_str("periods")?;
                write_records(f, records)
            }
            Answer::Periods(Err(refusal)) => write!(f, "periods {}", Found(Err(refusal))),
        }
    }
}
