//! A text of lines, and all that is printed in answer to it.

ghost use Rattle.std.specs.Prelude.{◌≡◌, IfOk, string_bytes};
ghost use Rattle.ask.specs.Laws.{TranscriptLaw};
ghost use Rattle.ask.specs.Lines.{said_by};
ghost use Rattle.ask.specs.Transcript.{printed_for, transcript_of};

use crate::answer::ask_through;
use crate::statement::{Statement, parse};
use crate::words::Lines;
use keepers::LooseStrip;
use std::alloc::{AllocError, Global};

// What is printed for the line with this number.
fn printed(
    heap: Global,
    number: usize,
    strip: &[u32],
    statement: &Statement,
) -> Result<String, AllocError>
    ensures { IfOk result (λ text. string_bytes text ≡ printed_for number strip.now (said_by statement.now)) }
{
    match statement {
        Statement::Nothing | Statement::Strip { .. } => Ok(String::new(heap)),
        Statement::Question { layers, question } => {
            let answer = ask_through(&LooseStrip::new(strip), *layers, *question);
            format!(in heap; "{answer}\n")
        }
        Statement::NotUnderstood => format!(in heap; "line {number} not understood\n"),
    }
}

/// All that is printed in answer to a text: a line for each question, and one for each line that is not
/// understood. Lines are numbered from 1, and before the first that sets a strip the strip is empty.
/// Of a strip longer than a keeper's the first codes are seen. The only error is that memory runs out.
pub fn transcript(heap: Global, text: &[u8]) -> Result<String, AllocError>
    ensures value { IfOk result (λ all. string_bytes all ≡ transcript_of text.now) }
    ensures law { IfOk result (λ all. TranscriptLaw text.now (string_bytes all)) }
{
    let mut all = String::new(heap);
    let mut strip = Vec::new(heap);
    for (i, bytes) in Lines::of(text).enumerate() {
        let statement = parse(heap, bytes)?;
        let text = printed(heap, i + 1, strip.as_slice(), &statement)?;
        all.push_str(text.as_str())?;
        if let Statement::Strip { codes } = statement {
            strip = codes;
        }
    }
    Ok(all)
}
