//! Running a job: from its bytes to the bytes that it prints.

ghost use Rattle.std.specs.Prelude.{◌≡◌, ◌≤◌, ◌++◌, length, IfOk, string_bytes, OnOk};
ghost use Rattle.std.specs.List.{flat_map};
ghost use Rattle.job.specs.Commands.{entries};
ghost use Rattle.job.specs.Desks.{told_at_end};
ghost use Rattle.job.specs.Lines.{told_in, line_bytes, LawfulPrintout};
ghost use Rattle.job.specs.Runs.{nothing_yet, told_from};

use crate::desk::Desk;
use crate::line::Line;
use book::law_of_the_book;
use cells::Glyph;
use std::alloc::{AllocError, Global};

/// The most bytes of a job.
pub const MOST_BYTES: usize = 32768;

// Adds the bytes of a line, which `Line::bytes` gives of a line alone.
fn print(text: &mut String, line: Line) -> Result<(), AllocError>
    ensures { OnOk result (string_bytes text.new ≡ string_bytes text.old ++ line_bytes (told_in line)) }
{
    writeln!(text, "{line}")
}

// Adds the line that says where a job stopped, unless no bytes of it are left.
fn print_stop(text: &mut String, job: &[u8], rest: &[u8]) -> Result<(), AllocError>
    requires { length rest.now ≤ length job.now }
    ensures { OnOk result (string_bytes text.new ≡ string_bytes text.old ++ flat_map line_bytes (told_at_end job.now rest.now)) }
{
    if rest.is_empty() {
        return Ok(());
    }
    let place = job.len() - rest.len();
    print(text, Line::Stopped { place })
}

// All that is printed for the commands of a job. Where bytes are left that no command that can be done begins,
// the job stops.
#[tactic(auto, using(crate::proofs::Turns::turns))]
fn run_commands(heap: Global, job: &[u8]) -> Result<String, AllocError>
    ensures { IfOk result (λ text. string_bytes text ≡ flat_map line_bytes (told_from nothing_yet (entries job.now))) }
{
    let mut desk = Desk::new(heap);
    let mut text = String::new(heap);
    let mut rest = job;
    while let Some((command, after)) = desk.next(rest) {
        if let Some(line) = desk.perform(command)? {
            print(&mut text, line)?;
        }
        rest = after;
    }
    print_stop(&mut text, job, rest)?;
    Ok(text)
}

/// Runs a job on an empty glyph shelf: all bytes that it prints. Any two T, J or K lines that tell numbers tell
/// equal ones exactly when the strips that they wrote are the same, glyph for glyph; an F line names exactly the places
/// where its pattern stands. It errs only where memory is short.
///
/// The job `C 00 05 T J 00 01 00 01`, each letter a byte, prints `T 1` and `J 2`.
#[tactic(auto, using(crate::proofs::Law::printouts))]
pub fn run(heap: Global, job: &[u8]) -> Result<String, AllocError>
    ensures { IfOk result (λ text. LawfulPrintout job.now (string_bytes text)) }
{
    law_of_the_book::<Glyph>();
    if job.len() > MOST_BYTES {
        return Line::TooLong.bytes(heap);
    }
    run_commands(heap, job)
}
