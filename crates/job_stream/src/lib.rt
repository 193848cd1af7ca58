//! A job from an input to an output: its bytes are read, it is run, and what it prints is written.
#![tactic(auto)]

ghost use Rattle.std.specs.Prelude.{◌≡◌, ◌≢◌, ◌≤◌, length, take, IfSome, IfOk, IfErr, OnOk, OnErr};
ghost use Rattle.std.specs.Io.KnownBytes.{Appends, WriteAppends};
ghost use Rattle.std.specs.IoError.{error_kind};
ghost use Rattle.job.specs.Lines.{printed_by};
ghost use Rattle.job_stream.specs.Moments.{FailedBeforeWriting, TriedAgain, AppendsBeginning};

use failures::Failure;
use job::MOST_BYTES;
use std::alloc::Global;
use std::io::{self, ErrorKind, Read, Write};

// One byte more than a job may have: it tells that the job is too long, and what follows is of no use.
const MOST_READ: u64 = MOST_BYTES as u64 + 1;

// The bytes of an input, up to a limit.
fn read_at_most<R: Read + Drop>(heap: Global, input: R, limit: u64) -> io::Result<Vec<u8>>
    ensures front { IfOk result (λ read. IfSome (R.remaining input) (λ bytes. read.items ≡ take limit bytes)) }
    ensures retried { IfErr result (λ error. error_kind error ≢ ErrorKind.Interrupted) }
{
    let mut bytes = Vec::new(heap);
    input.take(limit).read_to_end(&mut bytes)?;
    Ok(bytes)
}

// As much of a job as tells what it prints.
#[tactic(auto, using(crate::proofs::Beginnings::printed_beginning))]
fn read_job<R: Read + Drop>(heap: Global, input: R) -> io::Result<Vec<u8>>
    ensures printed { IfOk result (λ read. IfSome (R.remaining input) (λ bytes. printed_by read.items ≡ printed_by bytes)) }
    ensures retried { IfErr result (λ error. error_kind error ≢ ErrorKind.Interrupted) }
{
    read_at_most(heap, input, MOST_READ)
}

// The words in which the library's `write_all` tells of these failures.
const NOTHING_TAKEN: &str = "failed to write whole buffer";

const TOO_MANY_CALLS: &str = "gave up reading or writing after 2^64 tries";

// Writes a beginning of some bytes, and answers how many the output took: none where the call was interrupted. That an
// output takes none of them is a failure.
fn write_some<W: Write>(output: &mut W, bytes: &[u8]) -> io::Result<usize>
    ensures bound { IfOk result (λ count. count ≤ length bytes.now) }
    ensures bytes { WriteAppends (W.contents output.old) (W.contents output.new) result bytes.now }
    ensures retried { IfErr result (λ error. error_kind error ≢ ErrorKind.Interrupted) }
{
    match output.write(bytes) {
        Ok(0) => Err(io::Error::new(ErrorKind::WriteZero, NOTHING_TAKEN)),
        Err(error) if error.kind() == ErrorKind::Interrupted => Ok(0),
        outcome => outcome,
    }
}

// Writes all of some bytes, or fails with a beginning of them written. The library's own `write_all` promises nothing
// of a failure; as it does, this gives up after 2^64 - 1 calls, since any number of them may be interrupted.
#[tactic(auto, using(crate::proofs::Writing::writing))]
fn write_whole<W: Write>(output: &mut W, bytes: &[u8]) -> io::Result<()>
    ensures whole { OnOk result (Appends (W.contents output.old) (W.contents output.new) bytes.now) }
    ensures beginning { OnErr result (AppendsBeginning (W.contents output.old) (W.contents output.new) bytes.now) }
    ensures retried { IfErr result (λ error. error_kind error ≢ ErrorKind.Interrupted) }
{
    let mut rest = bytes;
    for _call in 0..u64::MAX {
        if rest.is_empty() {
            return Ok(());
        }
        let count = write_some(output, rest)?;
        rest = &rest[count..];
    }
    Err(io::Error::new(ErrorKind::TimedOut, TOO_MANY_CALLS))
}

/// Runs the job that an input gives, and writes what it prints once it has ended. No more of the input is read than one
/// byte past the most that a job may have. What is written is promised where the bytes of both are known, as those in
/// memory are; of a stream of the system the library tells none.
///
/// It fails with `Failure::Read` where reading fails and with `Failure::Memory` where memory is short, both before
/// anything is written; and with `Failure::Write` where the output fails or takes no byte more, and then a beginning of
/// what the job prints may be written.
#[tactic(auto, using(crate::proofs::Writing::printing))]
pub fn run_through<R: Read + Drop, W: Write>(
    heap: Global,
    input: R,
    output: &mut W,
) -> Result<(), Failure>
    ensures written { OnOk result (IfSome (R.remaining input)
        (λ bytes. Appends (W.contents output.old) (W.contents output.new) (printed_by bytes))) }
    ensures untouched { IfErr result (λ failure. FailedBeforeWriting failure → output.new ≡ output.old) }
    ensures retried { IfErr result TriedAgain }
    ensures begun { OnErr result (IfSome (R.remaining input)
        (λ bytes. AppendsBeginning (W.contents output.old) (W.contents output.new) (printed_by bytes))) }
{
    let bytes = read_job(heap, input).map_err(Failure::Read)?;
    let printed = job::run(heap, bytes.as_slice())?;
    write_whole(output, printed.as_bytes()).map_err(Failure::Write)
}

#[cfg(test)]
mod tests;
