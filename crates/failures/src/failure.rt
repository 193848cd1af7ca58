//! Failures and what they print.

ghost use Rattle.std.specs.Prelude.{◌≡◌};
ghost use Rattle.std.specs.Process.{exit_status};
ghost use Rattle.failures.specs.Sentences.{sentence_of, text_of, status_of};
ghost use Rattle.failures.specs.declared.failure.Failure.TheVariants.{Memory};

use std::alloc::AllocError;
use std::process::ExitCode;
use std::{fmt, io};

/// Why a program gives up. It prints as its sentence, and where a stream failed with what the system said after a colon.
#[derive(Drop)]
pub enum Failure {
    /// The input could not be read: of a program, standard input.
    Read(io::Error),
    /// There was too little memory.
    Memory,
    /// The output took no more: of a program, standard output.
    Write(io::Error),
}

impl Failure {
    /// What failed of a program, in words of our own, as `there is too little memory`.
    pub fn sentence(&self) -> &'static str
        ensures { result.now ≡ sentence_of self.now }
    {
        match self {
            Failure::Read(_) => "standard input could not be read",
            Failure::Memory => "there is too little memory",
            Failure::Write(_) => "standard output could not be written",
        }
    }
}

impl From<AllocError> for Failure {
    ghost from_gives = { λ _ r. r ≡ Memory };

    fn from(_error: AllocError) -> Failure {
        Self::Memory
    }
}

impl fmt::Display for Failure {
    ghost output = { text_of };

    fn fmt<W: fmt::Write>(&self, f: &mut fmt::Formatter<W>) -> fmt::Result {
        let sentence = self.sentence();
        match self {
            Failure::Memory => f.write_str(sentence),
            Failure::Read(error) | Failure::Write(error) => write!(f, "{sentence}: {error}"),
        }
    }
}

/// Ends a program: says on standard error what failed, and gives the status that tells whether anything did, 0 or 1.
/// Only the status is promised, since the library promises nothing of what is printed.
pub fn exit_code<R: Eprint>(rt: &R, program: &str, outcome: Result<(), Failure>) -> ExitCode
    ensures { exit_status result ≡ status_of outcome }
{
    match outcome {
        Ok(()) => ExitCode::SUCCESS,
        Err(failure) => {
            let _ = eprintln!(rt; "{program}: {failure}");
            ExitCode::FAILURE
        }
    }
}
