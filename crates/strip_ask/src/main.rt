//! Answers questions about a strip: reads lines from standard input, and prints a line for each question.
#![tactic(auto)]

use ask::transcript;
use failures::{Failure, exit_code};
use std::io::{Read, Write};
use std::process::ExitCode;

fn run(rt: &HostRuntime) -> Result<(), Failure> {
    let heap = rt.alloc();
    let mut text = Vec::new(heap);
    rt.stdin().read_to_end(&mut text).map_err(Failure::Read)?;
    let answers = transcript(heap, text.as_slice())?;
    rt.stdout()
        .write_all(answers.as_bytes())
        .map_err(Failure::Write)
}

fn main(rt: HostRuntime) -> ExitCode {
    exit_code(&rt, "strip_ask", run(&rt))
}
