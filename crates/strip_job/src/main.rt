//! Runs a job: reads it from standard input, and prints what its commands answer.
#![tactic(auto)]

use failures::exit_code;
use job_stream::run_through;
use std::process::ExitCode;

fn main(rt: HostRuntime) -> ExitCode {
    let outcome = run_through(rt.alloc(), rt.stdin(), &mut rt.stdout());
    exit_code(&rt, "strip_job", outcome)
}
