//! Runs jobs, and compares what they print with the printouts that the data files hold. A job has files of its
//! own, or is a line of a text. The last line says how many agree; where one does not, it is named, and the
//! program fails too.
#![tactic(auto)]

mod spelled;

use anyhow::{anyhow, ensure};
use spelled::{job_of, parts, printout_of};
use std::fs;
use tally::Tally;

// Runs a job and counts it; where it does not print what is expected, says so.
fn run_case(
    rt: &HostRuntime,
    tally: &mut Tally,
    name: &str,
    job: &[u8],
    expected: &[u8],
) -> anyhow::Result<()> {
    // The library's error has other words.
    let printed = job::run(rt.alloc(), job).map_err(|_| anyhow!("there is too little memory"))?;
    let agrees = printed.as_bytes() == expected;
    tally.count(agrees);
    if !agrees {
        println!(rt; "{name} differs")?;
    }
    Ok(())
}

// Runs the jobs that a list names, each with its printout in a file beside it.
fn run_files(rt: &HostRuntime, list: &str) -> anyhow::Result<Tally> {
    let heap = rt.alloc();
    let names = fs::read_to_string(rt, list)?;
    let mut tally = Tally::new();
    for name in names.lines() {
        let file = format!(in heap; "{name}.job")?;
        let job = fs::read(rt, file.as_str())?;
        let expected = fs::read(rt, format!(in heap; "{name}.out")?.as_str())?;
        run_case(
            rt,
            &mut tally,
            file.as_str(),
            job.as_slice(),
            expected.as_slice(),
        )?;
    }
    Ok(tally)
}

// Runs the jobs that are lines of a text. A line that begins with `#` says what the next ones are about.
fn run_lines(rt: &HostRuntime, name: &str) -> anyhow::Result<Tally> {
    let heap = rt.alloc();
    let text = fs::read_to_string(rt, name)?;
    let mut tally = Tally::new();
    for (i, line) in text.lines().enumerate() {
        if line.starts_with('#') {
            continue;
        }
        let place = format!(in heap; "{name} line {}", i.saturating_add(1))?;
        let (job, expected) = parts(line);
        let job = job_of(heap, job)?;
        let expected = printout_of(heap, expected)?;
        run_case(
            rt,
            &mut tally,
            place.as_str(),
            job.as_slice(),
            expected.as_bytes(),
        )?;
    }
    Ok(tally)
}

fn run(rt: &HostRuntime) -> anyhow::Result<()> {
    let files = run_files(rt, "names.txt")?;
    println!(rt; "jobs in files: {files}")?;
    let lines = run_lines(rt, "small.txt")?;
    println!(rt; "jobs in lines: {lines}")?;
    ensure!(
        files.all_agree() && lines.all_agree(),
        "some jobs do not agree"
    );
    Ok(())
}

fn main(rt: HostRuntime) -> anyhow::Result<()> {
    run(&rt)
}
