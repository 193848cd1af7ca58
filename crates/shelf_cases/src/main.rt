//! Runs cases on real shelves, and compares their answers with those that the rules ask for, which the data
//! files hold. The last line says how many agree; where one does not, the program fails too.
#![tactic(auto)]

mod call;
mod case;
mod spelling;

use anyhow::ensure;
use case::Bench;
use std::fs;
use tally::Tally;

// What a line `asked = expected` asks, and the answer that it expects. A line that has none expects what no shelf
// answers, so that it is printed among those that differ. Lines of jobs have another mark, and a reader of their own.
fn parts(line: &str) -> (&str, &str) {
    line.split_once(" = ").unwrap_or((line, "an answer"))
}

// Runs a case; where it agrees, it is printed only when `all` are.
fn run_case(
    rt: &HostRuntime,
    bench: &mut Bench,
    asked: &str,
    expected: &str,
    all: bool,
) -> anyhow::Result<bool> {
    let got = bench.answer(asked)?;
    let agrees = got.as_str() == expected;
    if !agrees {
        println!(rt; "{asked} = {got}: DIFFERS from {expected}")?;
    } else if all {
        println!(rt; "{asked} = {got}: agrees")?;
    }
    Ok(agrees)
}

// Runs the lines of a file, on shelves that its lines make new.
fn run_file(rt: &HostRuntime, name: &str, all: bool) -> anyhow::Result<Tally> {
    let text = fs::read_to_string(rt, name)?;
    let mut bench = Bench::new(rt.alloc());
    let mut tally = Tally::new();
    for line in text.lines() {
        if line.starts_with('#') {
            println!(rt; "{line}")?;
        } else {
            let (asked, expected) = parts(line);
            tally.count(run_case(rt, &mut bench, asked, expected, all)?);
        }
    }
    Ok(tally)
}

// The large files are counted, and only their differences printed.
fn run(rt: &HostRuntime) -> anyhow::Result<()> {
    let mut total = run_file(rt, "cases.txt", true)?;
    for name in ["few_glyphs.txt", "many_glyphs.txt", "some_days.txt"] {
        let tally = run_file(rt, name, false)?;
        println!(rt; "{name}: {tally}")?;
        total.add(tally);
    }
    println!(rt; "{} of {} cases agree", total.agree, total.run)?;
    ensure!(total.all_agree(), "some cases do not agree");
    Ok(())
}

fn main(rt: HostRuntime) -> anyhow::Result<()> {
    run(&rt)
}
