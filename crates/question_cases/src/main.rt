//! Runs files of cases through the questions, and says how many answers are the expected ones: of the caller's codes,
//! and of the same strip on a shelf.
#![tactic(auto)]

mod asked;
mod case;
mod tallies;

use anyhow::ensure;
use case::Case;
use std::fs;
use tallies::Tallies;

// Runs the cases of a file, a line for each, and prints those whose answer is another; then how many agree.
fn run_file(rt: &HostRuntime, name: &str) -> anyhow::Result<Tallies> {
    let heap = rt.alloc();
    let text = fs::read_to_string(rt, name)?;
    let mut tallies = Tallies::default();
    for (i, line) in text.lines().enumerate() {
        let case = Case::of(line);
        let expected = case.expected(heap)?;
        let got = case.run(heap)?;
        let on_shelf = case.on_shelf(heap)?;
        let agrees = expected == got && expected == on_shelf;
        tallies.count(case.question, agrees);
        if !agrees {
            let number = i.saturating_add(1);
            println!(rt;
                "{name} line {number}: expected {}, got {}, and {} on a shelf",
                expected.trim(),
                got.trim(),
                on_shelf.trim()
            )?;
        }
    }
    println!(rt; "{name}: places {}", tallies.places)?;
    println!(rt; "{name}: overlaps {}", tallies.overlaps)?;
    println!(rt; "{name}: periods {}", tallies.periods)?;
    if tallies.others > 0 {
        println!(rt; "{name}: {} lines name no question", tallies.others)?;
    }
    Ok(tallies)
}

fn run(rt: &HostRuntime) -> anyhow::Result<()> {
    let plain = run_file(rt, "questions.txt")?;
    let layered = run_file(rt, "layered.txt")?;
    ensure!(
        plain.all_agree() && layered.all_agree(),
        "some cases do not agree"
    );
    Ok(())
}

fn main(rt: HostRuntime) -> anyhow::Result<()> {
    run(&rt)
}
