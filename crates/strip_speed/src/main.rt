//! Asks for 1.5 million extensions in strips of 65,535 cells, and prints what they come to. Code by code that
//! would be billions of comparisons, and the program would run for long; what is compared is its output.
#![tactic(auto)]

mod pattern;

use anyhow::anyhow;
use cells::Glyph;
use keepers::{Keeper, Side};
use pattern::Pattern;
use shelf::Shelf;
use shelf_strip::ShelfStrip;

// The places that every other place is compared with; the same, counted from the end, behind.
const PLACES: [usize; 3] = [0, 7, 4_096];

// All that agrees on a side of one place and every other.
fn total(strip: &ShelfStrip, side: Side, i: usize) -> usize {
    (0..=strip.len())
        .map(|j| strip.extension(side, i, j).unwrap_or(0))
        .fold(0, usize::saturating_add)
}

fn run_pattern(rt: &HostRuntime, pattern: Pattern) -> anyhow::Result<()> {
    let heap = rt.alloc();
    let cells = pattern.cells(heap)?;
    let mut work = vec![in heap; 0u16; cells.len()]?;
    let mut shelf = Shelf::new::<Glyph>();
    let number = shelf
        .take(cells.as_slice(), work.as_mut_slice())
        .map_err(|_| anyhow!("a strip was refused"))?;
    let strip = ShelfStrip::new(&shelf, number);
    let length = strip.len();
    println!(rt; "{pattern}: {length} cells")?;
    for place in PLACES {
        let ahead = total(&strip, Side::Ahead, place);
        let behind = total(&strip, Side::Behind, length.saturating_sub(place));
        println!(rt; "from {place}: ahead {ahead}, behind {behind}")?;
    }
    Ok(())
}

fn run(rt: &HostRuntime) -> anyhow::Result<()> {
    for pattern in Pattern::ALL {
        run_pattern(rt, pattern)?;
    }
    Ok(())
}

fn main(rt: HostRuntime) -> anyhow::Result<()> {
    run(&rt)
}
