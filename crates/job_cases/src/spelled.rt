//! A small job as a line spells it: `43 00 05 54 58 = T 1 / job stopped at 4`, its bytes in base 16 and the lines
//! of its printout.

use std::alloc::{AllocError, Global};

// The job and its printout. A line that has none expects what no job prints, so that it is named among those that differ.
pub(crate) fn parts(line: &str) -> (&str, &str) {
    line.split_once('=')
        .map_or((line, "a printout"), |(job, printout)| {
            (job.trim(), printout.trim())
        })
}

pub(crate) fn job_of(heap: Global, text: &str) -> anyhow::Result<Vec<u8>> {
    text.split_whitespace()
        .map(|word| -> anyhow::Result<u8> { Ok(u8::from_str_radix(word, 16)?) })
        .try_collect(heap)
}

// A line for each part between slashes; an empty text is no line.
pub(crate) fn printout_of(heap: Global, text: &str) -> Result<String, AllocError> {
    let mut printout = String::new(heap);
    if text.is_empty() {
        return Ok(printout);
    }
    for line in text.split('/') {
        printout.push_str(line.trim())?;
        printout.push_str("\n")?;
    }
    Ok(printout)
}
