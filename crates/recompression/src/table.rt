//! A table of rows: those in use keep the lengths of their strips, no two of them are alike, and the slots after them
//! are blank.
ghost use Rattle.recompression.specs.Tables.{Sound};

use crate::slots::Slots;
pub use crate::table::expansion::OutOfStrip;
pub use crate::table::settle::{Reached, Unsettled};

mod codes;
mod expansion;
mod filing;
mod pairing;
mod reading;
mod rounds;
mod settle;
mod stretch;

/// Rows filed by their shapes: at most 1,024, numbered from 1 in the order in which they were added. Number 0 stands for
/// the empty strip.
#[derive(Drop)]
pub struct Table {
    slots: Slots,
    ghost sound: { Sound slots },
}
