//! The shelf: strips of cells filed under numbers, so that one strip has one number and one number has one
//! strip, over any history of takes, joins, cuts and refusals.
#![tactic(auto)]

ghost use Rattle.recompression.specs.Contents.{UnusedBlank, rows_in};
ghost use Rattle.rows.specs.Lawful.{Lawful};

mod cutting;
mod joining;
mod leaves;
mod printable;
mod reading;
mod refusal;
mod request;
mod sending;
mod taking;
mod work;
mod writing;

use recompression::Table;
pub use refusal::Refusal;
pub use request::{Answer, Request, Sent};

/// Rows in use that keep what every shelf promises, and the number of their kind of cell.
///
/// Calls that take or give cells say of which kind they are; the shelf knows the kind by its number alone.
///
/// The law of one strip and one number is a clause of `send` and `begin`, which take lists of requests. A caller who sends
/// single takes, joins and cuts has it too: each leaves the shelf as one more call leaves the plain book (its clause
/// `outcome`), and the book's law (`law_of_the_book`) is about any list of calls.
#[derive(Drop)]
pub struct Shelf {
    table: Table,
    kind: u8,
    ghost lawful: { Lawful (rows_in table) },
    ghost unused: { UnusedBlank table },
}
