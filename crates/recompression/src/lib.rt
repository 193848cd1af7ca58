//! Recompression on a table of rows. A shape is filed under the number of its row; a string of numbers is run
//! through the rounds, in place, until one number is left; and the leaves of a row are written out again, from
//! any place on. A table has room for 1,024 rows, and a string of 65,535 numbers at most is settled.
#![tactic(auto)]

mod index;
mod slots;
mod table;

pub use table::{OutOfStrip, Reached, Table, Unsettled};
