//! Three questions about repetition in a strip, asked of any keeper about fragments of it: the places of a
//! pattern in a field, the overlaps of two fragments, and the periods of a fragment. They are one text for
//! all keepers and for any pile of layers, since they know a keeper by its four answers alone. An answer is
//! absent, or a first number, a step and a count. Nothing is allocated.
#![tactic(auto)]

mod alone;
mod found;
mod overlap;
mod parts;
mod period;
mod place;
mod refusal;

pub use found::Found;
pub use overlap::overlaps;
pub use period::{RECORDS, periods};
pub use place::places;
pub use refusal::Refusal;
