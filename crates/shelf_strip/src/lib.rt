//! A strip on a shelf as a keeper: how far it agrees from two places on, or just before them, is found from
//! row to part, and what one row says of both places is skipped at once. Nothing is allocated, and the strip is
//! never written out.
#![tactic(auto)]

mod cursor;
mod length;
mod strip;

pub use strip::ShelfStrip;
