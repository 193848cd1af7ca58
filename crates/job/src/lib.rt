//! Jobs: commands in bytes that fill a tray, file its glyphs on an empty glyph shelf, join and cut strips and ask
//! for places; and the lines that they print.
#![tactic(auto)]

mod command;
mod desk;
mod line;
mod running;

pub use command::Command;
pub use desk::Desk;
pub use line::Line;
pub use running::{MOST_BYTES, run};
