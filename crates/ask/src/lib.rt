//! Questions about a strip, asked in lines of text. A line sets the strip, or asks about it as it is seen
//! through a window, reversed or as it stands; each question is answered by a line.
#![tactic(auto)]

mod answer;
mod number;
mod question;
mod session;
mod statement;
mod words;

pub use answer::{Answer, Asking, Through, ask_through};
pub use question::{Layers, Question};
pub use session::transcript;
pub use statement::{Statement, parse};
