//! Why a program gives up: standard input or output failed it, or there was too little memory. A failure prints as
//! a sentence, followed by what the system said where a stream failed.
#![tactic(auto)]

mod failure;

pub use failure::{Failure, exit_code};
