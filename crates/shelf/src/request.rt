//! Requests to a shelf: takes, joins and cuts that are sent as a list.
use crate::refusal::Refusal;
use periodicity::Fragment;

/// What a request asks for.
#[derive(Clone, Copy)]
pub enum Request<'a, K> {
    /// The number that cells come to.
    Take { cells: &'a [K] },
    /// The number that two strips, one after the other, come to.
    Join { left: u16, right: u16 },
    /// The number that a part of a strip comes to.
    Cut { number: u16, part: Fragment },
}

/// A request with the number of work places that it may use, at most those that there are.
#[derive(Clone, Copy)]
pub struct Sent<'a, K> {
    pub request: Request<'a, K>,
    pub places: usize,
}

/// The number that a request was answered with, or why it was refused.
pub type Answer = Result<u16, Refusal>;
