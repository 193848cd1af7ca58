//! How many cases were run of each question, and how many of them agree.

use tally::Tally;

/// A tally for each question. A line that names none of them agrees with nothing.
#[derive(Clone, Copy, Default)]
pub struct Tallies {
    /// Of questions about places.
    pub places: Tally,
    /// Of questions about overlaps.
    pub overlaps: Tally,
    /// Of questions about periods.
    pub periods: Tally,
    /// How many lines name none of them.
    pub others: usize,
}

impl Tallies {
    pub(crate) fn count(&mut self, question: &str, agrees: bool) {
        match question {
            "places" => self.places.count(agrees),
            "overlaps" => self.overlaps.count(agrees),
            "periods" => self.periods.count(agrees),
            _ => self.others = self.others.saturating_add(1),
        }
    }

    // Whether every line names a question, and its answer agrees.
    pub(crate) fn all_agree(self) -> bool {
        self.others == 0
            && [self.places, self.overlaps, self.periods]
                .into_iter()
                .all(Tally::all_agree)
    }
}
