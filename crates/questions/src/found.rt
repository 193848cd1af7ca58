//! What was found, as it is shown.

ghost use Rattle.std.specs.Prelude.{Some};
ghost use Rattle.questions.specs.Found.{found_shown};
ghost use Rattle.questions.specs.Outcomes.{outcome};

use crate::refusal::Refusal;
use periodicity::Progression;
use std::fmt;

/// The answer to a question about places or overlaps, to be shown: `2 3 4` for the first number, the step and the
/// count, `none` where nothing was found, and `refused 8` where the question is refused, by the refusal's number.
#[derive(Clone, Copy)]
pub struct Found(pub Result<Option<Progression>, Refusal>);

impl fmt::Display for Found {
    ghost output = { λ found. Some (found_shown (outcome found.0)) };

    fn fmt<W: fmt::Write>(&self, f: &mut fmt::Formatter<W>) -> fmt::Result {
        match self.0 {
            Ok(Some(p)) => write!(f, "{p}"),
            Ok(None) => write!(f, "none"),
            Err(refusal) => write!(f, "refused {}", refusal.number()),
        }
    }
}
