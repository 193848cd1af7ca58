//! A progression of one number.

ghost use Rattle.std.specs.Prelude.{◌≡◌};
ghost use Rattle.periodicity.specs.Progressions.{triple};

use periodicity::Progression;

// The number alone.
pub(crate) fn alone(number: usize) -> Progression
    ensures { result ≡ triple number 0 1 }
{
    Progression {
        first: number,
        step: 0,
        count: 1,
    }
}
