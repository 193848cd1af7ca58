//! Worked examples: small cases, worked out by hand, of what the definitions that the contracts of the
//! code cite come to. They stand in one table, a file of `specs/` for each subject, with those of jobs beside it,
//! and are shown here.
#![tactic(auto)]

ghost use Rattle.std.specs.Prelude.{◌≡◌, length};
ghost use Rattle.worked.specs.Examples.{AllHold};
ghost use Rattle.worked.specs.Jobs.{jobs_examples};
ghost use Rattle.worked.specs.Table.{worked_table};

// How many examples there are of codes and of longest common extensions.
const AGREEMENT: usize = 10;

// .. of the places of a pattern in a field.
const PLACES: usize = 11;

// .. of the overlaps of two fragments.
const OVERLAPS: usize = 10;

// .. of the periods of a fragment.
const PERIODS: usize = 14;

// .. of the rows and rounds of a shelf.
const SHELF: usize = 13;

/// Every example of the table holds, and so many there are.
pub fn worked_examples() -> usize
    ensures hold { AllHold worked_table }
    ensures counted { result ≡ length worked_table }
{
    AGREEMENT + PLACES + OVERLAPS + PERIODS + SHELF
}

// How many examples there are of jobs.
const JOBS: usize = 5;

/// Every example of jobs holds, and so many there are.
pub fn worked_jobs() -> usize
    ensures hold { AllHold jobs_examples }
    ensures counted { result ≡ length jobs_examples }
{
    JOBS
}
