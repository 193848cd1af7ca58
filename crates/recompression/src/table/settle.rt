//! The rounds, run in place on a string of numbers until at most one is left. For known numbers that is always
//! reached; of others, which no shelf passes on, the rounds may leave more, and the first of these is answered.
ghost use Rattle.std.specs.Prelude.{◌≡◌, ◌≤◌, length, replicate};
ghost use Rattle.recompression.specs.Contents.{rows_in};
ghost use Rattle.rows.specs.Rounds.{enough_rounds};
ghost use Rattle.recompression.specs.Settlements.{KeepsRounds, RunThrough, StopsFirstAt, all_rounds, reached_with, settlement, settlement_of};

use crate::table::Table;
use rows::MAX_CELLS;

// Any 44 rounds on end make a string of two or more known numbers shorter.
const ROUNDS_PER_NUMBER: u32 = 44;

/// What a string of numbers comes to.
#[derive(Clone, Copy, PartialEq, Eq, Debug)]
pub struct Reached {
    /// The number that is left: 0 of an empty string.
    pub number: u16,
    /// How many rounds were run: 0 of a string of one number or none.
    pub rounds: u32,
}

/// Why a string of numbers comes to none.
#[derive(Clone, Copy, PartialEq, Eq, Debug)]
pub enum Unsettled {
    /// It has more than 65,535 numbers.
    TooLong,
    /// It needs more rows than the table has room for.
    Full,
}

// So many rounds are enough for a string of that many numbers. The checker proves that the cast fits; `try_from`
// would have an error that never comes.
fn rounds_for(size: usize) -> u32
    requires { size ≤ 65535 }
    ensures { result ≡ enough_rounds size }
{
    ROUNDS_PER_NUMBER * size as u32
}

impl Reached {
    // What a string has come to after so many rounds.
    fn of(numbers: &[u16], rounds: u32) -> Reached
        ensures { result ≡ reached_with numbers.now rounds }
    {
        let number = numbers.first().copied().unwrap_or(0);
        Reached { number, rounds }
    }
}

impl Table {
    // Runs the rounds, and answers what they come to; none where the table is full.
    fn run_rounds(&mut self, numbers: &mut [u16]) -> Option<Reached>
        requires { length numbers.old ≤ 65535 }
        ensures { RunThrough (rows_in self.old) numbers.old result (rows_in self.new) }
    {
        let most = rounds_for(numbers.len());
        let mut size = numbers.len();
        let mut rounds = 0;
        while size > 1 && rounds < most {
            rounds += 1;
            size = self.run_round(rounds, &mut numbers[..size])?;
        }
        Some(Reached::of(&numbers[..size], rounds))
    }

    // Runs the rounds, and takes the rows that they added off again where the table is full.
    fn run_or_undo(&mut self, numbers: &mut [u16]) -> Result<Reached, Unsettled>
        requires { length numbers.old ≤ 65535 }
        ensures answer { result ≡ (settlement_of (rows_in self.old) (all_rounds (rows_in self.old) numbers.old)).answer }
        ensures rows { rows_in self.new ≡ (settlement_of (rows_in self.old) (all_rounds (rows_in self.old) numbers.old)).rows }
    {
        let count = self.count();
        let reached = self.run_rounds(numbers);
        if reached.is_none() {
            self.truncate(count);
        }
        reached.ok_or(Unsettled::Full)
    }

    /// The number that a string of numbers comes to, which gets its rows, and how many rounds that took. The work is
    /// done in the slice, which is all zeros afterwards, also where the string is refused; the rows are then as they
    /// were.
    // The length is tested once, here: a struct over the slice would hold the `&mut` that `fill` needs back.
    #[tactic(auto, using(crate::proofs::SettleFacts::stops_first_at, crate::proofs::SettleFacts::keeps_rounds))]
    pub fn settle(&mut self, numbers: &mut [u16]) -> Result<Reached, Unsettled>
        ensures answer { result ≡ (settlement (rows_in self.old) numbers.old).answer }
        ensures rows { rows_in self.new ≡ (settlement (rows_in self.old) numbers.old).rows }
        ensures first { StopsFirstAt (rows_in self.old) numbers.old result }
        ensures kept { KeepsRounds (rows_in self.old) numbers.old result (rows_in self.new) }
        ensures cleared { numbers.new ≡ replicate (length numbers.old) 0 }
    {
        let answer = if numbers.len() > MAX_CELLS {
            Err(Unsettled::TooLong)
        } else {
            self.run_or_undo(numbers)
        };
        numbers.fill(0);
        answer
    }
}
