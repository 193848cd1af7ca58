//! The plain book: what takes, joins and cuts write, answer and leave, told from their arguments, the length of the work
//! area and the book alone, for every kind of cell; and its law, that one strip has one number and one number one strip,
//! over any list of calls.
#![tactic(auto)]

ghost use Rattle.cells.specs.Giving.{given_by};
ghost use Rattle.book.specs.Laws.{CutsKeep, JoinsKeep, NewIsLawful, RunsGoOn, RunsKeep, TakesKeep};

use cells::CellKind;

/// The law of the plain book, for every kind of cell that shows the laws of a kind. A book that begins with lawful rows of
/// the kind, as one with no rows does, is kept so by any list of calls, with any work lengths; and any two of these calls
/// that are answered by the numbers of strips have equal numbers exactly when the strips that they wrote are the same,
/// cell for cell.
///
/// Single calls are covered too: what a take, a join or a cut on a shelf answers and leaves is the turn of the book, so
/// each is one call more at the end of the list of those before it.
pub fn law_of_the_book<K: CellKind>()
    ensures new { NewIsLawful }
    ensures law { RunsKeep K.coded K.has (given_by K.has K.spelled K.BLANK) K.same }
    ensures goes_on { RunsGoOn K.coded }
{}

/// What a single take keeps of the book, and that the number which it answers writes the same cells, now and after any
/// rows are added.
pub fn law_of_takes<K: CellKind>()
    ensures { TakesKeep K.coded K.has (given_by K.has K.spelled K.BLANK) K.same }
{}

/// What a single join or cut keeps of the book, whichever kind its rows are of, and that the number which it answers
/// writes the two strips, or the part, now and after any rows are added.
pub fn law_of_joins_and_cuts()
    ensures joins { JoinsKeep }
    ensures cuts { CutsKeep }
{}
