//! Rows of a shelf: a run-length straight-line program in which each strip has one number. A row is a leaf
//! with a code, a pair of two smaller rows, or a repeat of one. Definitions and theory stand here: the
//! strips that rows write, the recompression rounds, and the properties of a shelf's rows. The functions
//! `laws_of_rounds`, `laws_of_blocks` and `laws_of_rows` do nothing: their contracts are the theory's laws.
#![tactic(auto)]

ghost use Rattle.rows.specs.Blocks.{
  BlocksCutUp,
  StretchesRepeat,
  PairsMade,
  SeamsRead,
  BlocksSpell,
  BlocksLocal,
};
ghost use Rattle.rows.specs.Laws.{
  RoundsEnd,
  StripKept,
  RowsKept,
  Replays,
  RoundKeepsStrip,
  RoundsShorten,
  SettlesByRounds,
  StringStopsFirst,
  StopsFirst,
  NoRounds,
  RoundsKept,
  LawfulBetween,
  PartsAreFragments,
  StripsStay,
  FrontLawful,
  ShapesTell,
};

/// What a row is made of. Parts are numbers of rows; number 0 stands for the empty strip.
#[derive(Clone, Copy, PartialEq, Eq, Debug)]
pub enum Shape {
    /// One cell, by its code.
    Leaf { code: u32 },
    /// The left part and then the right part.
    Pair { left: u16, right: u16 },
    /// A part, so many times.
    Repeat { part: u16, times: u16 },
}

/// A row also keeps the length of its strip and the round that makes it.
#[derive(Clone, Copy, PartialEq, Eq, Debug)]
pub struct Row {
    pub shape: Shape,
    /// In cells.
    pub length: u16,
    /// Counted from 1; 0 for a leaf.
    pub round: u32,
}

/// A row that is not in use. It is written out, since a constant cannot call `default`.
pub const BLANK: Row = Row {
    shape: Shape::Leaf { code: 0 },
    length: 0,
    round: 0,
};

/// The most rows that a shelf has.
pub const MAX_ROWS: usize = 1024;

/// The most cells that a strip has.
pub const MAX_CELLS: usize = 65_535;

/// The laws of the rounds, which the law of one strip and one number rests on. Of settling a strip: the rounds leave at
/// most one number (`end`), that writes the strip (`strip`); the rows are lawful again and begin with those of before
/// (`rows`); on all rows that come after, the strip settles alike (`replay`). Of one round: it keeps the strip (`keep`),
/// and any 44 on end shorten a string of two or more (`shorten`). Of their count: what settling leaves is what so many
/// rounds leave (`run`); of any string, fewer than were run leave two numbers or more (`string_first`), and so of a strip
/// (`first`); at most one cell takes none (`none`); and the number's row keeps the count (`kept`). Between rounds the rows
/// are lawful (`between`), and each part of the string stands for a fragment of the strip that comes to it alone
/// (`fragments`).
///
/// `end`, `strip`, `rows`, `kept`, `between` and `fragments` are of strips of at most 65,535 codes on lawful rows; `keep`
/// is of strings of numbers of lawful rows, and `shorten` of strings of known numbers on at most 1,024 rows. The others
/// are of all strips, strings and rows.
pub fn laws_of_rounds()
    // What settling a strip leaves.
    ensures end { RoundsEnd }
    ensures strip { StripKept }
    ensures rows { RowsKept }
    ensures replay { Replays }

    // What a round does.
    ensures keep { RoundKeepsStrip }
    ensures shorten { RoundsShorten }

    // How many rounds are run.
    ensures run { SettlesByRounds }
    ensures string_first { StringStopsFirst }
    ensures first { StopsFirst }
    ensures none { NoRounds }
    ensures kept { RoundsKept }

    // What stands after any number of rounds.
    ensures between { LawfulBetween }
    ensures fragments { PartsAreFragments }
{}

/// The laws of the blocks that a round cuts a string up into. They are the one list that spells the string, has only
/// blocks of the round's form, and has no two neighbours that would merge (`cut`); so a longest stretch of equal numbers
/// is one block in odd rounds (`stretches`), and a left number with the right one after it in even rounds (`pairs`). Two
/// strings side by side are cut up alone exactly where their seam does not merge (`seam`); blocks spell the whole string
/// (`spell`), and are those of their own numbers alone (`local`).
pub fn laws_of_blocks()
    // What the blocks are, ..
    ensures cut { BlocksCutUp }
    ensures stretches { StretchesRepeat }
    ensures pairs { PairsMade }

    // .. and how they stand side by side.
    ensures seam { SeamsRead }
    ensures spell { BlocksSpell }
    ensures local { BlocksLocal }
{}

/// The laws of the rows of a shelf: a known number keeps its strip when rows are added (`stay`); the first of lawful rows
/// are lawful (`front`); and lawful rows are told by their shapes alone, from which the lengths and the rounds that they
/// keep follow (`shapes`).
pub fn laws_of_rows()
    ensures stay { StripsStay }
    ensures front { FrontLawful }
    ensures shapes { ShapesTell }
{}
