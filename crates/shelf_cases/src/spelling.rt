//! How cells, answers and the numbers of a case are spelled.

use cells::{CellKind, Day, Glyph};
use rows::{Row, Shape};
use shelf::Refusal;
use std::alloc::{AllocError, Global};
use std::error::Error;
use std::fmt;
use std::fmt::Write;
use std::str::FromStr;

/// A kind whose cells can be spelled with all their fields: a glyph as its number, a day as `day.weekday.mark.note`. A
/// trait of its own, since a crate gives no type of another crate a trait of a third, such as `FromStr`.
pub trait Spelled: CellKind {
    /// What a list holds before it is written to, so that a place that nothing is written to shows.
    const FILLER: Self;

    /// The cell that a word spells; an error where a field is missing, is no number or does not fit.
    fn read(word: &str) -> anyhow::Result<Self>;

    /// The cell as `read` reads it, printable or not. The only error is that memory runs out.
    fn spell(&self, heap: Global) -> Result<String, AllocError>;

    /// Whether both cells are spelled the same. Not by `==` alone, which leaves the note of a day out.
    fn spelled_alike(&self, other: &Self) -> bool;
}

impl Spelled for Glyph {
    const FILLER: Glyph = Glyph(7777);

    fn read(word: &str) -> anyhow::Result<Glyph> {
        Ok(Glyph(word.parse()?))
    }

    fn spell(&self, heap: Global) -> Result<String, AllocError> {
        format!(in heap; "{}", self.0)
    }

    fn spelled_alike(&self, other: &Glyph) -> bool {
        self == other
    }
}

impl Spelled for Day {
    const FILLER: Day = Day {
        day: 9,
        weekday: 9,
        mark: 9,
        note: 9,
    };

    fn read(word: &str) -> anyhow::Result<Day> {
        let mut fields = word.split('.');
        Ok(Day {
            day: number(fields.next())?,
            weekday: number(fields.next())?,
            mark: number(fields.next())?,
            note: number(fields.next())?,
        })
    }

    fn spell(&self, heap: Global) -> Result<String, AllocError> {
        format!(in heap; "{}.{}.{}.{}", self.day, self.weekday, self.mark, self.note)
    }

    fn spelled_alike(&self, other: &Day) -> bool {
        self == other && self.note == other.note
    }
}

// The first word of a text, and what follows it.
pub(crate) fn word(text: &str) -> (&str, &str) {
    text.split_once(' ').unwrap_or((text, ""))
}

// The number that a word spells; one that is missing is read as an empty word, and so
// refused as one.
pub(crate) fn number<T: FromStr>(word: Option<&str>) -> anyhow::Result<T>
where
    T::Err: Error + Drop,
{
    Ok(word.unwrap_or("").parse::<T>()?)
}

// Cells with spaces between; `5x3` is three cells.
pub(crate) fn read_cells<K: Spelled + Copy>(heap: Global, text: &str) -> anyhow::Result<Vec<K>> {
    let mut cells = Vec::new(heap);
    for word in text.split_whitespace() {
        let (cell, times) = word.split_once('x').unwrap_or((word, "1"));
        // Before the times, so that of two faults the first is told.
        let cell = K::read(cell)?;
        let len = cells.len().saturating_add(times.parse::<usize>()?);
        cells.resize(len, cell)?;
    }
    Ok(cells)
}

// Cells as `read_cells` reads them, with a space before each cell or run of cells. Only the first cell of a run is
// spelled, so that no list of texts is kept.
pub(crate) fn spell_cells<K: Spelled>(heap: Global, cells: &[K]) -> Result<String, AllocError> {
    let mut text = String::new(heap);
    for run in cells.chunk_by(|one, next| one.spelled_alike(next)) {
        match run {
            [] => {}
            [cell] => write!(text, " {}", cell.spell(heap)?)?,
            [cell, ..] => write!(text, " {}x{}", cell.spell(heap)?, run.len())?,
        }
    }
    Ok(text)
}

// What a call answers, or its refusal: that by its number, with the place where it tells one.
#[derive(Drop)]
pub(crate) struct Told<T>(pub(crate) Result<T, Refusal>);

impl<T: fmt::Display> fmt::Display for Told<T> {
    fn fmt<W: fmt::Write>(&self, f: &mut fmt::Formatter<W>) -> fmt::Result {
        match &self.0 {
            Ok(answer) => write!(f, "{answer}"),
            Err(refusal) => {
                write!(f, "refusal {}", refusal.number())?;
                match refusal {
                    Refusal::Unprintable { place } => write!(f, " at {place}"),
                    _ => Ok(()),
                }
            }
        }
    }
}

// What a shelf knows, or that it knows nothing.
#[derive(Drop)]
pub(crate) struct OrNone<T>(pub(crate) Option<T>);

impl<T: fmt::Display> fmt::Display for OrNone<T> {
    fn fmt<W: fmt::Write>(&self, f: &mut fmt::Formatter<W>) -> fmt::Result {
        match &self.0 {
            Some(known) => write!(f, "{known}"),
            None => f.write_str("none"),
        }
    }
}

// A row with all its fields.
#[derive(Drop)]
pub(crate) struct Whole(pub(crate) Row);

impl fmt::Display for Whole {
    fn fmt<W: fmt::Write>(&self, f: &mut fmt::Formatter<W>) -> fmt::Result {
        match self.0.shape {
            Shape::Leaf { code } => write!(f, "leaf {code}")?,
            Shape::Pair { left, right } => write!(f, "pair {left} {right}")?,
            Shape::Repeat { part, times } => write!(f, "repeat {part} {times}")?,
        }
        write!(f, ", length {}, round {}", self.0.length, self.0.round)
    }
}
