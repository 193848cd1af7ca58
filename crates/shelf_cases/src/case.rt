//! A case: what a line asks of a shelf, and the answer that comes.

use crate::call::Receiver;
use crate::spelling::{OrNone, Spelled, Told, Whole, number, spell_cells, word};
use anyhow::anyhow;
use cells::{CellKind, Day, Glyph};
use rows::{MAX_ROWS, Row, Shape};
use shelf::Shelf;
use std::alloc::{AllocError, Global};

// The shelf that cases ask, and the memory that their texts are made in.
#[derive(Drop)]
pub(crate) struct Bench {
    pub(crate) heap: Global,
    pub(crate) shelf: Shelf,
}

fn mixed(total: u64, value: u64) -> u64 {
    total.wrapping_mul(1_000_003).wrapping_add(value)
}

// The shapes have the numbers by which tools/shelf_by_the_rules.py sums them up.
fn mixed_row(total: u64, row: Row) -> u64 {
    let (shape, first, second) = match row.shape {
        Shape::Leaf { code } => (0, u64::from(code), 0),
        Shape::Pair { left, right } => (1, u64::from(left), u64::from(right)),
        Shape::Repeat { part, times } => (2, u64::from(part), u64::from(times)),
    };
    let length = u64::from(row.length);
    let round = u64::from(row.round);
    [shape, first, second, length, round]
        .into_iter()
        .fold(total, mixed)
}

impl Bench {
    pub(crate) fn new(heap: Global) -> Self {
        let shelf = Shelf::new::<Glyph>();
        Bench { heap, shelf }
    }

    fn empty<K: CellKind>(&mut self) -> Result<String, AllocError> {
        self.shelf = Shelf::new::<K>();
        let kind = self.shelf.kind_number();
        let count = self.shelf.count();
        format!(in self.heap; "kind {kind}, {count} rows")
    }

    fn row(&self, text: &str) -> anyhow::Result<String> {
        let row = self.shelf.row(number(text.split(' ').next())?).map(Whole);
        Ok(format!(in self.heap; "{}", OrNone(row))?)
    }

    fn length(&self, text: &str) -> anyhow::Result<String> {
        let length = self.shelf.length_of(number(text.split(' ').next())?);
        Ok(format!(in self.heap; "{}", OrNone(length))?)
    }

    // A sum over all rows, so that one that was altered shows.
    fn sum(&self) -> Result<String, AllocError> {
        // A cast, since 1,024 fits.
        let total = (1..=MAX_ROWS as u16).fold(0, |total, number| match self.shelf.row(number) {
            Some(row) => mixed_row(total, row),
            None => mixed(total, 3),
        });
        format!(in self.heap; "{total}")
    }

    // Writes out a part of a strip into a list of fillers.
    fn write_part<K: Spelled + Copy>(&self, text: &str) -> anyhow::Result<String> {
        let mut words = text.split(' ');
        let row = number(words.next())?;
        let start = number(words.next())?;
        let mut cells = vec![in self.heap; K::FILLER; number(words.next())?]?;
        let written = self.shelf.write_out(row, start, cells.as_mut_slice());
        let outcome = Told(written.map(|()| "ok"));
        let cells = spell_cells(self.heap, cells.as_slice())?;
        Ok(format!(in self.heap; "{outcome}:{cells}")?)
    }

    // What is read of a shelf. Any word that names nothing else is read as `write`.
    fn read<K: Spelled + Copy>(&self, name: &str, rest: &str) -> anyhow::Result<String> {
        match name {
            "row" => self.row(rest),
            "length" => self.length(rest),
            "sum" => Ok(self.sum()?),
            _ => self.write_part::<K>(rest),
        }
    }

    fn answer_of_kind<K: Spelled + Copy>(&mut self, text: &str) -> anyhow::Result<String> {
        let (name, rest) = word(text);
        match name {
            "new" => Ok(self.empty::<K>()?),
            "send" => self.send::<K>(rest, Receiver::Present),
            "begin" => self.send::<K>(rest, Receiver::New),
            "each" => self.each::<K>(rest),
            "take" | "join" | "cut" => self.perform_call::<K>(text),
            _ => self.read::<K>(name, rest),
        }
    }

    // The answer to a line, which begins with the kind of cell that it is about.
    pub(crate) fn answer(&mut self, line: &str) -> anyhow::Result<String> {
        let (kind, rest) = word(line);
        match kind {
            "glyphs" => self.answer_of_kind::<Glyph>(rest),
            "days" => self.answer_of_kind::<Day>(rest),
            _ => Err(anyhow!("a line names no kind")),
        }
    }
}
