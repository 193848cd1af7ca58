//! Takes, joins and cuts as a line spells them: alone, or sent as a list.

use crate::case::Bench;
use crate::spelling::{Spelled, Told, number, read_cells};
use anyhow::anyhow;
use cells::CellKind;
use periodicity::Fragment;
use shelf::{Answer, Request, Sent, Shelf};
use std::alloc::{AllocError, Global};
use std::fmt;

// What a work area holds before a call.
const LEFTOVER: u16 = 43_981;

// What a place for an answer holds before a list is sent.
const UNTOUCHED: u16 = 60_000;

// What a line asks for. Not a `Request`, which borrows its cells: here they are read with the rest of the line.
#[derive(Drop)]
enum Act<K: Drop> {
    Take { cells: Vec<K> },
    Join { left: u16, right: u16 },
    Cut { number: u16, part: Fragment },
}

#[derive(Drop)]
struct Call<K: Drop> {
    act: Act<K>,
    places: usize,
}

fn read_join<K: Drop>(text: &str) -> anyhow::Result<Act<K>> {
    let mut words = text.split(' ');
    Ok(Act::Join {
        left: number(words.next())?,
        right: number(words.next())?,
    })
}

fn read_cut<K: Drop>(text: &str) -> anyhow::Result<Act<K>> {
    let mut words = text.split(' ');
    Ok(Act::Cut {
        number: number(words.next())?,
        part: Fragment {
            start: number(words.next())?,
            length: number(words.next())?,
        },
    })
}

impl<K: Spelled + Copy> Call<K> {
    // A line as `take 3 5 9 5`, `join 3 3 1` or `cut 3 7 1 3`: the first number is that of the work places. It is read
    // before the cells, so that of two faults the first is told, also where there is no memory for the cells.
    fn read(heap: Global, text: &str) -> anyhow::Result<Self> {
        let mut parts = text.splitn(3, ' ');
        let name = parts.next();
        let places = number(parts.next())?;
        let rest = parts.next().unwrap_or("");
        let act = match name {
            Some("take") => Act::Take {
                cells: read_cells(heap, rest)?,
            },
            Some("join") => read_join(rest)?,
            Some("cut") => read_cut(rest)?,
            _ => return Err(anyhow!("a line names no call")),
        };
        Ok(Call { act, places })
    }

    fn request(&self) -> Request<'_, K> {
        match &self.act {
            Act::Take { cells } => Request::Take {
                cells: cells.as_slice(),
            },
            Act::Join { left, right } => Request::Join {
                left: *left,
                right: *right,
            },
            Act::Cut { number, part } => Request::Cut {
                number: *number,
                part: *part,
            },
        }
    }

    fn sent(&self) -> Sent<'_, K> {
        Sent {
            request: self.request(),
            places: self.places,
        }
    }
}

// Performs a request by a call of its own, and not as a list of one.
fn perform<K: CellKind>(shelf: &mut Shelf, request: Request<'_, K>, work: &mut [u16]) -> Answer {
    match request {
        Request::Take { cells } => shelf.take(cells, work),
        Request::Join { left, right } => shelf.join(left, right, work),
        Request::Cut { number, part } => shelf.cut(number, part, work),
    }
}

// The shelf that a list of calls is sent to: the one there is, or a new one that takes its place.
#[derive(Clone, Copy)]
pub(crate) enum Receiver {
    Present,
    New,
}

// A work area that is not zero, as an earlier use may leave it.
fn work_area(heap: Global, places: usize) -> Result<Vec<u16>, AllocError> {
    vec![in heap; LEFTOVER; places]
}

// What is said of a work area after a call: nothing where it is all zeros, as it has to be.
fn said_of_work(work: &[u16]) -> &'static str {
    if work.iter().all(|place| *place == 0) {
        ""
    } else {
        ", with a work area that is not cleared"
    }
}

// The answers to a list, each with a mark before it.
#[derive(Clone, Copy)]
struct ToldAll<'a>(&'a [Answer]);

impl fmt::Display for ToldAll<'_> {
    fn fmt<W: fmt::Write>(&self, f: &mut fmt::Formatter<W>) -> fmt::Result {
        for answer in self.0 {
            write!(f, "; {}", Told(*answer))?;
        }
        Ok(())
    }
}

impl Bench {
    // Performs a call that a line spells.
    pub(crate) fn perform_call<K: Spelled + Copy>(&mut self, text: &str) -> anyhow::Result<String> {
        let call = Call::<K>::read(self.heap, text)?;
        let mut work = work_area(self.heap, call.places)?;
        let answer = Told(perform(&mut self.shelf, call.request(), work.as_mut_slice()));
        let count = self.shelf.count();
        let said = said_of_work(work.as_slice());
        Ok(format!(in self.heap; "{answer}, {count} rows{said}")?)
    }

    // Sends calls as a list: their number of answers, the work places there are, and the calls after bars.
    pub(crate) fn send<K: Spelled + Copy>(
        &mut self,
        text: &str,
        receiver: Receiver,
    ) -> anyhow::Result<String> {
        let heap = self.heap;
        let mut parts = text.splitn(3, ' ');
        let capacity = number(parts.next())?;
        let places = number(parts.next())?;
        let calls = parts
            .next()
            .unwrap_or("")
            .split('|')
            .skip(1)
            .map(|call| -> anyhow::Result<Call<K>> { Call::read(heap, call.trim()) })
            .try_collect::<Vec<_>>(heap)?;
        let requests = calls.iter().map(Call::sent).collect::<Vec<_>>(heap)?;
        let mut answers = vec![in heap; Ok(UNTOUCHED); capacity]?;
        let mut work = work_area(heap, places)?;
        let sent = self.deliver(
            requests.as_slice(),
            answers.as_mut_slice(),
            work.as_mut_slice(),
            receiver,
        )?;
        let answers = ToldAll(answers.as_slice());
        let count = self.shelf.count();
        let said = said_of_work(work.as_slice());
        Ok(format!(in heap; "{sent}{answers}, {count} rows{said}")?)
    }

    // Sends requests, and says how many were performed; of a new shelf, whose call answers no count, which kind it has.
    fn deliver<K: CellKind>(
        &mut self,
        requests: &[Sent<'_, K>],
        answers: &mut [Answer],
        work: &mut [u16],
        receiver: Receiver,
    ) -> Result<String, AllocError> {
        match receiver {
            Receiver::Present => {
                let performed = self.shelf.send(requests, answers, work);
                format!(in self.heap; "{performed} performed")
            }
            Receiver::New => {
                self.shelf = Shelf::begin(requests, answers, work);
                let kind = self.shelf.kind_number();
                format!(in self.heap; "kind {kind}")
            }
        }
    }

    // Takes the cell of a code alone. In a list, since `&[cell]` at a type parameter asks that its size is known
    // to fit memory.
    fn take_one<K: CellKind + Copy>(
        &mut self,
        code: u16,
        places: usize,
    ) -> Result<Answer, AllocError> {
        let cells = vec![in self.heap; K::cell(u32::from(code)); 1]?;
        let mut work = work_area(self.heap, places)?;
        Ok(self.shelf.take(cells.as_slice(), work.as_mut_slice()))
    }

    // Takes cells one by one, those of codes that follow each other: work places, the first code, and how many.
    pub(crate) fn each<K: CellKind + Copy>(&mut self, text: &str) -> anyhow::Result<String> {
        let mut words = text.split(' ');
        let places = number(words.next())?;
        let first = number::<u16>(words.next())?;
        let times = number(words.next())?;
        let mut refused = 0usize;
        let mut last = Ok(UNTOUCHED);
        for code in first..first.saturating_add(times) {
            last = self.take_one::<K>(code, places)?;
            if last.is_err() {
                refused = refused.saturating_add(1);
            }
        }
        let last = Told(last);
        let count = self.shelf.count();
        Ok(format!(in self.heap; "last {last}, {refused} refused, {count} rows")?)
    }
}
