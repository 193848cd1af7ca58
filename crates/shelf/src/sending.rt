//! Sending: a list of takes, joins and cuts, each working on what the earlier ones left.
ghost use Rattle.std.specs.Prelude.{◌≡◌, min, map, length, take, replicate, ◌==◌};
ghost use Rattle.book.specs.Calls.{no_rows, turn};
ghost use Rattle.book.specs.Runs.{book_after, answers_of};
ghost use Rattle.cells.specs.Giving.{given_by};
ghost use Rattle.shelf.specs.Contents.{book_of, kind_of};
ghost use Rattle.shelf.specs.Refusals.{told, ComesTo};
ghost use Rattle.shelf.specs.Sending.{Begun, SentTo, call_of, calls_sent};

use crate::Shelf;
use crate::request::{Answer, Request, Sent};
use crate::work::WorkArea;
use book::law_of_the_book;
use cells::CellKind;

impl Shelf {
    // One request, as if it had been called with its places, at most those there are.
    fn perform<K: CellKind>(&mut self, sent: &Sent<K>, work: &mut [u16]) -> Answer
        ensures outcome { ComesTo result (book_of self.new) (turn (kind_of self.old == K.NUMBER) K.coded (book_of self.old) (call_of sent.now.request) (min sent.now.places (length work.old))) }
        ensures kind { kind_of self.new ≡ kind_of self.old }
    {
        let places = sent.places.min(work.len());
        let area = &mut work[..places];
        match sent.request {
            Request::Take { cells } => self.take(cells, area),
            Request::Join { left, right } => self.join(left, right, area),
            Request::Cut { number, part } => self.cut(number, part, area),
        }
    }

    // As many requests as there are places for answers, which go in sequence into the caller's list.
    fn send_all<K: CellKind>(
        &mut self,
        requests: &[Sent<K>],
        answers: &mut [Answer],
        work: &mut [u16],
    )
        requires { length answers.old ≡ length requests.now }
        ensures book { book_of self.new ≡ book_after (kind_of self.old == K.NUMBER) K.coded (book_of self.old) (calls_sent (length work.old) requests.now) }
        ensures answers { map told answers.new ≡ answers_of (kind_of self.old == K.NUMBER) K.coded (book_of self.old) (calls_sent (length work.old) requests.now) }
        ensures kind { kind_of self.new ≡ kind_of self.old }
    {
        law_of_the_book::<K>();
        // By place, since the checker knows nothing of what is written through a zipped `iter_mut`.
        for (i, request) in requests.iter().enumerate() {
            answers[i] = self.perform(request, work);
        }
    }

    /// Performs the requests in the sequence given, as many as there are places for their answers, and says how many:
    /// each as if it had been called with its number of work places, at most those there are. A request that is refused
    /// leaves the shelf as it stood, and the next is performed.
    ///
    /// Any two that are answered by numbers have equal numbers exactly when the strips that they wrote are the same, cell
    /// for cell; and so have any two calls of the whole history of a shelf, these requests included.
    pub fn send<K: CellKind>(
        &mut self,
        requests: &[Sent<K>],
        answers: &mut [Answer],
        work: &mut [u16],
    ) -> usize
        ensures performed { result ≡ min (length requests.now) (length answers.old) }
        ensures sent { SentTo K.coded K.has (given_by K.has K.spelled K.BLANK) K.same (kind_of self.old == K.NUMBER) (book_of self.old) (calls_sent (length work.old) (take result requests.now)) result answers.old answers.new (book_of self.new) }
        ensures kind { kind_of self.new ≡ kind_of self.old }
        ensures cleared { work.new ≡ replicate (length work.old) 0 }
    {
        law_of_the_book::<K>();
        let work = WorkArea(work);
        let count = requests.len().min(answers.len());
        self.send_all(&requests[..count], &mut answers[..count], work.0);
        count
    }

    // A new shelf as the book tells it.
    fn fresh<K: CellKind>() -> Shelf
        ensures book { book_of result ≡ no_rows }
        ensures kind { kind_of result ≡ K.NUMBER }
    {
        Shelf::new::<K>()
    }

    /// A new shelf of a kind and the requests sent to it as by `send`, told by a book that is fed the requests alone.
    #[tactic(auto, using(crate::proofs::Beginning::begun))]
    pub fn begin<K: CellKind>(
        requests: &[Sent<K>],
        answers: &mut [Answer],
        work: &mut [u16],
    ) -> Shelf
        ensures begun { let count = min (length requests.now) (length answers.old) in Begun K.coded K.has (given_by K.has K.spelled K.BLANK) K.same (calls_sent (length work.old) (take count requests.now)) count answers.old answers.new (book_of result) }
        ensures kind { kind_of result ≡ K.NUMBER }
        ensures cleared { work.new ≡ replicate (length work.old) 0 }
    {
        let mut shelf = Shelf::fresh::<K>();
        shelf.send(requests, answers, work);
        shelf
    }
}
