// How far a call of `feed` has come: all of a run but its job, which stays where it lies. What a byte makes of that, and what it asks of the job.
ghost use Rattle.std.specs.Prelude.{◌≡◌, ◌+◌, ◌-◌, ◌<◌, ◌≤◌, true, false, length, slice_index};
ghost use Rattle.terms.specs.Numbers.{number_of};
ghost use Rattle.job_state.specs.Gathered.{chosen};
ghost use Rattle.job_lines.specs.Printed.{printed_at, refusal_text};
ghost use Rattle.job.specs.Passages.{run_of, Saying, Turned, Followed, asking, answered_at, storing, awaiting, refused_at};

use crate::run::{Fed, Held, Place, Run};
use crate::state::{Answer, Job, Phase};
use crate::{line, run};
use job_state::in_place;
use job_state::in_place::Reply;
use records::Record;
use terms::Refusal;

// What a byte asks of the job: nothing; that a corner be stored behind the others; that the corners be laid out for the query that is then answered; or that the
// job take a record of so many bytes.
#[derive(Clone, Copy)]
pub enum Change {
    Nothing,
    Store(i64, i64),
    LayOut,
    Take(Record, usize),
}

// The record that is begun and its place, how many bytes of the chunk are left, how many were written, whether a record was refused, whether the accepted rings are laid out for queries, and what
// the last byte asks. `stopped` and `laid` stand beside values that are held either way. What room `out` has is asked where it is written to: it is of `out`, so no fact of this struct says it.
#[derive(Clone, Copy)]
pub struct Passage {
    pub held: Held,
    pub place: Place,
    pub left: usize,
    pub wrote: usize,
    pub stopped: bool,
    pub laid: bool,
    pub change: Change,
}

impl Passage {
    // Whether a byte is left, and room for any line.
    pub fn goes(self, room: usize) -> bool
        requires { self.wrote ≤ room }
        ensures { (result ≡ true → (0 < self.left) × (self.wrote + 128 ≤ room)) × (result ≡ false → 0 < self.left → room < self.wrote + 128) }
    {
        0 < self.left && 128 <= room - self.wrote
    }

    // A byte more; nothing is done yet where the job is asked first, for its corners laid out or to take the record. The job's phase, count and numbers come one by
    // one, because the job is not handed over: it stays where it lies.
    pub fn turn(
        self,
        chunk: &[u8],
        phase: Phase,
        count: usize,
        counts: &[u32],
        numbers: &[i64],
        out: &mut [u8],
    ) -> Passage
        requires { (self.stopped ≡ false) × (0 < self.left) × (self.left ≤ length chunk.now) × (self.wrote + 128 ≤ length out.old) }
        ensures { Turned self (slice_index chunk.now (length chunk.now - self.left)) phase count counts.now numbers.now out.old result out.new }
    {
        let at = chunk.len() - self.left;
        let begun = self.held.with(chunk[at]);
        let found = begun.read();
        match found {
            Ok(Some(whole)) => {
                let item = whole.item;
                let reply = in_place::reply_to(item, phase, count, self.laid, counts, numbers);
                self.whole(item, whole.next.at, reply, out)
            }
            // With a byte there is always something.
            Ok(None) => self,
            Err(stopped) => match stopped.refusal {
                // By `return`, for nearly every byte comes here: as the arm's value it is copied once more than the others, and a job takes a third longer.
                Refusal::BodyCutOff => return self.waits(begun),
                refusal => self.refuses(refusal, out),
            },
        }
    }

    // A whole record of `size` bytes, by the reply to it.
    fn whole(self, item: Record, size: usize, reply: Reply, out: &mut [u8]) -> Passage
        requires { (0 < self.left) × (self.wrote + 128 ≤ length out.old) }
        ensures { Followed self item size reply out.old result out.new }
    {
        match reply {
            Reply::Say(answer) => self.says(answer, size, out),
            Reply::Store(x, y) => self.stores(x, y, size),
            Reply::LayOut => self.asks(Change::LayOut, true),
            Reply::Take => self.asks(Change::Take(item, size), false),
        }
    }

    // The job is asked first; what it then makes of its rings decides whether they are laid out.
    fn asks(self, change: Change, laid: bool) -> Passage
        ensures { result ≡ asking self change laid }
    {
        Passage {
            laid,
            change,
            ..self
        }
    }

    // A record whose body is cut off still.
    fn waits(self, begun: Held) -> Passage
        requires { 0 < self.left }
        ensures { result ≡ awaiting self begun }
    {
        Passage {
            held: begun,
            left: self.left - 1,
            change: Change::Nothing,
            ..self
        }
    }

    // A whole record of `size` bytes, answered: its line stands behind what was written.
    pub fn says(self, answer: Answer, size: usize, out: &mut [u8]) -> Passage
        requires { (0 < self.left) × (self.wrote + 128 ≤ length out.old) }
        ensures { Saying (printed_at answer self.place.offset) self (answered_at self answer size) out.old result out.new }
    {
        let end = line::answer_line(answer, self.place.offset).put(out, self.wrote);
        let stops = run::refuses(answer);
        Passage {
            held: Held::none(),
            place: self.place.after(size),
            left: left_after(self.left, stops),
            wrote: end,
            stopped: stops,
            change: Change::Nothing,
            ..self
        }
    }

    // A corner that is taken prints nothing.
    fn stores(self, x: i64, y: i64, size: usize) -> Passage
        requires { 0 < self.left }
        ensures { result ≡ storing self size x y }
    {
        Passage {
            held: Held::none(),
            place: self.place.after(size),
            left: self.left - 1,
            stopped: false,
            laid: false,
            change: Change::Store(x, y),
            ..self
        }
    }

    // The record that is begun is of no kind.
    fn refuses(self, refusal: Refusal, out: &mut [u8]) -> Passage
        requires { self.wrote + 128 ≤ length out.old }
        ensures { Saying (refusal_text (number_of refusal) self.place.offset) self (refused_at self (number_of refusal)) out.old result out.new }
    {
        let end = line::refusal_line(refusal, self.place.offset).put(out, self.wrote);
        Passage {
            left: 0,
            wrote: end,
            stopped: true,
            change: Change::Nothing,
            ..self
        }
    }

    // The run with the job, and what was taken of the chunk.
    pub fn handed(self, job: Job, length: usize) -> Fed
        requires { self.left ≤ length }
        ensures { (result.run ≡ run_of job self) × (result.used ≡ length - self.left) × (result.wrote ≡ self.wrote) }
    {
        Fed {
            run: Run {
                job,
                held: self.held,
                place: self.place,
                stopped: self.stopped,
            },
            used: length - self.left,
            wrote: self.wrote,
        }
    }
}

// A byte less, or none where the run stops: what comes after a refusal counts as taken.
fn left_after(left: usize, stops: bool) -> usize
    requires { 0 < left }
    ensures { result ≡ chosen stops 0 (left - 1) }
{
    if stops { 0 } else { left - 1 }
}
