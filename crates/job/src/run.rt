// A job over a whole file's bytes, in chunks of any size: `feed` takes a chunk and writes the lines that its records print, `finish` the last line.
// The bytes of a record that a chunk cuts are held until the rest comes. What is written, over all chunks, is the rules' job of the whole file.
ghost use Rattle.std.specs.Prelude.{◌≡◌, ◌+◌, ◌%◌, ◌^◌, ◌≤◌, false, [], ◌∷◌, ◌++◌, length, take};
ghost use Rattle.records.specs.Reader.{read_at};
ghost use Rattle.job.specs.Machine.{settled, held_of};
ghost use Rattle.job_lines.specs.Printed.{Says};
ghost use Rattle.job.specs.Runs.{Feeding, Finishing, no_held, new_run, held_with, refuses, ending_by, last};
ghost use Rattle.job.specs.Passages.{starting};

use crate::line;
use crate::passage::{Change, Passage};
use crate::state::{Answer, Job, Phase};
use job_state::in_place;
use lines::Line;
use records::{Cursor, Stopped, Whole};
use terms::{Corner, Refusal};

// The bytes so far of the record that is begun: the first `count`. An array of the most there can be, with the count beside it: the library has no heap.
#[derive(Clone, Copy)]
pub struct Held {
    pub bytes: [u8; 18],
    pub count: usize,
}

// The offset of the record that is begun, and how many came before it.
#[derive(Clone, Copy)]
pub struct Place {
    pub offset: u64,
    pub records: u64,
}

// `stopped` after a refused record: a run that is stopped comes back as it was (`stopped_stays`), so the flag stands beside the rest and not in its place.
#[derive(Clone, Copy)]
pub struct Run {
    pub job: Job,
    pub held: Held,
    pub place: Place,
    pub stopped: bool,
}

// The run after a chunk, how many of its bytes were taken, and how many were written.
#[derive(Clone, Copy)]
pub struct Fed {
    pub run: Run,
    pub used: usize,
    pub wrote: usize,
}

impl Held {
    pub(crate) fn none() -> Held
        ensures { result ≡ no_held }
    {
        Held {
            bytes: [0u8; 18],
            count: 0,
        }
    }

    // One byte more.
    pub(crate) fn with(mut self, byte: u8) -> Held
        ensures { (result.count ≤ 18) × (take result.count result.bytes ≡ held_of self.count self.bytes ++ (byte ∷ [])) × (length result.bytes ≡ 18) × (result ≡ held_with self byte) }
    {
        let at = settled(self.count);
        self.bytes[at] = byte;
        self.count = at + 1;
        self
    }

    pub(crate) fn read(self) -> Result<Option<Whole>, Stopped>
        requires { self.count ≤ 18 }
        ensures { result ≡ read_at (take self.count self.bytes) 0 }
    {
        Cursor::start().read(&self.bytes[..self.count])
    }
}

// A count that no record has held, past 17, is none.
fn settled(count: usize) -> usize
    ensures { result ≡ settled count }
{
    if 17 < count { 0 } else { count }
}

impl Place {
    pub(crate) fn after(self, size: usize) -> Place
        ensures { (result.offset ≡ (self.offset + size) % 2 ^ 64) × (result.records ≡ (self.records + 1) % 2 ^ 64) }
    {
        Place {
            offset: self.offset.wrapping_add(size as u64),
            records: self.records.wrapping_add(1),
        }
    }
}

pub(crate) fn refuses(answer: Answer) -> bool
    ensures { result ≡ refuses answer }
{
    matches!(answer, Answer::Refused(_))
}

impl Run {
    pub fn new() -> Run
        ensures { result ≡ new_run }
    {
        Run {
            job: Job::new(),
            held: Held::none(),
            place: Place {
                offset: 0,
                records: 0,
            },
            stopped: false,
        }
    }

    // Takes bytes of the chunk while `out` has room for any line, and writes their lines.
    pub fn feed(self, chunk: &[u8], out: &mut [u8]) -> Fed
        ensures { Feeding self chunk.now out.old result out.new }
    {
        if self.stopped {
            return Fed {
                run: self,
                used: chunk.len(),
                wrote: 0,
            };
        }
        self.take_bytes(chunk, out)
    }

    // The job stays where it lies: what is asked of it is done in place, and only a record that begins or closes a field goes through the job's method. The corners
    // are laid out at the first query, and again at the first after they changed: a chunk without a query needs none of it.
    fn take_bytes(self, chunk: &[u8], out: &mut [u8]) -> Fed
        requires { self.stopped ≡ false }
        ensures { Feeding self chunk.now out.old result out.new }
    {
        let mut job = self.job;
        let mut passage = self.start(chunk.len());
        let mut counts = [0u32; 17];
        let mut numbers = [0i64; 6144];
        // No `for`: a byte that asks for the job is asked again. Each arm ends with `continue`, so that each is a goal of its own.
        while passage.goes(out.len()) {
            let phase = job.phase;
            let count = job.count;
            let held = in_place::counts_held(job.rings);
            let end = in_place::numbers_held(job.total);
            passage = passage.turn(chunk, phase, count, &counts[..held], &numbers[..end], out);
            let change = passage.change;
            match change {
                Change::Nothing => continue,
                Change::Store(x, y) => {
                    let place = in_place::corner_place(phase, job.total, count);
                    job.corners[place] = Corner { x, y };
                    job.count = count + 1;
                    continue;
                }
                Change::LayOut => {
                    counts = job.counts;
                    numbers = in_place::lay_out(job.corners, job.total);
                    continue;
                }
                Change::Take(item, size) => {
                    let taken = job.take(item);
                    let answer = taken.answer;
                    job = taken.job;
                    passage = passage.says(answer, size, out);
                    continue;
                }
            }
        }
        passage.handed(job, chunk.len())
    }

    fn start(self, length: usize) -> Passage
        ensures { result ≡ starting self length }
    {
        Passage {
            held: self.held,
            place: self.place,
            left: length,
            wrote: 0,
            stopped: false,
            laid: false,
            change: Change::Nothing,
        }
    }

    // The end of the file: writes the last line and answers its length; nothing where `out` has no room for any line.
    pub fn finish(self, out: &mut [u8]) -> usize
        ensures { Finishing self out.old result out.new }
    {
        if out.len() < 128 || self.stopped {
            return 0;
        }
        last_line(self.held.count, self.job.phase, self.place).put(out, 0)
    }
}

// A record that is begun is cut off; a field that is gathered is out of place.
fn last_line(held: usize, phase: Phase, place: Place) -> Line
    ensures { Says (last held phase place.offset place.records) result }
{
    if 17 < held {
        return ending_line(phase, place);
    }
    if 0 < held {
        return line::refusal_line(Refusal::BodyCutOff, place.offset);
    }
    ending_line(phase, place)
}

fn ending_line(phase: Phase, place: Place) -> Line
    ensures { Says (ending_by phase place.offset place.records) result }
{
    match phase {
        Phase::Idle | Phase::Accepted => line::end_line(place.records),
        Phase::Gathering | Phase::Inner => line::refusal_line(Refusal::OutOfPlace, place.offset),
    }
}
