// The job's state by value, and what a record makes of it: a method takes one record and hands the state back with the answer beside it.
// A refusal hands back the state as it was. A state that is not as last handed back answers too: States.antt says which of the rules' states it stands for.
ghost use Rattle.std.specs.Prelude.{◌≡◌, ◌≤◌};
ghost use Rattle.rules.specs.JobFile.{begun};
ghost use Rattle.projection_worked.specs.Worked.{worked_forward};
ghost use Rattle.records.specs.declared.Record.TheVariants as record-case;
ghost use Rattle.job_state.specs.States.{Stepping, RightStepping, new_job, joined_job, view, stepped};

use crate::{in_place, ring};
use records::Record;
use terms::{Corner, Position, Refusal};

#[derive(Clone, Copy, Debug, PartialEq, Eq)]
pub enum Phase {
    Idle,
    Gathering,
    Accepted,
    Inner,
}

// The corners of the accepted rings one after the other, the outer ring first, and behind them those of the ring being gathered; how many corners each accepted
// ring has; how many rings are accepted, and their corners in all; and how many corners are gathered so far. Arrays of the most there can be, with counts beside them: the
// library has no heap.
#[derive(Clone, Copy)]
pub struct Job {
    pub corners: [Corner; 3072],
    pub counts: [u32; 17],
    pub rings: usize,
    pub total: usize,
    pub count: usize,
    pub code: u8,
    pub phase: Phase,
}

// What a record is answered: nothing, a line's numbers, or a refusal. No `Result`, because a refusal is one of the lines that a record prints.
#[derive(Clone, Copy)]
pub enum Answer {
    Silent,
    Field(u8, usize, i64),
    Inner(usize, usize, i64),
    Nozzle(i64, i64, Position),
    Point(i64, i64, i64, i64),
    Refused(Refusal),
}

#[derive(Clone, Copy)]
pub struct Taken {
    pub job: Job,
    pub answer: Answer,
}

impl Job {
    pub fn new() -> Job
        ensures { result ≡ new_job }
    {
        let corner = Corner { x: 0, y: 0 };
        Job {
            corners: [corner; 3072],
            counts: [0u32; 17],
            rings: 0,
            total: 0,
            count: 0,
            code: 0,
            phase: Phase::Idle,
        }
    }

    // One record: the rules' step; what a point (kind 5) is answered lies in the forward's band.
    pub fn take(self, item: Record) -> Taken
        ensures worked { Stepping (stepped worked_forward (view self) item) item self result }
        ensures band { RightStepping item self result }
    {
        match item {
            Record::Begin(code) => self.begin(code),
            Record::Corner(x, y) => self.corner(x, y),
            Record::Close => self.close(),
            Record::Query(x, y) => self.query(x, y),
            Record::Point(code, b, l) => self.point(code, b, l),
            Record::Inner => self.inner(),
        }
    }

    fn refused(self, refusal: Refusal) -> Taken
        ensures { (result.job ≡ self) × (result.answer ≡ Answer.Refused refusal) }
    {
        Taken {
            job: self,
            answer: Answer::Refused(refusal),
        }
    }

    // Kind 1: a later one drops the old field.
    fn begin(self, code: u8) -> Taken
        ensures { Stepping (stepped worked_forward (view self) (record-case.Begin code)) (record-case.Begin code) self result }
    {
        if ring::gathers(self.phase) {
            return self.refused(Refusal::OutOfPlace);
        }
        self.begin_field(code)
    }

    fn begin_field(self, code: u8) -> Taken
        ensures { Stepping (begun code) (record-case.Begin code) self result }
    {
        if code < 1 || 14 < code {
            return self.refused(Refusal::CodeUnknown);
        }
        Taken {
            job: Job {
                rings: 0,
                total: 0,
                count: 0,
                code,
                phase: Phase::Gathering,
                ..self
            },
            answer: Answer::Silent,
        }
    }

    // Kind 2.
    fn corner(self, x: i64, y: i64) -> Taken
        ensures { Stepping (stepped worked_forward (view self) (record-case.Corner x y)) (record-case.Corner x y) self result }
    {
        let checked = in_place::check_corner(self.phase, self.count, x, y);
        match checked {
            Err(refusal) => self.refused(refusal),
            Ok(()) => {
                let place = in_place::corner_place(self.phase, self.total, self.count);
                let mut next = self;
                next.corners[place] = Corner { x, y };
                next.count = self.count + 1;
                Taken {
                    job: next,
                    answer: Answer::Silent,
                }
            }
        }
    }

    // Kind 3.
    fn close(self) -> Taken
        ensures { Stepping (stepped worked_forward (view self) record-case.Close) record-case.Close self result }
    {
        match self.phase {
            Phase::Idle | Phase::Accepted => self.refused(Refusal::OutOfPlace),
            Phase::Gathering => self.accept(),
            Phase::Inner => self.accept_inner(),
        }
    }

    fn accept(self) -> Taken
        requires { self.phase ≡ Phase.Gathering }
        ensures { Stepping (stepped worked_forward (view self) record-case.Close) record-case.Close self result }
    {
        let count = ring::at_most(1024, self.count);
        let judged = ring::judge(self.corners, count);
        match judged {
            Ok(area) => Taken {
                job: self.with_ring(0, 0, count),
                answer: Answer::Field(self.code, count, area),
            },
            Err(refusal) => self.refused(refusal),
        }
    }

    fn accept_inner(self) -> Taken
        requires { self.phase ≡ Phase.Inner }
        ensures { Stepping (stepped worked_forward (view self) record-case.Close) record-case.Close self result }
    {
        let rings = ring::at_most(16, self.rings);
        let start = ring::at_most(2944, self.total);
        let count = ring::at_most(128, self.count);
        let judged = ring::judge_inner(self.corners, self.counts, rings, start, count);
        match judged {
            Ok(area) => Taken {
                job: self.with_ring(rings, start, count),
                answer: Answer::Inner(rings, count, area),
            },
            Err(refusal) => self.refused(refusal),
        }
    }

    // The ring of the `count` corners from `start` on is accepted behind so many others.
    fn with_ring(self, rings: usize, start: usize, count: usize) -> Job
        requires { (rings ≤ 16) × (start ≤ 2944) × (count ≤ 1024) }
        ensures { result ≡ joined_job self rings start count }
    {
        let mut counts = self.counts;
        counts[rings] = count as u32;
        Job {
            counts,
            rings: rings + 1,
            total: start + count,
            count: 0,
            phase: Phase::Accepted,
            ..self
        }
    }

    // Kind 4.
    fn query(self, x: i64, y: i64) -> Taken
        ensures { Stepping (stepped worked_forward (view self) (record-case.Query x y)) (record-case.Query x y) self result }
    {
        let rings = in_place::counts_held(self.rings);
        let end = in_place::numbers_held(self.total);
        let numbers = in_place::lay_out(self.corners, self.total);
        Taken {
            job: self,
            answer: in_place::query_answer(
                self.phase,
                &self.counts[..rings],
                &numbers[..end],
                x,
                y,
            ),
        }
    }

    // Kind 5.
    fn point(self, code: u8, b: i64, l: i64) -> Taken
        ensures { Stepping (stepped worked_forward (view self) (record-case.Point code b l)) (record-case.Point code b l) self result }
    {
        Taken {
            job: self,
            answer: in_place::point_answer(self.phase, code, b, l),
        }
    }

    // An inner ring is begun, where a field is accepted.
    fn inner(self) -> Taken
        ensures { Stepping (stepped worked_forward (view self) record-case.Inner) record-case.Inner self result }
    {
        if self.phase != Phase::Accepted {
            return self.refused(Refusal::OutOfPlace);
        }
        self.begin_inner()
    }

    // Stored rings that are no field, which no job hands back, are refused as no field is.
    fn begin_inner(self) -> Taken
        requires { self.phase ≡ Phase.Accepted }
        ensures { Stepping (stepped worked_forward (view self) record-case.Inner) record-case.Inner self result }
    {
        let rings = in_place::counts_held(self.rings);
        let end = in_place::numbers_held(self.total);
        let numbers = in_place::lay_out(self.corners, self.total);
        let checked = fields::check(&self.counts[..rings], &numbers[..end]);
        match checked {
            Err(_) => self.refused(Refusal::OutOfPlace),
            Ok(()) => {
                if 16 < rings {
                    return self.refused(Refusal::TooManyRings);
                }
                Taken {
                    job: Job {
                        count: 0,
                        phase: Phase::Inner,
                        ..self
                    },
                    answer: Answer::Silent,
                }
            }
        }
    }
}
