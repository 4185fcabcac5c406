// What a record is answered by a job that stays where it lies: in go the few numbers that the answer rests on, and no corner is copied. `Job::take` answers by the
// same functions, so both ways come to one result (Alike.antt).
ghost use Rattle.std.specs.Prelude.{◌≡◌, ◌+◌, ◌*◌, ◌<◌, length, take};
ghost use Rattle.rules.specs.RingAnswers.{number_bad};
ghost use Rattle.records.specs.declared.Record.TheVariants as record-case;
ghost use Rattle.job_state.specs.Gathered.{at_most, flat, ring_of, corner_checked};
ghost use Rattle.job_state.specs.States.{most, starting, point_said, query_said};
ghost use Rattle.job_state.specs.InPlace.{In, Lies, Answering, Cornering, Projecting, CornerReplied, Replied};

use crate::ring;
use crate::state::{Answer, Phase};
use projection::Point;
use records::Record;
use terms::{Corner, Position, Refusal};

// What is to be done where the job lies: an answer is given and the job stays as it is; a corner is stored behind the others, and nothing is answered; the corners
// are laid out, and the record is asked again; or the job takes the record (`Job::take`).
#[derive(Clone, Copy)]
pub enum Reply {
    Say(Answer),
    Store(i64, i64),
    LayOut,
    Take,
}

// The reply to a record, by the job's phase and count of corners; where they are laid out, `counts` and `numbers` are the accepted rings.
pub fn reply_to(
    item: Record,
    phase: Phase,
    count: usize,
    laid: bool,
    counts: &[u32],
    numbers: &[i64],
) -> Reply
    ensures { Replied item phase count laid counts.now numbers.now result }
{
    match item {
        Record::Begin(_) | Record::Close | Record::Inner => Reply::Take,
        Record::Corner(x, y) => corner_reply(phase, count, x, y),
        Record::Query(x, y) => {
            if laid {
                return Reply::Say(query_answer(phase, counts, numbers, x, y));
            }
            Reply::LayOut
        }
        Record::Point(code, b, l) => Reply::Say(point_answer(phase, code, b, l)),
    }
}

fn corner_reply(phase: Phase, count: usize, x: i64, y: i64) -> Reply
    ensures { CornerReplied phase count x y result }
{
    let checked = check_corner(phase, count, x, y);
    match checked {
        Ok(()) => Reply::Store(x, y),
        Err(refusal) => Reply::Say(Answer::Refused(refusal)),
    }
}

// The corners of the accepted rings as a query takes them: X and Y in turn. This alone copies the corners, once for all queries of a field.
pub fn lay_out(corners: [Corner; 3072], total: usize) -> [i64; 6144]
    ensures { (length result ≡ 6144) × (take (2 * at_most 3072 total) result ≡ flat (ring_of total corners)) }
{
    ring::flatten(corners, ring::at_most(3072, total))
}

// How many of the counts a query is asked of, and how many of the numbers: those of the accepted rings.
pub fn counts_held(rings: usize) -> usize
    ensures { result ≡ at_most 17 rings }
{
    ring::at_most(17, rings)
}

pub fn numbers_held(total: usize) -> usize
    ensures { result ≡ 2 * at_most 3072 total }
{
    2 * ring::at_most(3072, total)
}

// The place in which a corner is stored.
pub fn corner_place(phase: Phase, total: usize, count: usize) -> usize
    requires { count < most phase }
    ensures { (result ≡ starting phase total + count) × (result < 3072) }
{
    ring::starting(phase, total) + count
}

// Kind 2: whether the corner is to be stored behind the others.
pub(crate) fn check_corner(phase: Phase, count: usize, x: i64, y: i64) -> Result<(), Refusal>
    ensures { Cornering phase count x y result }
{
    match phase {
        Phase::Idle | Phase::Accepted => Err(Refusal::OutOfPlace),
        Phase::Gathering => check_gathered(1024, count, x, y),
        Phase::Inner => check_gathered(128, count, x, y),
    }
}

fn check_gathered(most: usize, count: usize, x: i64, y: i64) -> Result<(), Refusal>
    ensures { result ≡ corner_checked most count x y }
{
    if most <= count {
        return Err(Refusal::CornerCount);
    }
    if outside(x) || outside(y) {
        return Err(Refusal::CornerNumber);
    }
    Ok(())
}

// Kind 4: `counts` and `numbers` are the accepted rings.
pub(crate) fn query_answer(phase: Phase, counts: &[u32], numbers: &[i64], x: i64, y: i64) -> Answer
    ensures { Answering (Lies phase counts.now numbers.now) (record-case.Query x y) result }
{
    match phase {
        Phase::Idle | Phase::Gathering | Phase::Inner => Answer::Refused(Refusal::OutOfPlace),
        Phase::Accepted => {
            let located = fields::position(counts, numbers, Corner { x, y });
            nozzle_answer(located, x, y)
        }
    }
}

// Kind 5.
pub(crate) fn point_answer(phase: Phase, code: u8, b: i64, l: i64) -> Answer
    ensures { Answering (In phase) (record-case.Point code b l) result }
{
    if ring::gathers(phase) {
        return Answer::Refused(Refusal::OutOfPlace);
    }
    projected_answer(code, b, l)
}

fn projected_answer(code: u8, b: i64, l: i64) -> Answer
    ensures { Projecting code b l result }
{
    let projected = projection::forward(code, b, l);
    forward_answer(projected)
}

fn forward_answer(projected: Result<Point, Refusal>) -> Answer
    ensures { result ≡ point_said projected }
{
    match projected {
        Ok(point) => Answer::Point(point.x, point.y, point.scale, point.convergence),
        Err(refusal) => Answer::Refused(refusal),
    }
}

fn outside(z: i64) -> bool
    ensures { result ≡ number_bad z }
{
    10000000000 < z || z < -10000000000
}

// Rings that the checks 6 and 8 refuse are no accepted field. Crossing and placing are not asked again.
fn nozzle_answer(located: Result<Position, Refusal>, x: i64, y: i64) -> Answer
    ensures { result ≡ query_said located x y }
{
    match located {
        Ok(position) => Answer::Nozzle(x, y, position),
        Err(_) => Answer::Refused(Refusal::OutOfPlace),
    }
}
