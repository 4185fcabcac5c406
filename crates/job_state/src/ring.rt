// The corners as the ring and field calls take them: a flat list of numbers. Where the ring that is gathered lies among them, and what closing it says.
ghost use Rattle.std.specs.Prelude.{◌≡◌, ◌*◌, ◌≤◌, length, take, drop};
ghost use Rattle.job_state.specs.Gathered.{within, at_most, flat, ring_of, ring_from, judged, judged_flat, inner_judged, apart_flat, joined_flat, beside_flat, field_or_none, judged_paper};
ghost use Rattle.job_state.specs.States.{gathers, starting};
ghost use Rattle.fields.specs.OfRing.{ring_refusal};
ghost use Rattle.rules.specs.FieldAnswers.{field_read};

use crate::state::Phase;
use terms::{Corner, CrossedPair, Refusal};

// A number past ±10^10, which no corner has that a job took in, is read as that limit.
fn limited(z: i64) -> i64
    ensures { result ≡ within z }
{
    z.clamp(-10000000000, 10000000000)
}

// A count past the most that there can be, which no job hands back, is read as the most.
pub fn at_most(most: usize, count: usize) -> usize
    ensures { result ≡ at_most most count }
{
    count.min(most)
}

// Whether a ring is being gathered.
pub fn gathers(phase: Phase) -> bool
    ensures { result ≡ gathers phase }
{
    matches!(phase, Phase::Gathering | Phase::Inner)
}

// Where the ring that is gathered starts: an inner one behind the accepted rings, and so that there is room for all its corners.
pub fn starting(phase: Phase, total: usize) -> usize
    ensures { result ≡ starting phase total }
{
    match phase {
        Phase::Idle | Phase::Gathering | Phase::Accepted => 0,
        Phase::Inner => at_most(2944, total),
    }
}

// The first `count` corners, X and Y in turn.
pub fn flatten(corners: [Corner; 3072], count: usize) -> [i64; 6144]
    requires { count ≤ 3072 }
    ensures { (length result ≡ 6144) × (take (2 * count) result ≡ flat (ring_of count corners)) }
{
    let mut numbers = [0i64; 6144];
    for (i, corner) in corners[..count].iter().enumerate() {
        let Corner { x, y } = *corner;
        numbers[2 * i] = limited(x);
        numbers[2 * i + 1] = limited(y);
    }
    numbers
}

// A ring that is closed: its doubled area, or the refusal. The first `count` corners as an outer ring.
pub fn judge(corners: [Corner; 3072], count: usize) -> Result<i64, Refusal>
    requires { count ≤ 1024 }
    ensures { judged_paper result ≡ judged (ring_of count corners) }
{
    let numbers = flatten(corners, count);
    judge_flat(&numbers[..2 * count])
}

#[tactic(auto, using(ring_checks::proofs::Laws::Steps::refused_then, ring_checks::proofs::Laws::Steps::answered_then), unfolding(crate::specs::Gathered::judged_flat))]
fn judge_flat(numbers: &[i64]) -> Result<i64, Refusal>
    ensures { judged_paper result ≡ judged_flat numbers.now }
{
    rings::crossing(numbers)?;
    rings::area2(numbers)
}

// The `count` corners from `start` on as an inner ring that is closed, of the field that the first `rings` counts cut from the corners before it.
pub fn judge_inner(
    corners: [Corner; 3072],
    counts: [u32; 17],
    rings: usize,
    start: usize,
    count: usize,
) -> Result<i64, Refusal>
    requires { (rings ≤ 16) × (start ≤ 2944) × (count ≤ 128) }
    ensures { judged_paper result ≡ inner_judged (field_or_none (field_read (take rings counts) (flat (ring_of start corners)))) (ring_from start count corners) }
{
    let numbers = flatten(corners, start + count);
    judge_beside(&counts[..rings], &numbers[..2 * (start + count)], 2 * start)
}

// The numbers of the field's rings come before `middle`, those of the ring after.
fn judge_beside(counts: &[u32], numbers: &[i64], middle: usize) -> Result<i64, Refusal>
    requires { middle ≤ length numbers.now }
    ensures { judged_paper result ≡ beside_flat counts.now (take middle numbers.now) (drop middle numbers.now) }
{
    let checked = fields::check(counts, &numbers[..middle]);
    match checked {
        Ok(()) => judge_joined(counts, &numbers[..middle], &numbers[middle..]),
        Err(_) => judge_apart(&numbers[middle..]),
    }
}

// An inner ring of no field, which no job hands back: it lies badly wherever it is.
fn judge_apart(ring: &[i64]) -> Result<i64, Refusal>
    ensures { judged_paper result ≡ apart_flat ring.now }
{
    let crossing = rings::crossing(ring);
    match crossing {
        Ok(_) => Err(Refusal::BadlyPlaced),
        Err(refusal) => Err(of_first_inner(refusal)),
    }
}

// What is said of a ring by itself, said of a field's first inner ring. As `of_ring` of fields does, which that crate does not hand out.
fn of_first_inner(refusal: Refusal) -> Refusal
    ensures { result ≡ ring_refusal 1 refusal }
{
    match refusal {
        Refusal::RingCrossed(pair) => Refusal::RingCrossed(CrossedPair { ring: 1, ..pair }),
        other => other,
    }
}

#[tactic(auto, using(ring_checks::proofs::Laws::Steps::refused_then, ring_checks::proofs::Laws::Steps::answered_then), unfolding(crate::specs::Gathered::joined_flat))]
fn judge_joined(counts: &[u32], numbers: &[i64], ring: &[i64]) -> Result<i64, Refusal>
    ensures { judged_paper result ≡ joined_flat counts.now numbers.now ring.now }
{
    fields::join(counts, numbers, ring)?;
    rings::area2(ring)
}
