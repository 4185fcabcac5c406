// Inner rings that come to a field's rings one after the other: each by its own checks, and by where it lies to the rings before it.
// That a field's rings passed their checks (`Checked`) is asked and not a type: around `Field` it would make every clause `field.now.field.counts.now`.
ghost use Rattle.std.specs.Prelude.{◌≡◌, ◌*◌, take, drop, get_or};
ghost use Rattle.rules.specs.FieldAnswers.{cut};
ghost use Rattle.rules.specs.Placing.{entangled_any, misplaced};
ghost use Rattle.ring_corners.specs.Corners.{pairs, Accepted};
ghost use Rattle.ring_placing.specs.Around.{Around};
ghost use Rattle.fields.specs.OfRing.{ring_refusal};
ghost use Rattle.fields.specs.Placed.{as_field, passed_one, the_rest, Checked, Outer};
ghost use Rattle.terms.specs.Papers.{passed_paper};

use crate::field::Field;
use crate::reading;
use ring_boxes::{BoxedRing, Reach};
use ring_corners::Ring;
use terms::{CrossedPair, Refusal};

// Whether the ring, around which is the box `around`, meets one of the inner rings, lies inside one, or one inside it.
#[tactic(auto, using(crate::specs::Laws::Tangled::later_inside))]
fn entangled_any(field: &Field, ring: &BoxedRing, around: Reach) -> bool
    requires { Checked field.now.counts.now field.now.corners.now × Around (pairs ring.now.corners.now) around }
    ensures { result ≡ entangled_any (as_field (cut field.now.counts.now field.now.corners.now)).inner_rings (pairs ring.now.corners.now) }
{
    let mut at = field.outer().len();
    for &count in &field.counts[1..] {
        let end = at + 2 * (count as usize);
        let inner = Ring {
            corners: &field.corners[at..end],
        };
        if ring_placing::entangled(&inner, ring, around) {
            return true;
        }
        at = end;
    }
    false
}

// Whether the ring is badly placed among the rings. The boxes of the ring are worked once for all the rings that it is held against.
fn misplaced(field: &Field, outer: &BoxedRing, ring: &Ring) -> bool
    requires { Checked field.now.counts.now field.now.corners.now × Outer field.now.counts.now field.now.corners.now outer.now.corners.now }
    ensures { result ≡ misplaced (as_field (cut field.now.counts.now field.now.corners.now)) (pairs ring.now.corners.now) }
{
    let mut boxes = ring_boxes::UNFILLED;
    ring_boxes::fill(ring, &mut boxes);
    let around = ring_boxes::box_of(ring.corners, 0, ring.count() - 1);
    let boxed = BoxedRing {
        corners: ring.corners,
        boxes: &boxes,
    };
    ring_placing::not_inside(outer, &boxed, around) || entangled_any(field, &boxed, around)
}

// What is said of a ring by itself, said of a ring of a field, by its number.
fn of_ring(refusal: Refusal, ring: usize) -> Refusal
    ensures { result ≡ ring_refusal ring refusal }
{
    match refusal {
        Refusal::RingCrossed(pair) => Refusal::RingCrossed(CrossedPair {
            ring: ring as u64,
            ..pair
        }),
        other => other,
    }
}

// One inner ring more: 16, its own 6, 7, 8 and 9, and then 15.
fn one_more(field: &Field, outer: &BoxedRing, ring: &[i64]) -> Result<(), Refusal>
    requires { Checked field.now.counts.now field.now.corners.now × Outer field.now.counts.now field.now.corners.now outer.now.corners.now }
    ensures { passed_paper result ≡ passed_one (cut field.now.counts.now field.now.corners.now) ring.now }
{
    reading::check_place(field.counts.len() - 1, ring)?;
    if let Err(refusal) = rings::crossing(ring) {
        return Err(of_ring(refusal, field.counts.len()));
    }
    let ring = Ring { corners: ring };
    if misplaced(field, outer, &ring) {
        return Err(Refusal::BadlyPlaced);
    }
    Ok(())
}

// One inner ring more, with the boxes of the outer one filled for it.
#[tactic(auto, using(crate::specs::Laws::Tangled::first_accepted, crate::specs::Laws::Tangled::first_ring))]
pub fn join(field: &Field, ring: &[i64]) -> Result<(), Refusal>
    requires { Checked field.now.counts.now field.now.corners.now }
    ensures { passed_paper result ≡ passed_one (cut field.now.counts.now field.now.corners.now) ring.now }
{
    let mut boxes = ring_boxes::UNFILLED;
    let outer = Ring {
        corners: field.outer(),
    };
    ring_boxes::fill(&outer, &mut boxes);
    let outer = BoxedRing {
        corners: outer.corners,
        boxes: &boxes,
    };
    one_more(field, &outer, ring)
}

// All inner rings, each beside those before it.
// Where the next ring starts is known from the counts before it, so `at` goes along: an iterator over the rings would be a type of its own for that sum.
#[tactic(auto, using(crate::specs::Laws::Accepting::ring_inside, crate::specs::Laws::Accepting::first_checked, crate::specs::Laws::Accepting::first_outer))]
fn accept_each(field: &Field, outer: &BoxedRing) -> Result<(), Refusal>
    requires { Outer field.now.counts.now field.now.corners.now outer.now.corners.now }
    ensures { passed_paper result ≡ the_rest (take 1 (cut field.now.counts.now field.now.corners.now)) (drop 1 (cut field.now.counts.now field.now.corners.now)) }
{
    let mut at = field.outer().len();
    for k in 1..field.counts.len() {
        let end = at + 2 * (field.counts[k] as usize);
        let before = Field {
            counts: &field.counts[0..k],
            corners: &field.corners[0..at],
        };
        one_more(&before, outer, &field.corners[at..end])?;
        at = end;
    }
    Ok(())
}

// The inner rings of a field whose outer ring is accepted: its boxes are filled once for all of them.
// `Accepted` and no `Ring`: its caller has a ring that is not crossed and no value of it.
// The boxes are lent by the frame that they stand in, so `join` fills them in the same lines: a function for both would be handed them empty.
#[tactic(auto, using(crate::specs::Laws::Tangled::first_ring))]
pub fn accept_inner(field: &Field) -> Result<(), Refusal>
    requires { Accepted (take (2 * get_or field.now.counts.now 0 0) field.now.corners.now) }
    ensures { passed_paper result ≡ the_rest (take 1 (cut field.now.counts.now field.now.corners.now)) (drop 1 (cut field.now.counts.now field.now.corners.now)) }
{
    let mut boxes = ring_boxes::UNFILLED;
    let outer = Ring {
        corners: field.outer(),
    };
    ring_boxes::fill(&outer, &mut boxes);
    let outer = BoxedRing {
        corners: outer.corners,
        boxes: &boxes,
    };
    accept_each(field, &outer)
}
