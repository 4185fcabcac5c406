// How two rings lie to one another: whether they meet, and whether one lies inside the other. Where no edges meet, one corner tells of all of its ring.
#![tactic(auto)]

ghost use Rattle.std.specs.Prelude.{◌≡◌, ◌||◌};
ghost use Rattle.rules.specs.Placing.{rings_meet, first_outside, entangled};
ghost use Rattle.ring_corners.specs.Corners.{pairs};
ghost use Rattle.ring_placing.specs.Around.{Around};

use ring_boxes::{BoxedRing, Reach};
use ring_corners::Ring;
use ring_pairs::{meeting, search};

mod edge;
mod turned;

// Whether an edge of one ring shares a point with an edge of another. `around` is a box of all of the second ring, which its caller has for more than one other ring:
// an edge of the first whose box is away from that one meets none, and the loop jumps over those, most of them by the box of their run. The last edge, which is in no
// run, is tested beside it. `around` goes beside its ring and not in `BoxedRing`, because rings that are searched by themselves have none.
// The loop is that of `meets_ring` over another test, written out: as one function it would take the test as a closure, and every contract would speak of that.
pub fn meet(first: &BoxedRing, second: &BoxedRing, around: Reach) -> bool
    requires { Around (pairs second.now.corners.now) around }
    ensures { result ≡ rings_meet (pairs first.now.corners.now) (pairs second.now.corners.now) }
{
    let last = first.last();
    let mut k = 0;
    while k < last {
        k = search::next_near(first.corners, first.boxes, around, k, last);
        if k < last {
            if edge::meets_ring(second, first.corner(k), first.corner(k + 1)) {
                return true;
            }
            k += 1;
        }
    }
    !meeting::away(around, first.corner(last), first.corner(0))
        && edge::meets_ring(second, first.corner(last), first.corner(0))
}

// Whether the first corner of a ring is outside another ring: its turning number there is 0. Of either sign it is inside, whichever way that ring runs.
fn outside(outer: &BoxedRing, ring: &BoxedRing) -> bool
    ensures { result ≡ first_outside (pairs outer.now.corners.now) (pairs ring.now.corners.now) }
{
    turned::number_by_runs(outer, ring.corner(0)) == 0
}

// Whether a ring is not strictly inside the outer one: the rings meet, or its first corner is outside.
pub fn not_inside(outer: &BoxedRing, ring: &BoxedRing, around: Reach) -> bool
    requires { Around (pairs ring.now.corners.now) around }
    ensures { result ≡ (rings_meet (pairs outer.now.corners.now) (pairs ring.now.corners.now) || first_outside (pairs outer.now.corners.now) (pairs ring.now.corners.now)) }
{
    meet(outer, ring, around) || outside(outer, ring)
}

// Whether two inner rings whose boxes touch meet, or one lies inside the other.
fn entangled_touching(first: &BoxedRing, second: &BoxedRing, around: Reach) -> bool
    requires { Around (pairs second.now.corners.now) around }
    ensures { result ≡ entangled (pairs first.now.corners.now) (pairs second.now.corners.now) }
{
    meet(first, second, around) || !outside(first, second) || !outside(second, first)
}

// Whether two inner rings meet, or one lies inside the other. The boxes are those of the second. Most ponds of a field lie apart: of two whose boxes
// do not touch no edge is tested and no turning number is asked.
pub fn entangled(first: &Ring, second: &BoxedRing, around: Reach) -> bool
    requires { Around (pairs second.now.corners.now) around }
    ensures { result ≡ entangled (pairs first.now.corners.now) (pairs second.now.corners.now) }
{
    let first = BoxedRing::plain(first);
    let own = ring_boxes::box_of(first.corners, 0, first.last());
    !meeting::away(around, own.low, own.high) && entangled_touching(&first, second, around)
}
