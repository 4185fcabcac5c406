// What an edge tells of a point, in one look: that the point lies on it, or else what the edge adds to the turning number. X alone decides where it can.
ghost use Rattle.std.specs.Prelude.{◌≡◌, ◌<◌, pos, length, get_or};
ghost use Rattle.rules.specs.Rings.{◌to◌, origin, turn, between};
ghost use Rattle.terms.specs.Papers.{corner_of};
ghost use Rattle.ring_corners.specs.Corners.{pairs, Near};
ghost use Rattle.ring_turning.specs.Touching.{touch_of, touch_by};

use ring_corners::{Ring, sides};
use std::cmp::Ordering;
use terms::Corner;

// Of an edge that adds `turn` where D is above 0, and nothing where it is below.
pub(crate) fn told(side: Ordering, turn: i64) -> Option<i64>
    ensures { result ≡ touch_by turn side }
{
    match side {
        Ordering::Greater => Some(turn),
        Ordering::Equal => None,
        Ordering::Less => Some(0),
    }
}

// Whether z lies between a and b.
#[tactic(auto, unfolding(rules::specs::Rings::between))]
fn amid(a: i64, b: i64, z: i64) -> bool
    ensures { result ≡ between a b z }
{
    (a <= z && z <= b) || (b <= z && z <= a)
}

// Of an edge that adds nothing.
fn beside(a: Corner, b: Corner, p: Corner) -> Option<i64>
    requires { Near (corner_of b) (corner_of a) × (turn (corner_of p) (corner_of a to corner_of b) ≡ pos 0) }
    ensures { result ≡ touch_of (corner_of p) (corner_of a to corner_of b) }
{
    if amid(a.x, b.x, p.x) && amid(a.y, b.y, p.y) && sides::near_sign(a, b, p).is_eq() {
        None
    } else {
        Some(0)
    }
}

#[tactic(auto, using(crate::specs::Laws::Touching::touch_rises, crate::specs::Laws::Touching::touch_falls, ring_corners::specs::Laws::Sides::turn_south, crate::specs::Laws::Touching::touch_north))]
fn edge_touch(a: Corner, b: Corner, p: Corner) -> Option<i64>
    requires { Near (corner_of b) (corner_of a) × Near (corner_of a) (corner_of b) }
    ensures { result ≡ touch_of (corner_of p) (corner_of a to corner_of b) }
{
    if a.x <= p.x {
        if p.x < b.x {
            told(sides::passing_sign(a, b, p), 1)
        } else {
            beside(a, b, p)
        }
    } else if b.x <= p.x {
        told(sides::passing_sign(b, a, p), -1)
    } else {
        Some(0)
    }
}

// Of the edge from corner i to corner j: what it adds, or None where p lies on it.
pub fn touch_at(ring: &Ring, i: usize, j: usize, p: Corner) -> Option<i64>
    requires { (i < length (pairs ring.now.corners.now)) × (j < length (pairs ring.now.corners.now)) }
    ensures { result ≡ touch_of (corner_of p) (get_or (pairs ring.now.corners.now) i origin to get_or (pairs ring.now.corners.now) j origin) }
{
    edge_touch(ring.corner(i), ring.corner(j), p)
}
