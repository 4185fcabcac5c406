// The turning number: what each edge adds, by X alone where that decides, and their sum.
ghost use Rattle.std.specs.Prelude.{◌≡◌, ◌<◌, length, get_or};
ghost use Rattle.rules.specs.Rings.{◌to◌, origin, turn, turning_number};
ghost use Rattle.terms.specs.Papers.{corner_of};
ghost use Rattle.ring_corners.specs.Corners.{pairs, Near};

use crate::touching;
use ring_corners::{Ring, corners, sides};
use terms::Corner;

// What the edge adds, which X alone decides for most edges. `edge_touch(..).unwrap_or(0)` says the same, but looks for p on the edges that add nothing too: with it a
// turning number took nearly twice as long.
#[tactic(auto, using(crate::specs::Laws::Touching::turn_rise_told, crate::specs::Laws::Touching::turn_fall_told, ring_corners::specs::Laws::Sides::turn_south, ring_corners::specs::Laws::Sides::turn_north))]
fn edge_turn(a: Corner, b: Corner, p: Corner) -> i64
    requires { Near (corner_of b) (corner_of a) × Near (corner_of a) (corner_of b) }
    ensures { result ≡ turn (corner_of p) (corner_of a to corner_of b) }
{
    if a.x <= p.x {
        if p.x < b.x {
            touching::told(sides::passing_sign(a, b, p), 1).unwrap_or(0)
        } else {
            0
        }
    } else if b.x <= p.x {
        touching::told(sides::passing_sign(b, a, p), -1).unwrap_or(0)
    } else {
        0
    }
}

// What the edge from corner i to corner j adds at p: nothing where p lies on it.
pub fn turn_at(ring: &Ring, i: usize, j: usize, p: Corner) -> i64
    requires { (i < length (pairs ring.now.corners.now)) × (j < length (pairs ring.now.corners.now)) }
    ensures { result ≡ turn (corner_of p) (get_or (pairs ring.now.corners.now) i origin to get_or (pairs ring.now.corners.now) j origin) }
{
    edge_turn(ring.corner(i), ring.corner(j), p)
}

pub fn number(ring: &Ring, p: Corner) -> i64
    ensures { result ≡ turning_number (pairs ring.now.corners.now) (corner_of p) }
{
    let n = ring.count();
    let mut sum: i64 = 0;
    for i in 0..n {
        sum += turn_at(ring, i, corners::next(i, n), p);
    }
    sum
}
