// Doubled area. The corners are seen from the first one, so that every product fits: differences are at most 20,000,000, and 1,024 terms stay below 2^63.
#![tactic(auto)]

ghost use Rattle.std.specs.Prelude.{◌≡◌};
ghost use Rattle.rules.specs.Rings.{area2};
ghost use Rattle.ring_corners.specs.Corners.{pairs};

use ring_corners::{Ring, sides};
use terms::Corner;

pub fn doubled(ring: &Ring) -> i64
    ensures { result ≡ area2 (pairs ring.now.corners.now) }
{
    let n = ring.count();
    let first = ring.corner(0);
    let mut p = Corner { x: 0, y: 0 };
    let mut sum: i64 = 0;
    for i in 1..n {
        let q = sides::seen(first, ring.corner(i));
        sum += sides::cross(p, q);
        p = q;
    }
    sum
}
