// On which side of an edge a point lies: the sign of D, exact for every point. Products are made only where the point is so near that they fit.
ghost use Rattle.std.specs.Prelude.{◌≡◌, ◌≤ℤ◌, ◌<ℤ◌};
ghost use Rattle.rules.specs.Rings.{D, area_term, ◌to◌};
ghost use Rattle.terms.specs.Papers.{corner_of};
ghost use Rattle.ring_corners.specs.Corners.{seen_from, Small, Near, Wide};
ghost use Rattle.ring_corners.specs.Sides.{sign_of};

use std::cmp::Ordering;
use terms::Corner;

// A corner, seen from another that is not far from it.
pub fn seen(from: Corner, corner: Corner) -> Corner
    requires { Wide (corner_of corner) (corner_of from) }
    ensures { corner_of result ≡ seen_from (corner_of from) (corner_of corner) }
{
    Corner {
        x: corner.x - from.x,
        y: corner.y - from.y,
    }
}

// D of the edge from the origin to u at v, which is also what the edge from u to v adds to the doubled area.
pub fn cross(u: Corner, v: Corner) -> i64
    requires { Small 40_000_000 (corner_of u) × Small 40_000_000 (corner_of v) }
    ensures { result ≡ area_term (corner_of u to corner_of v) }
{
    u.x * v.y - v.x * u.y
}

// D of the edge from a to b at p, which may be an edge of one ring and a corner of another.
// An edge goes as its two corners, as the rules' D has them: a type for it would be taken apart in every line.
#[tactic(auto, using(crate::specs::Laws::Sides::seen_small, crate::specs::Laws::Sides::side_is))]
pub fn side(a: Corner, b: Corner, p: Corner) -> i64
    requires { Wide (corner_of b) (corner_of a) × Wide (corner_of p) (corner_of a) }
    ensures { result ≡ D (corner_of a) (corner_of b) (corner_of p) }
{
    cross(seen(a, b), seen(a, p))
}

// The sign of D for a near point.
#[tactic(auto, using(crate::specs::Laws::Sides::near_wide, crate::specs::Laws::Sides::sign_is))]
pub fn near_sign(a: Corner, b: Corner, p: Corner) -> Ordering
    requires { Near (corner_of b) (corner_of a) × Near (corner_of p) (corner_of a) }
    ensures { result ≡ sign_of (D (corner_of a) (corner_of b) (corner_of p)) }
{
    side(a, b, p).cmp(&0)
}

// The sign of D where X of the point lies between those of a and b: a point beyond both in Y is decided by that, and any other is near.
#[tactic(auto, using(crate::specs::Laws::Sides::near_between, crate::specs::Laws::Sides::sign_above, crate::specs::Laws::Sides::sign_below))]
pub fn passing_sign(a: Corner, b: Corner, p: Corner) -> Ordering
    requires { (a.x ≤ℤ p.x) × (p.x <ℤ b.x) × Near (corner_of b) (corner_of a) }
    ensures { result ≡ sign_of (D (corner_of a) (corner_of b) (corner_of p)) }
{
    if a.y < p.y && b.y < p.y {
        Ordering::Greater
    } else if p.y < a.y && p.y < b.y {
        Ordering::Less
    } else {
        near_sign(a, b, p)
    }
}
