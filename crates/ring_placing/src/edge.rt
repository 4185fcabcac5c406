// Whether an edge shares a point with an edge of a ring that it is not of. Boxes are compared first, which multiplies nothing.
ghost use Rattle.std.specs.Prelude.{◌≡◌, false, ◌<◌, length, get_or};
ghost use Rattle.rules.specs.Rings.{◌to◌, origin, edges};
ghost use Rattle.rules.specs.Crossing.{meets};
ghost use Rattle.rules.specs.Placing.{meets_one};
ghost use Rattle.terms.specs.Papers.{corner_of};
ghost use Rattle.ring_corners.specs.Corners.{pairs, Near};
ghost use Rattle.ring_boxes.specs.Boxes.{lower, upper};
ghost use Rattle.ring_pairs.specs.Crossings.{away};

use ring_boxes::{BoxedRing, Reach};
use ring_pairs::{meeting, search};
use terms::Corner;

// Whether the edge a-b and the ring's edge from corner i to j share a point, where their boxes touch: by the sides alone. Touching boxes are what keeps the products
// small, for the corners of two rings may lie far apart.
fn meets_touching(ring: &BoxedRing, i: usize, j: usize, a: Corner, b: Corner) -> bool
    requires { (i < length (pairs ring.now.corners.now)) × (j < length (pairs ring.now.corners.now)) × Near (corner_of b) (corner_of a) × (away (lower (corner_of a) (corner_of b)) (upper (corner_of a) (corner_of b)) (get_or (pairs ring.now.corners.now) i origin) (get_or (pairs ring.now.corners.now) j origin) ≡ false) }
    ensures { result ≡ meets (corner_of a to corner_of b) (get_or (pairs ring.now.corners.now) i origin to get_or (pairs ring.now.corners.now) j origin) }
{
    meeting::straddles(a, b, ring.corner(i), ring.corner(j))
}

// Whether the edge a-b shares a point with an edge of the ring. The loop runs over the edges whose head is the next corner, and jumps over those that are away, most of
// them sixteen at a time by the ring's boxes; the last edge, which runs to the first corner, is tested beside it.
// `first_met_by` of ring_pairs has this loop too, over another test, and answers which edge it is.
pub fn meets_ring(ring: &BoxedRing, a: Corner, b: Corner) -> bool
    requires { Near (corner_of b) (corner_of a) }
    ensures { result ≡ meets_one (corner_of a to corner_of b) (edges (pairs ring.now.corners.now)) }
{
    let around = Reach::of(a, b);
    let last = ring.last();
    let mut l = 0;
    while l < last {
        l = search::next_near(ring.corners, ring.boxes, around, l, last);
        if l < last {
            if meets_touching(ring, l, l + 1, a, b) {
                return true;
            }
            l += 1;
        }
    }
    !meeting::away(around, ring.corner(last), ring.corner(0)) && meets_touching(ring, last, 0, a, b)
}
