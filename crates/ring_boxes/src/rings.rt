// An accepted ring that is handed on with the boxes of its runs.
ghost use Rattle.std.specs.Prelude.{◌≡◌, ◌+◌, ◌<◌, length, get_or};
ghost use Rattle.rules.specs.Rings.{origin};
ghost use Rattle.terms.specs.Papers.{corner_of};
ghost use Rattle.ring_corners.specs.Corners.{pairs, Accepted};
ghost use Rattle.ring_boxes.specs.Boxes.{Boxed};

use crate::reach::Reach;
use ring_corners::{Ring, corners};
use terms::Corner;

// The boxes are those that `fill` makes, or none: a ring of few corners is searched as fast without.
// No `Ring` in it, because every clause of its callers would then say `ring.now.ring.corners.now`.
#[derive(Clone, Copy)]
pub struct BoxedRing<'a> {
    pub corners: &'a [i64],
    pub boxes: &'a [Reach],
    ghost accepted: { Accepted corners.now },
    ghost boxed: { Boxed (pairs corners.now) boxes.now },
}

impl<'a> BoxedRing<'a> {
    // The ring without boxes.
    #[tactic(auto, using(crate::specs::Laws::Filled::no_boxes))]
    pub fn plain(ring: &Ring<'a>) -> BoxedRing<'a>
        ensures { result.corners.now ≡ ring.now.corners.now }
    {
        BoxedRing {
            corners: ring.corners,
            boxes: &[],
        }
    }

    // The number of the last corner, and of the edge from there to the first.
    pub fn last(&self) -> usize
        ensures { result + 1 ≡ length (pairs self.now.corners.now) }
    {
        self.corners.len() / 2 - 1
    }

    pub fn corner(&self, i: usize) -> Corner
        requires { i < length (pairs self.now.corners.now) }
        ensures { corner_of result ≡ get_or (pairs self.now.corners.now) i origin }
    {
        corners::corner_at(self.corners, i)
    }
}
