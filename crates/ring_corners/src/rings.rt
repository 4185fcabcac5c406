// An accepted ring: a flat slice that passed the checks 6, 7 and 8.
ghost use Rattle.std.specs.Prelude.{◌≡◌, ◌<◌, length, get_or};
ghost use Rattle.rules.specs.Rings.{origin};
ghost use Rattle.terms.specs.Papers.{corner_of};
ghost use Rattle.ring_corners.specs.Corners.{pairs, Accepted};

use crate::corners;
use terms::Corner;

// The value is made where the checks are passed, and what takes it asks no more of its caller.
#[derive(Clone, Copy)]
pub struct Ring<'a> {
    pub corners: &'a [i64],
    ghost accepted: { Accepted corners.now },
}

impl<'a> Ring<'a> {
    // How many corners it has, and so how many edges.
    #[tactic(auto, using(crate::specs::Laws::Flat::count_half))]
    pub fn count(&self) -> usize
        ensures { result ≡ length (pairs self.now.corners.now) }
    {
        self.corners.len() / 2
    }

    pub fn corner(&self, i: usize) -> Corner
        requires { i < length (pairs self.now.corners.now) }
        ensures { corner_of result ≡ get_or (pairs self.now.corners.now) i origin }
    {
        corners::corner_at(self.corners, i)
    }
}
