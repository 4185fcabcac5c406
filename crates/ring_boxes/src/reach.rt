// A box and what it holds: two corners, one corner more, or all corners of a part of a ring.
ghost use Rattle.std.specs.Prelude.{◌≡◌, ◌<◌, ◌≤◌, length};
ghost use Rattle.terms.specs.Papers.{corner_of};
ghost use Rattle.ring_corners.specs.Corners.{pairs};
ghost use Rattle.ring_boxes.specs.Boxes.{lower, upper, Spans};

use ring_corners::corners;
use terms::Corner;

// A box, by the corners of its lowest and of its highest numbers.
#[derive(Clone, Copy)]
pub struct Reach {
    pub low: Corner,
    pub high: Corner,
}

impl Reach {
    // The least box of two corners, such as the ends of an edge.
    pub fn of(a: Corner, b: Corner) -> Reach
        ensures low { corner_of result.low ≡ lower (corner_of a) (corner_of b) }
        ensures high { corner_of result.high ≡ upper (corner_of a) (corner_of b) }
    {
        Reach {
            low: Corner {
                x: a.x.min(b.x),
                y: a.y.min(b.y),
            },
            high: Corner {
                x: a.x.max(b.x),
                y: a.y.max(b.y),
            },
        }
    }

    // The least box of a box and a corner.
    pub fn with(self, corner: Corner) -> Reach
        ensures low { corner_of result.low ≡ lower (corner_of self.low) (corner_of corner) }
        ensures high { corner_of result.high ≡ upper (corner_of self.high) (corner_of corner) }
    {
        Reach {
            low: Reach::of(self.low, corner).low,
            high: Reach::of(self.high, corner).high,
        }
    }
}

// The least box of the corners from number `start` to number `end`.
// Corners by themselves and no `Ring`: the box needs no accepted ring, so its caller is asked for none.
#[tactic(auto, using(crate::specs::Laws::Spans::spans_start, crate::specs::Laws::Spans::spans_step))]
pub fn box_of(corners: &[i64], start: usize, end: usize) -> Reach
    requires { (start ≤ end) × (end < length (pairs corners.now)) × (length (pairs corners.now) ≤ 1024) }
    ensures { Spans (pairs corners.now) start end result }
{
    let first = corners::corner_at(corners, start);
    let mut around = Reach::of(first, first);
    for k in start..end {
        around = around.with(corners::corner_at(corners, k + 1));
    }
    around
}
