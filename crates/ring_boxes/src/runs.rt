// The boxes of a ring's runs of edges, worked once and handed on.
ghost use Rattle.std.specs.Prelude.{◌≡◌, ◌<◌, length};
ghost use Rattle.ring_corners.specs.Corners.{pairs};
ghost use Rattle.ring_boxes.specs.Boxes.{RunEnd, Boxed};

use crate::reach::{Reach, box_of};
use ring_corners::Ring;
use terms::Corner;

// A list of boxes before it is filled.
pub const UNFILLED: [Reach; 64] = [Reach {
    low: Corner { x: 0, y: 0 },
    high: Corner { x: 0, y: 0 },
}; 64];

// The lesser of `stop` and the last corner of run m.
pub fn run_end(m: usize, stop: usize) -> usize
    requires { m < 64 }
    ensures { RunEnd m stop result }
{
    stop.min(16 * m + 16)
}

// The boxes of all runs. What the list has after the last run's box is of no account.
#[tactic(auto, using(crate::specs::Laws::Filled::filled_start, crate::specs::Laws::Filled::filled_all))]
pub fn fill(ring: &Ring, boxes: &mut [Reach; 64])
    ensures { Boxed (pairs ring.now.corners.now) boxes.new × (length boxes.new ≡ 64) }
{
    let last = ring.count() - 1;
    let runs = last.div_ceil(16);
    for m in 0..runs {
        boxes[m] = box_of(ring.corners, 16 * m, run_end(m, last));
    }
}
