// The turning number of a ring by the boxes of its runs of edges.
ghost use Rattle.std.specs.Prelude.{◌≡◌, true};
ghost use Rattle.rules.specs.Rings.{turning_number};
ghost use Rattle.terms.specs.Papers.{corner_of};
ghost use Rattle.ring_corners.specs.Corners.{pairs};
ghost use Rattle.ring_placing.specs.Beside.{Beside};

use ring_boxes::{BoxedRing, Reach};
use ring_corners::Ring;
use ring_turning::turning;
use terms::Corner;

// Whether run m has a box that is away from the line from p straight down in Y. An edge adds to the turning number only where it meets that line, p left out.
fn run_beside(boxes: &[Reach], m: usize, p: Corner) -> bool
    ensures { result ≡ true → Beside boxes.now m (corner_of p) }
{
    match boxes.get(m) {
        Some(run) => p.x < run.low.x || run.high.x < p.x || p.y < run.low.y,
        None => false,
    }
}

// The turning number, with the runs passed that add nothing, so the loop is no `for`; the last edge, which is in no run, is added beside it.
pub fn number_by_runs(ring: &BoxedRing, p: Corner) -> i64
    ensures { result ≡ turning_number (pairs ring.now.corners.now) (corner_of p) }
{
    let plain = Ring {
        corners: ring.corners,
    };
    let last = ring.last();
    let mut sum: i64 = 0;
    let mut k = 0;
    while k < last {
        if run_beside(ring.boxes, k / 16, p) {
            k = ring_boxes::run_end(k / 16, last);
        } else {
            sum += turning::turn_at(&plain, k, k + 1, p);
            k += 1;
        }
    }
    sum + turning::turn_at(&plain, last, 0, p)
}
