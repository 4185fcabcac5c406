// The first crossed pair of a ring's edges, in order of the lower edge and then of the higher, and how many pairs were looked at: each edge in turn is asked for the
// first later edge that makes a pair with it. In a ring of many corners it is held against the boxes of runs of edges first.
ghost use Rattle.std.specs.Prelude.{◌≡◌};
ghost use Rattle.rules.specs.Crossing.{crossed};
ghost use Rattle.rules.specs.RingAnswers.{not_crossed};
ghost use Rattle.rings.specs.Answers.{crossing_paper};
ghost use Rattle.rings.specs.Found.{found_pair};
ghost use Rattle.ring_corners.specs.Corners.{pairs};

use crate::looked;
use ring_boxes::BoxedRing;
use ring_corners::Ring;
use ring_pairs::search;
use terms::{CrossedPair, Refusal};

// The pair as one number, or 1,048,576 where there is none: an answer of several would be stored, copied and read again, which a ring of six corners feels (a tenth of
// its time, as measured).
fn search(ring: &BoxedRing) -> usize
    ensures { found_pair result ≡ crossed (pairs ring.now.corners.now) }
{
    for k in 0..ring.last() {
        if let Some(l) = search::later(ring, k) {
            return 1024 * k + l;
        }
    }
    1048576
}

fn search_by_runs(ring: &Ring) -> usize
    ensures { found_pair result ≡ crossed (pairs ring.now.corners.now) }
{
    let mut boxes = ring_boxes::UNFILLED;
    ring_boxes::fill(ring, &mut boxes);
    let boxed = BoxedRing {
        corners: ring.corners,
        boxes: &boxes,
    };
    search(&boxed)
}

// Up to 24 corners, filling the boxes takes longer than they save.
fn search_all(ring: &Ring) -> usize
    ensures { found_pair result ≡ crossed (pairs ring.now.corners.now) }
{
    if 24 < ring.count() {
        search_by_runs(ring)
    } else {
        search(&BoxedRing::plain(ring))
    }
}

// All pairs of edges where none is crossed, or the refusal of the first that is.
pub fn first_pair(ring: &Ring) -> Result<u64, Refusal>
    ensures { crossing_paper result ≡ not_crossed (pairs ring.now.corners.now) }
{
    let edges = ring.count();
    let pair = search_all(ring);
    if pair < 1048576 {
        let low = pair / 1024;
        let high = pair % 1024;
        let place = looked::place_of(low, high, edges);
        return Err(Refusal::RingCrossed(CrossedPair {
            ring: 0,
            low: low as u64,
            high: high as u64,
            looked_at: place as u64,
        }));
    }
    Ok(looked::pairs_of(edges) as u64)
}
