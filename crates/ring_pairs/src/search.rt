// The first edge after a given one that makes a crossed pair with it. The loop runs over the edges that are no neighbours, and whose head is the next corner; the
// neighbour and the last edge, which runs to the first corner, are tested beside it. A ring's boxes are those of its runs of edges, as ring_boxes fills them, or none.
ghost use Rattle.std.specs.Prelude.{◌≡◌, false, ◌+◌, ◌-◌, ◌<◌, ◌≤◌, length, get_or, IfSome};
ghost use Rattle.rules.specs.Rings.{◌to◌, origin};
ghost use Rattle.rules.specs.Crossing.{meets, folds};
ghost use Rattle.terms.specs.Papers.{corner_of};
ghost use Rattle.ring_corners.specs.Corners.{pairs};
ghost use Rattle.ring_boxes.specs.Boxes.{Boxed};
ghost use Rattle.ring_pairs.specs.Crossings.{pair_away, leg_away, run_away, straddle, BoxOf, RunsTo, FirstNear, FirstMet, pair_at, pair_after, bad_at};

use crate::meeting;
use ring_boxes::{BoxedRing, Reach};
use ring_corners::corners;

// Whether neither of the edges from corner i to j and from corner k to l lies to one side of the other's line.
#[tactic(auto, using(crate::specs::Laws::Nearness::all_near))]
fn straddle_at(ring: &BoxedRing, i: usize, j: usize, k: usize, l: usize) -> bool
    requires { (i < length (pairs ring.now.corners.now)) × (j < length (pairs ring.now.corners.now)) × (k < length (pairs ring.now.corners.now)) × (l < length (pairs ring.now.corners.now)) }
    ensures { result ≡ straddle (get_or (pairs ring.now.corners.now) i origin) (get_or (pairs ring.now.corners.now) j origin) (get_or (pairs ring.now.corners.now) k origin) (get_or (pairs ring.now.corners.now) l origin) }
{
    meeting::straddles(
        ring.corner(i),
        ring.corner(j),
        ring.corner(k),
        ring.corner(l),
    )
}

// Whether the edge from corner i to j and the edge from corner j to k make a pair.
#[tactic(auto, using(crate::specs::Laws::Nearness::row_near))]
fn fold_at(ring: &BoxedRing, i: usize, j: usize, k: usize) -> bool
    requires { (i < length (pairs ring.now.corners.now)) × (j < length (pairs ring.now.corners.now)) × (k < length (pairs ring.now.corners.now)) }
    ensures { result ≡ folds (get_or (pairs ring.now.corners.now) i origin to get_or (pairs ring.now.corners.now) j origin) (get_or (pairs ring.now.corners.now) j origin to get_or (pairs ring.now.corners.now) k origin) }
{
    meeting::fold(ring.corner(i), ring.corner(j), ring.corner(k))
}

// The first number from `start` to before `stop` at which a box is not away, or `stop`, from where its callers count on: the box of that corner of one list and of the corner
// `shift` numbers on of another. By the ring's corners and the next ones these are the boxes of edges. Most pairs of edges end here, and nothing was multiplied.
// Corners by themselves and no `Ring`: the search needs no accepted ring, so its caller is asked for none.
#[tactic(auto, using(crate::specs::Laws::Search::skip_start, crate::specs::Laws::Search::skip_step, crate::specs::Laws::Search::skip_end, crate::specs::Laws::Search::near_here))]
pub fn first_near(
    first: &[i64],
    second: &[i64],
    shift: usize,
    around: Reach,
    start: usize,
    stop: usize,
) -> usize
    requires { (start ≤ stop) × (stop ≤ length (pairs first.now)) × (stop + shift ≤ length (pairs second.now)) × (stop + shift ≤ 1024) }
    ensures { FirstNear (pair_away (corner_of around.low) (corner_of around.high) (pairs first.now) (pairs second.now) shift) start stop result }
{
    for l in start..stop {
        if !meeting::away(
            around,
            corners::corner_at(first, l),
            corners::corner_at(second, l + shift),
        ) {
            return l;
        }
    }
    stop
}

// The first run from number `start` to before `stop` whose box is not away, or `stop`. It reads boxes that are made, and the search over edges two corners each: one
// function for both would take a closure for what it reads, and be no plainer. In the loop of next_near, run by run, a comb of 1,024 corners took twice as long.
#[tactic(auto, using(crate::specs::Laws::Search::skip_start, crate::specs::Laws::Search::skip_step, crate::specs::Laws::Search::skip_end, crate::specs::Laws::Search::near_here))]
pub fn first_run_near(boxes: &[Reach], around: Reach, start: usize, stop: usize) -> usize
    requires { (start ≤ stop) × (stop ≤ length boxes.now) }
    ensures { FirstNear (run_away (corner_of around.low) (corner_of around.high) boxes.now) start stop result }
{
    for m in start..stop {
        if !meeting::away(around, boxes[m].low, boxes[m].high) {
            return m;
        }
    }
    stop
}

// How far the runs go that have a box and an edge before number `stop`, or one run farther that has a box.
fn runs_to(boxes: usize, stop: usize) -> usize
    requires { stop < 1024 }
    ensures { RunsTo boxes stop result }
{
    boxes.min(stop / 16 + 1)
}

// The first edge from number `start` to before number `stop` whose box is not away, or `stop`, from where its callers count on. Runs whose boxes are away are passed whole,
// so the loop is no `for`. Past the last box, so also where there are no boxes at all, edge by edge.
// Corners and boxes by themselves and no `BoxedRing`, for the same reason as in first_near.
pub fn next_near(
    corners: &[i64],
    boxes: &[Reach],
    around: Reach,
    start: usize,
    stop: usize,
) -> usize
    requires { Boxed (pairs corners.now) boxes.now × (start ≤ stop) × (stop < length (pairs corners.now)) × (length (pairs corners.now) ≤ 1024) }
    ensures { FirstNear (leg_away (corner_of around.low) (corner_of around.high) (pairs corners.now)) start stop result }
{
    let runs = runs_to(boxes.len(), stop);
    let mut l = start;
    while l < stop {
        let m = l / 16;
        if runs <= m {
            return first_near(corners, corners, 1, around, l, stop);
        }
        let n = first_run_near(boxes, around, m, runs);
        if m < n {
            l = ring_boxes::run_end(n - 1, stop);
        } else {
            let end = ring_boxes::run_end(m, stop);
            l = first_near(corners, corners, 1, around, l, end);
            if l < end {
                return l;
            }
        }
    }
    l
}

// The first edge from number `start` to before number `stop` that meets edge k, whose box is `around`. The loop jumps over the edges that are away, and asks for the
// next one at one place only, where the search is inlined: asked at two, a ring of six corners took a quarter longer.
fn first_met_by(
    ring: &BoxedRing,
    k: usize,
    around: Reach,
    start: usize,
    stop: usize,
) -> Option<usize>
    requires { (k + 1 < length (pairs ring.now.corners.now)) × (start ≤ stop) × (stop < length (pairs ring.now.corners.now)) × BoxOf (get_or (pairs ring.now.corners.now) k origin) (get_or (pairs ring.now.corners.now) (k + 1) origin) around }
    ensures { FirstMet (pairs ring.now.corners.now) k start stop result }
{
    let mut l = start;
    while l < stop {
        l = next_near(ring.corners, ring.boxes, around, l, stop);
        if l < stop {
            if straddle_at(ring, k, k + 1, l, l + 1) {
                return Some(l);
            }
            l += 1;
        }
    }
    None
}

// Whether the last edge, which is no neighbour behind edge k, makes a pair with it.
fn last_makes_pair(ring: &BoxedRing, k: usize, around: Reach) -> bool
    requires { (k + 2 < length (pairs ring.now.corners.now)) × BoxOf (get_or (pairs ring.now.corners.now) k origin) (get_or (pairs ring.now.corners.now) (k + 1) origin) around }
    ensures { result ≡ bad_at (pairs ring.now.corners.now) k (length (pairs ring.now.corners.now) - 1) }
{
    let last = ring.last();
    if k == 0 {
        return fold_at(ring, last, 0, 1);
    }
    !meeting::away(around, ring.corner(last), ring.corner(0))
        && straddle_at(ring, k, k + 1, last, 0)
}

// The first edge after k that makes a pair with it; edge k + 1 is not the last, and makes none.
fn past_next(ring: &BoxedRing, k: usize) -> Option<usize>
    requires { (k + 2 < length (pairs ring.now.corners.now)) × (bad_at (pairs ring.now.corners.now) k (k + 1) ≡ false) }
    ensures within { IfSome result (λ l. l < length (pairs ring.now.corners.now)) }
    ensures pair { pair_at k result ≡ pair_after (pairs ring.now.corners.now) k }
{
    let last = ring.last();
    let around = Reach::of(ring.corner(k), ring.corner(k + 1));
    match first_met_by(ring, k, around, k + 2, last) {
        Some(l) => Some(l),
        None => last_makes_pair(ring, k, around).then_some(last),
    }
}

// Whether edge k + 1 makes a pair with edge k.
fn next_makes_pair(ring: &BoxedRing, k: usize) -> bool
    requires { k + 1 < length (pairs ring.now.corners.now) }
    ensures { result ≡ bad_at (pairs ring.now.corners.now) k (k + 1) }
{
    if k + 2 <= ring.last() {
        fold_at(ring, k, k + 1, k + 2)
    } else {
        fold_at(ring, k, k + 1, 0)
    }
}

// The first edge after k that makes a pair with it, for any edge but the last.
pub fn later(ring: &BoxedRing, k: usize) -> Option<usize>
    requires { k + 1 < length (pairs ring.now.corners.now) }
    ensures within { IfSome result (λ l. l < length (pairs ring.now.corners.now)) }
    ensures pair { pair_at k result ≡ pair_after (pairs ring.now.corners.now) k }
{
    if next_makes_pair(ring, k) {
        Some(k + 1)
    } else if k + 1 < ring.last() {
        past_next(ring, k)
    } else {
        None
    }
}
