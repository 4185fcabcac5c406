// The tests that tell whether two edges make a crossed pair: of their boxes, which multiplies nothing and comes first, and of their sides.
ghost use Rattle.std.specs.Prelude.{◌≡◌, ◌||◌, pos};
ghost use Rattle.std.specs.Int.Signed.{lt_z};
ghost use Rattle.rules.specs.Rings.{◌to◌, D};
ghost use Rattle.rules.specs.Crossing.{aside, folds};
ghost use Rattle.terms.specs.Papers.{corner_of};
ghost use Rattle.ring_pairs.specs.Crossings.{outside, away, straddle, ahead, no_length, AllNear, RowNear};

use ring_boxes::Reach;
use ring_corners::sides;
use terms::Corner;

// Whether c and d lie both above high, or both below low. By the lesser and the greater of them, which are found without a jump: with tests of c and of d, each by
// itself, a field of 1,024 corners took a third to a half longer.
#[tactic(auto, using(crate::specs::Laws::Crossings::over_high))]
pub fn beyond(low: i64, high: i64, c: i64, d: i64) -> bool
    ensures { result ≡ outside low high c d }
{
    high < c.min(d) || c.max(d) < low
}

// Whether the box of c and d has no point in common with another. The two are the ends of an edge, or the corners of a box.
pub fn away(around: Reach, c: Corner, d: Corner) -> bool
    ensures { result ≡ away (corner_of around.low) (corner_of around.high) (corner_of c) (corner_of d) }
{
    beyond(around.low.x, around.high.x, c.x, d.x) || beyond(around.low.y, around.high.y, c.y, d.y)
}

// Whether two values of D have one sign, so that both points lie to one side.
#[tactic(auto, unfolding(rules::specs::Crossing::aside))]
fn one_side(s: i64, t: i64) -> bool
    ensures { result ≡ aside s t }
{
    0 < s && 0 < t || s < 0 && t < 0
}

// Whether c and d lie to one side of the line a-b.
fn both_aside(a: Corner, b: Corner, c: Corner, d: Corner) -> bool
    requires { AllNear (corner_of a) (corner_of b) (corner_of c) (corner_of d) }
    ensures { result ≡ aside (D (corner_of a) (corner_of b) (corner_of c)) (D (corner_of a) (corner_of b) (corner_of d)) }
{
    one_side(sides::side(a, b, c), sides::side(a, b, d))
}

// Whether neither of the edges a-b and c-d lies to one side of the other's line. Where their boxes touch, it says whether they share a point.
#[tactic(auto, unfolding(crate::specs::Crossings::straddle))]
pub fn straddles(a: Corner, b: Corner, c: Corner, d: Corner) -> bool
    requires { AllNear (corner_of a) (corner_of b) (corner_of c) (corner_of d) }
    ensures { result ≡ straddle (corner_of a) (corner_of b) (corner_of c) (corner_of d) }
{
    !both_aside(a, b, c, d) && !both_aside(c, d, a, b)
}

// Below 0 where the edge b-c runs back on the edge a-b.
fn onward(a: Corner, b: Corner, c: Corner) -> i64
    requires { RowNear (corner_of a) (corner_of b) (corner_of c) }
    ensures { result ≡ ahead (corner_of a) (corner_of b) (corner_of c) }
{
    (b.x - a.x) * (c.x - b.x) + (b.y - a.y) * (c.y - b.y)
}

// Of three corners on one line: whether b-c runs back on a-b, or a-b has no length.
fn straight_fold(a: Corner, b: Corner, c: Corner) -> bool
    requires { RowNear (corner_of a) (corner_of b) (corner_of c) }
    ensures { result ≡ (lt_z (ahead (corner_of a) (corner_of b) (corner_of c)) (pos 0) || no_length (corner_of a) (corner_of b)) }
{
    a == b || onward(a, b, c) < 0
}

// Whether the edge a-b and the edge b-c after it share more than b, or a-b has no length. Either way the three corners are on one line, as few are: that is asked first.
#[tactic(auto, using(ring_corners::specs::Laws::Tests::zero_is, crate::specs::Laws::Crossings::folds_straight, crate::specs::Laws::Crossings::folds_bent))]
pub fn fold(a: Corner, b: Corner, c: Corner) -> bool
    requires { RowNear (corner_of a) (corner_of b) (corner_of c) }
    ensures { result ≡ folds (corner_of a to corner_of b) (corner_of b to corner_of c) }
{
    sides::near_sign(a, b, c).is_eq() && straight_fold(a, b, c)
}
