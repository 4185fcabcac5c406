// A corner as the flat slice holds it, and the number of the next corner.
ghost use Rattle.std.specs.Prelude.{◌≡◌, ◌<◌, length, get_or};
ghost use Rattle.rules.specs.Rings.{origin};
ghost use Rattle.terms.specs.Papers.{corner_of};
ghost use Rattle.ring_corners.specs.Corners.{pairs, next_of};

use terms::Corner;

#[tactic(auto, using(crate::specs::Laws::Flat::count_of, crate::specs::Laws::Flat::corner_is))]
pub fn corner_at(corners: &[i64], i: usize) -> Corner
    requires { i < length (pairs corners.now) }
    ensures { corner_of result ≡ get_or (pairs corners.now) i origin }
{
    Corner {
        x: corners[2 * i],
        y: corners[2 * i + 1],
    }
}

// The number of the corner after number i, of n: the last is followed by the first.
#[tactic(auto, unfolding(crate::specs::Corners::next_of))]
pub fn next(i: usize, n: usize) -> usize
    requires { i < n }
    ensures { result ≡ next_of i n }
{
    if i + 1 < n { i + 1 } else { 0 }
}
