// Where a point stands to an accepted ring: on its border, or inside or outside by the turning number. One pass over the edges tells both.
ghost use Rattle.std.specs.Prelude.{◌≡◌};
ghost use Rattle.rules.specs.RingAnswers.{nozzle};
ghost use Rattle.ring_corners.specs.Corners.{pairs};
ghost use Rattle.rings.specs.Standing.{settled_as};
ghost use Rattle.terms.specs.Papers.{corner_of, nozzle_of};

use ring_corners::{Ring, corners};
use ring_turning::touching;
use terms::{Corner, Position};

// Of a point that lies on no edge, by its turning number.
#[tactic(auto, unfolding(crate::specs::Standing::settled_as))]
fn settled(sum: i64) -> Position
    ensures { nozzle_of result ≡ settled_as sum }
{
    if sum == 0 {
        Position::Shut
    } else {
        Position::Open
    }
}

#[tactic(auto, using(ring_corners::specs::Laws::Flat::next_inside, crate::proofs::Laws::Standing::passing_end, crate::proofs::Laws::Standing::passing_fits, crate::proofs::Laws::Standing::hit))]
pub fn standing(ring: &Ring, p: Corner) -> Position
    ensures { nozzle_of result ≡ nozzle (pairs ring.now.corners.now) (corner_of p) }
{
    let n = ring.count();
    let mut sum: i64 = 0;
    for i in 0..n {
        let Some(turn) = touching::touch_at(ring, i, corners::next(i, n), p) else {
            return Position::Border;
        };
        sum += turn;
    }
    settled(sum)
}
