// The ring calls: doubled area, turning number, crossing and nozzle of a ring that is lent as a flat slice of numbers, X and Y of each corner in turn.
// Each answers as the rules do, refusals included, for every slice and every point; no call copies the ring.
#![tactic(auto)]

ghost use Rattle.std.specs.Prelude.{◌≡◌};
ghost use Rattle.rules.specs.RingAnswers.{crossing_answer, nozzle_answer};
ghost use Rattle.rings.specs.Answers.{AreaCall, TurningCall, crossing_paper, nozzle_paper, position_answer};
ghost use Rattle.ring_checks.specs.Checks.{checked};
ghost use Rattle.terms.specs.Papers.{corner_of, passed_paper};

use ring_turning::turning;
use terms::{Corner, Position, Refusal};

mod crossed;
mod looked;
mod standing;

// The checks of a ring by its numbers alone: 6, 7 or 8. Whether it is crossed, 9, is not asked.
pub fn check(corners: &[i64]) -> Result<(), Refusal>
    ensures { passed_paper result ≡ checked corners.now }
{
    ring_checks::check(corners)
}

// The doubled area, positive where the ring runs clockwise on the map. A crossed ring has one too.
#[tactic(auto, using(ring_checks::proofs::Laws::Steps::refused_bind, ring_checks::proofs::Laws::Steps::answered_bind), unfolding(rules::specs::RingAnswers::area_answer))]
pub fn area2(corners: &[i64]) -> Result<i64, Refusal>
    ensures { AreaCall corners.now result }
{
    let ring = ring_checks::ring(corners)?;
    Ok(ring_area::doubled(&ring))
}

// The turning number at a point, which may be any pair of numbers. A crossed ring has one too.
#[tactic(auto, using(ring_checks::proofs::Laws::Steps::refused_bind, ring_checks::proofs::Laws::Steps::answered_bind), unfolding(rules::specs::RingAnswers::turning_answer))]
pub fn turning_number(corners: &[i64], p: Corner) -> Result<i64, Refusal>
    ensures { TurningCall corners.now (corner_of p) result }
{
    let ring = ring_checks::ring(corners)?;
    Ok(turning::number(&ring, p))
}

// Where a point stands to a ring whose crossing was judged before: the checks 6, 7 and 8 are made, and never 9.
#[tactic(auto, using(ring_checks::proofs::Laws::Steps::refused_bind, ring_checks::proofs::Laws::Steps::answered_bind), unfolding(crate::specs::Answers::position_answer))]
pub fn position(corners: &[i64], p: Corner) -> Result<Position, Refusal>
    ensures { nozzle_paper result ≡ position_answer corners.now (corner_of p) }
{
    let ring = ring_checks::ring(corners)?;
    Ok(standing::standing(&ring, p))
}

// How many pairs of edges were looked at to find that no two make a crossed pair; or the refusal 9 with the pair that do, the first in order of the lower edge, then of
// the higher, and how many were looked at.
#[tactic(auto, using(ring_checks::proofs::Laws::Steps::refused_bind, ring_checks::proofs::Laws::Steps::answered_bind), unfolding(rules::specs::RingAnswers::crossing_answer))]
pub fn crossing(corners: &[i64]) -> Result<u64, Refusal>
    ensures { crossing_paper result ≡ crossing_answer corners.now }
{
    let ring = ring_checks::ring(corners)?;
    crossed::first_pair(&ring)
}

// Border, open or shut at a point; a crossed ring is refused with its first pair of edges and the pairs looked at.
#[tactic(auto, using(ring_checks::proofs::Laws::Steps::refused_bind, ring_checks::proofs::Laws::Steps::answered_bind), unfolding(rules::specs::RingAnswers::nozzle_answer))]
pub fn nozzle(corners: &[i64], p: Corner) -> Result<Position, Refusal>
    ensures { nozzle_paper result ≡ nozzle_answer corners.now (corner_of p) }
{
    let ring = ring_checks::ring(corners)?;
    crossed::first_pair(&ring)?;
    Ok(standing::standing(&ring, p))
}
