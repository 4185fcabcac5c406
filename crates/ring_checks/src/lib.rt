// The checks 6, 7 and 8 of a ring.
#![tactic(auto)]

ghost use Rattle.std.specs.Prelude.{◌≡◌, ◌<◌, false, length, ◌≤ℤ◌, IfOk};
ghost use Rattle.rules.specs.Refusals.{◌if◌};
ghost use Rattle.rules.specs.RingAnswers.{ring_checks};
ghost use Rattle.ring_checks.specs.Checks.{checked, numbers_checked, far, long};
ghost use Rattle.ring_corners.specs.Corners.{pairs};
ghost use Rattle.ring_corners.specs.declared.rings.Ring.{Ring};
ghost use Rattle.terms.specs.Papers.{paper, passed_paper};

use ring_corners::{Ring, corners};
use terms::{Corner, Refusal};

// 7 of an axis whose numbers reach from low to high.
fn inside(low: i64, high: i64) -> Result<(), Refusal>
    requires { low ≤ℤ high }
    ensures { passed_paper result ≡ 7 if far low high }
{
    if low < -10_000_000_000 || 10_000_000_000 < high {
        return Err(Refusal::CornerNumber);
    }
    Ok(())
}

// 8 of an axis whose numbers are within ±10^10, so that their difference fits.
fn narrow(low: i64, high: i64) -> Result<(), Refusal>
    requires { far low high ≡ false }
    ensures { passed_paper result ≡ 8 if long low high }
{
    if 20_000_000 < high - low {
        return Err(Refusal::SpanTooLarge);
    }
    Ok(())
}

// 7 or 8 of the corners' numbers, the first that is met: one pass finds the smallest and the largest number of each axis.
// The two corners are worked as in `Reach::with` of ring_boxes, which stands above this crate.
fn numbers(corners: &[i64]) -> Result<(), Refusal>
    requires { 0 < length (pairs corners.now) }
    ensures { passed_paper result ≡ numbers_checked (pairs corners.now) }
{
    let n = corners.len() / 2;
    let mut low = corners::corner_at(corners, 0);
    let mut high = low;
    for k in 1..n {
        let corner = corners::corner_at(corners, k);
        low = Corner {
            x: low.x.min(corner.x),
            y: low.y.min(corner.y),
        };
        high = Corner {
            x: high.x.max(corner.x),
            y: high.y.max(corner.y),
        };
    }
    inside(low.x, high.x)?;
    inside(low.y, high.y)?;
    narrow(low.x, high.x)?;
    narrow(low.y, high.y)
}

// 6, 7 or 8, the first that is met.
pub fn check(corners: &[i64]) -> Result<(), Refusal>
    ensures { passed_paper result ≡ checked corners.now }
{
    let n = corners.len();
    if n % 2 == 1 || n < 6 || 2048 < n {
        return Err(Refusal::CornerCount);
    }
    numbers(corners)
}

// The ring of the numbers, where they pass.
#[tactic(auto, using(crate::proofs::Laws::Accept::accepted, crate::proofs::Laws::Accept::refuses))]
pub fn ring(corners: &[i64]) -> Result<Ring<'_>, Refusal>
    ensures answer { paper (λ (ring : Ring). pairs ring.corners.now) result ≡ ring_checks corners.now }
    ensures lent { IfOk result (λ (ring : Ring). ring.corners.now ≡ corners.now) }
{
    check(corners)?;
    Ok(Ring { corners })
}
