// Plane to plane between two systems of one ellipsoid, and the conversion of a whole ring.
#![tactic(auto)]

ghost use Rattle.std.specs.Prelude.{◌≡◌, length, IfOk};
ghost use Rattle.rules.specs.Points.{RightPlane, ShowsBoth};
ghost use Rattle.rules.specs.Conversion.{held, verdict, RightConversion};
ghost use Rattle.rules.specs.Conversion as Corners;
ghost use Rattle.ring_corners.specs.Corners.{pairs};
ghost use Rattle.projection.specs.Answers.{plane_paper};
ghost use Rattle.terms.specs.Papers.{passed_paper};
ghost use Rattle.conversion.specs.Codes.{code_checks};
ghost use Rattle.conversion.specs.Ring.{worked_conversion, ring_carried, outcome};
ghost use Rattle.conversion.specs.Plane.{worked_plane, carried};

use ring_corners::Ring;
use terms::{Corner, Refusal};

// The checks 1 (source, then target) and 5.
pub fn check_codes(source: u8, target: u8) -> Result<(), Refusal>
    ensures { passed_paper result ≡ code_checks source target }
{
    let from = systems::find_zone(source)?;
    let to = systems::find_zone(target)?;
    if from.ellipsoid == to.ellipsoid {
        Ok(())
    } else {
        Err(Refusal::EllipsoidsDiffer)
    }
}

// The inverse in the source, taken to the target: the point as it was where the codes are equal, and else the forward X, Y of its ticks.
fn convert(source: u8, target: u8, point: Corner) -> Result<Corner, Refusal>
    ensures { plane_paper result ≡ carried source target point.x point.y }
{
    let ticks = projection::inverse(source, point.x, point.y)?;
    if source == target {
        return Ok(point);
    }
    projection::forward_plane(target, ticks.latitude, ticks.longitude)
}

// Refusals 1 (source, then target), 5, then those of the inverse and of the forward. Each leg lies in its band.
pub fn plane_to_plane(source: u8, target: u8, x: i64, y: i64) -> Result<Corner, Refusal>
    ensures worked { plane_paper result ≡ worked_plane source target x y }
    ensures band { RightPlane source target x y (plane_paper result) }
{
    check_codes(source, target)?;
    convert(source, target, Corner { x, y })
}

// The numbers of the corners, every corner in order: the first refusal wins, and nothing is handed back before all are converted.
fn convert_corners(source: u8, target: u8, ring: &Ring) -> Result<[i64; 2048], Refusal>
    ensures size { IfOk result (λ numbers. length numbers ≡ 2048) }
    ensures numbers_value { outcome (length ring.now.corners.now) result ≡ Corners.converted (carried source target) (pairs ring.now.corners.now) }
{
    let mut numbers = [0i64; 2048];
    for i in 0..ring.count() {
        let corner = convert(source, target, ring.corner(i))?;
        numbers[2 * i] = corner.x;
        numbers[2 * i + 1] = corner.y;
    }
    Ok(numbers)
}

// A ring whose codes passed: refusals 6, 7, 8, 14, then those of its corners. Only a whole ring is written.
fn move_ring(source: u8, target: u8, corners: &[i64], output: &mut [i64]) -> Result<(), Refusal>
    ensures verdict { passed_paper result ≡ verdict (ring_carried source target corners.now output.old) }
    ensures held { output.new ≡ held (ring_carried source target corners.now output.old) output.old }
{
    let ring = ring_checks::ring(corners)?;
    if output.len() < corners.len() {
        return Err(Refusal::OutputTooShort);
    }
    let numbers = convert_corners(source, target, &ring)?;
    let count = corners.len();
    output[..count].copy_from_slice(&numbers[..count]);
    Ok(())
}

// Refusals 1 (source, then target), 5, 6, 7, 8, 14, then those of the corners in order, the first wins. On a refusal the output holds what it held;
// else the converted ring stands at its front, every corner in the band of plane to plane, and the places past it hold what they held.
pub fn convert_ring(
    source: u8,
    target: u8,
    corners: &[i64],
    output: &mut [i64],
) -> Result<(), Refusal>
    ensures verdict { passed_paper result ≡ verdict (worked_conversion source target corners.now output.old) }
    ensures held { output.new ≡ held (worked_conversion source target corners.now output.old) output.old }
    ensures band { ShowsBoth (RightConversion source target corners.now output.old) verdict (λ a. held a output.old) (passed_paper result) output.new }
{
    check_codes(source, target)?;
    move_ring(source, target, corners, output)
}
