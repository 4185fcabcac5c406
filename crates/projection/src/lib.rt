// The projection: latitude and longitude to plane, and back.
#![tactic(auto)]

ghost use Rattle.std.specs.Prelude.{◌≡◌};
ghost use Rattle.rules.specs.Points.{RightForward, RightInverse, Shows, plane_of};
ghost use Rattle.projection.specs.Answers.{forward_paper, plane_paper};
ghost use Rattle.projection.specs.Located.{Checked};
ghost use Rattle.projection_inverse.specs.Answers.{inverse_paper};
ghost use Rattle.projection_worked.specs.Inverse.{worked_inverse};
ghost use Rattle.projection_worked.specs.Worked.{worked_forward};

use systems::Zone;
use terms::{Corner, Refusal};

pub mod onward;
pub mod steps;

pub use projection_inverse::{Geodetic, backward};

// X and Y in millimetres, the scale in units of 10^-9 and the convergence in thousandths of an arc second.
#[derive(Clone, Copy, Debug, PartialEq, Eq)]
pub struct Point {
    pub x: i64,
    pub y: i64,
    pub scale: i64,
    pub convergence: i64,
}

// The system of a point that passes the checks 1, 2 and 3, in that order.
fn check(code: u8, b: i64, l: i64) -> Result<Zone, Refusal>
    ensures { Checked code b l result }
{
    let zone = systems::find_zone(code)?;
    systems::check_point(zone, b, l)?;
    Ok(zone)
}

// X, Y, scale and convergence, each within 0.51 of its unit of the definition, or refusal 1, 2 or 3, in that order.
// B and L one by one, as the promise (`RightForward code b l`) and the C interface have them; so also X and Y of `inverse`.
pub fn forward(code: u8, b: i64, l: i64) -> Result<Point, Refusal>
    ensures worked { forward_paper result ≡ worked_forward code b l }
    ensures band { RightForward code b l (forward_paper result) }
{
    let zone = check(code, b, l)?;
    Ok(onward::point_at(zone, b, l))
}

// X and Y alone, for rings and plane to plane: as forward, in its band and with its refusals 1, 2, 3.
pub fn forward_plane(code: u8, b: i64, l: i64) -> Result<Corner, Refusal>
    ensures worked { plane_paper result ≡ plane_of (worked_forward code b l) }
    ensures band { Shows (RightForward code b l) plane_of (plane_paper result) }
{
    let zone = check(code, b, l)?;
    Ok(onward::plane_at(zone, b, l))
}

// B and L of X and Y in millimetres, each within 0.6 tick of the definition, or refusal 1, 4, 2 or 3, in that order.
pub fn inverse(code: u8, x: i64, y: i64) -> Result<Geodetic, Refusal>
    ensures worked { inverse_paper result ≡ worked_inverse code x y }
    ensures band { RightInverse code x y (inverse_paper result) }
{
    let zone = systems::find_zone(code)?;
    backward::in_zone(zone, x, y)
}
