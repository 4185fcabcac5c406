// The inverse after refusal 1: the plane's checks, and the steps from the plane back to latitude and longitude.
ghost use Rattle.std.specs.Prelude.{◌≡◌, ◌*◌, ◌^◌, ◌≤◌};
ghost use Rattle.rules.specs.Systems.{System};
ghost use Rattle.rules.specs.Points.{judged};
ghost use Rattle.fixed.specs.Nearness.{turned};
ghost use Rattle.systems.specs.Zones.{Sized, Stands};
ghost use Rattle.terms.specs.Papers.{ellipsoid_of};
ghost use Rattle.double.specs.Value.{value};
ghost use Rattle.metres.specs.Millimetres.{truncated};
ghost use Rattle.fixed_inverse.specs.Worked.{latitude_ticks, difference_ticks};
ghost use Rattle.projection_inverse.specs.Answers.{inverse_paper};
ghost use Rattle.projection_worked.specs.Bounds.{Placed};
ghost use Rattle.projection_worked.specs.Inverse.{Boxed, InBox, undone30, centred30, mercator_pair, ticks_from, worked_ticks, in_system};

use crate::Geodetic;
use crate::sides::{beside, turned};
use double::{Pair, series};
use fixed_inverse::Ticks;
use systems::Zone;
use terms::{Ellipsoid, Refusal};

// Millimetres with m0 undone, in units of 2^-30 m, gone down. Two divisions: the product of both factors would not fit 64 bits.
pub fn undone(size: u64, millionths: u64) -> u64
    requires { (size ≤ 10000000000) × (999000 ≤ millionths) × (millionths ≤ 1000000) }
    ensures { result ≡ undone30 millionths size }
{
    let thousands = size * 1000;
    let whole = thousands / millionths;
    let rest = thousands % millionths;
    whole * 1073741824 + rest * 1073741824 / millionths
}

// The length north, less a0 of the ellipsoid, in units of 2^-30 m.
pub fn centred(ellipsoid: Ellipsoid, north: u64) -> i64
    requires { north ≤ 6250000 * 2 ^ 30 }
    ensures { result ≡ centred30 (ellipsoid_of ellipsoid) north }
{
    match ellipsoid {
        Ellipsoid::Krasovsky => north as i64 - 6190315423164320,
        Ellipsoid::Grs80 => north as i64 - 6190316082331924,
    }
}

// Mercator's pair in metres of a point in the box, so many millimetres north of the offset and to a side of it.
pub fn mercator_pair(ellipsoid: Ellipsoid, millionths: u64, north: u64, east: u64) -> Pair
    requires { Boxed millionths north east }
    ensures { result ≡ mercator_pair (ellipsoid_of ellipsoid) millionths north east }
{
    let n = centred(ellipsoid, undone(north, millionths));
    let m = undone(east, millionths);
    series::inverse(ellipsoid, metres::arguments(n, m as i64))
}

// Refusals 2 and 3, on the ticks that would be answered.
pub fn judge(zone: Zone, b: i64, l: i64) -> Result<Geodetic, Refusal>
    requires { Sized zone }
    ensures { (s : System) → Stands zone s → inverse_paper result ≡ judged s (record { B = b; L = l }) }
{
    systems::check_point(zone, b, l)?;
    Ok(Geodetic {
        latitude: b,
        longitude: l,
    })
}

// The fixed-point inverse of Mercator's pair: the ticks of B, and of the difference of longitude as a size.
pub fn sizes(ellipsoid: Ellipsoid, p: Pair) -> Ticks
    requires { Placed p }
    ensures latitude_value { (result.latitude ≡ latitude_ticks (ellipsoid_of ellipsoid) (truncated 30 (value p.re)) (truncated 30 (value p.im))) × (result.difference ≡ difference_ticks (ellipsoid_of ellipsoid) (truncated 30 (value p.re)) (truncated 30 (value p.im))) }
    ensures small { (result.latitude ≤ 1000000000000) × (result.difference ≤ 1000000000000) }
{
    let x = metres::scaled(p.re, 30);
    let y = metres::scaled(p.im, 30);
    fixed_inverse::inverse60(ellipsoid, x, y)
}

// B and L of Mercator's pair, judged. The second part may come out a little below 0 near the meridian: then L lies on the other side.
pub fn answer(zone: Zone, west: bool, p: Pair) -> Result<Geodetic, Refusal>
    requires { Sized zone × Placed p }
    ensures { (s : System) → Stands zone s → inverse_paper result ≡ judged s (ticks_from s west p) }
{
    let t = sizes(zone.ellipsoid, p);
    let d = turned(p.im < 0.0, t.difference as i64);
    let l = beside(zone.meridian, west, d);
    judge(zone, t.latitude as i64, l)
}

// A point that passed refusal 4.
pub fn from_plane(zone: Zone, x: i64, y: i64) -> Result<Geodetic, Refusal>
    requires { InBox zone x y }
    ensures { (s : System) → Stands zone s → inverse_paper result ≡ judged s (worked_ticks s x y) }
{
    let north = x.abs_diff(zone.north);
    let east = y.abs_diff(zone.east);
    let p = mercator_pair(zone.ellipsoid, zone.millionths as u64, north, east);
    answer(zone, y < zone.east, p)
}

// Refusal 4, and the rest. X and Y, here and in the steps, and B and L in `judge`, go one by one, as the promise (`RightInverse code x y`) and the C interface have them.
pub fn in_zone(zone: Zone, x: i64, y: i64) -> Result<Geodetic, Refusal>
    requires { Sized zone × ((s : System) × Stands zone s) }
    ensures { (s : System) → Stands zone s → inverse_paper result ≡ in_system s x y }
{
    if systems::plane_refused(zone, x, y) {
        return Err(Refusal::PlaneOutside);
    }
    from_plane(zone, x, y)
}
