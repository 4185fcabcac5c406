// The table of systems as the code has it, and the checks of a point against a system.
#![tactic(auto)]

ghost use Rattle.std.specs.Prelude.{◌≡◌, ◌≤◌, nat_abs, ◌+ℤ◌, ◌*ℤ◌};
ghost use Rattle.rules.specs.Systems.{System};
ghost use Rattle.rules.specs.Points.{latitude_bad, longitude_bad, plane_bad};
ghost use Rattle.systems.specs.Zones.{Found, Sized, Stands, beyond, point_checks};
ghost use Rattle.terms.specs.Papers.{passed_paper};

use terms::{Ellipsoid, Refusal};

// A system: the meridian and the reach to either side of it (the half-width) in ticks, m0 in millionths,
// the offsets north and east in millimetres.
// How small the numbers are is `Sized`, which is asked apart: `Found`, the promise of `find_zone`, names that record, and a fact of the struct's own may not cite a
// record that names the struct.
#[derive(Clone, Copy)]
pub struct Zone {
    pub ellipsoid: Ellipsoid,
    pub meridian: i64,
    pub reach: i64,
    pub millionths: i64,
    pub north: i64,
    pub east: i64,
}

// The row of a code, or that there is none (refusal 1). A table is read best in one place, a row an arm, so this function is longer than the others.
pub fn find_zone(code: u8) -> Result<Zone, Refusal>
    ensures { Found code result }
{
    match code {
        1 => Ok(Zone {
            ellipsoid: Ellipsoid::Grs80,
            meridian: 68_400_000_000,
            reach: 19_800_000_000,
            millionths: 999_300,
            north: -5_300_000_000,
            east: 500_000_000,
        }),
        2 => Ok(Zone {
            ellipsoid: Ellipsoid::Grs80,
            meridian: 54_000_000_000,
            reach: 5_400_000_000,
            millionths: 999_923,
            north: 0,
            east: 5_500_000_000,
        }),
        3 => Ok(Zone {
            ellipsoid: Ellipsoid::Grs80,
            meridian: 64_800_000_000,
            reach: 5_400_000_000,
            millionths: 999_923,
            north: 0,
            east: 6_500_000_000,
        }),
        4 => Ok(Zone {
            ellipsoid: Ellipsoid::Grs80,
            meridian: 75_600_000_000,
            reach: 5_400_000_000,
            millionths: 999_923,
            north: 0,
            east: 7_500_000_000,
        }),
        5 => Ok(Zone {
            ellipsoid: Ellipsoid::Grs80,
            meridian: 86_400_000_000,
            reach: 5_400_000_000,
            millionths: 999_923,
            north: 0,
            east: 8_500_000_000,
        }),
        6 => Ok(Zone {
            ellipsoid: Ellipsoid::Grs80,
            meridian: 54_000_000_000,
            reach: 10_800_000_000,
            millionths: 999_600,
            north: 0,
            east: 500_000_000,
        }),
        7 => Ok(Zone {
            ellipsoid: Ellipsoid::Grs80,
            meridian: 75_600_000_000,
            reach: 10_800_000_000,
            millionths: 999_600,
            north: 0,
            east: 500_000_000,
        }),
        8 => Ok(Zone {
            ellipsoid: Ellipsoid::Krasovsky,
            meridian: 54_000_000_000,
            reach: 10_800_000_000,
            millionths: 1_000_000,
            north: 0,
            east: 3_500_000_000,
        }),
        9 => Ok(Zone {
            ellipsoid: Ellipsoid::Krasovsky,
            meridian: 75_600_000_000,
            reach: 10_800_000_000,
            millionths: 1_000_000,
            north: 0,
            east: 4_500_000_000,
        }),
        10 => Ok(Zone {
            ellipsoid: Ellipsoid::Krasovsky,
            meridian: 54_000_000_000,
            reach: 5_400_000_000,
            millionths: 1_000_000,
            north: 0,
            east: 5_500_000_000,
        }),
        11 => Ok(Zone {
            ellipsoid: Ellipsoid::Krasovsky,
            meridian: 64_800_000_000,
            reach: 5_400_000_000,
            millionths: 1_000_000,
            north: 0,
            east: 6_500_000_000,
        }),
        12 => Ok(Zone {
            ellipsoid: Ellipsoid::Krasovsky,
            meridian: 75_600_000_000,
            reach: 5_400_000_000,
            millionths: 1_000_000,
            north: 0,
            east: 7_500_000_000,
        }),
        13 => Ok(Zone {
            ellipsoid: Ellipsoid::Krasovsky,
            meridian: 86_400_000_000,
            reach: 5_400_000_000,
            millionths: 1_000_000,
            north: 0,
            east: 8_500_000_000,
        }),
        14 => Ok(Zone {
            ellipsoid: Ellipsoid::Krasovsky,
            meridian: 68_250_000_000,
            reach: 7_200_000_000,
            millionths: 999_983,
            north: -4_700_000_000,
            east: 237_000_000,
        }),
        _ => Err(Refusal::CodeUnknown),
    }
}

// A number lies outside two ends, which are allowed.
fn outside(low: i64, high: i64, number: i64) -> bool
    ensures { result ≡ beyond low high number }
{
    number < low || high < number
}

// 2: B lies outside 48 to 56 degrees.
pub fn latitude_refused(b: i64) -> bool
    ensures { result ≡ latitude_bad b }
{
    outside(172_800_000_000, 201_600_000_000, b)
}

// 3: the size of L - L0 is above the half-width. L may be any number: nothing is subtracted from it.
pub fn longitude_refused(zone: Zone, l: i64) -> bool
    requires { Sized zone }
    ensures { (s : System) → Stands zone s → result ≡ longitude_bad s l }
{
    let west = zone.meridian - zone.reach;
    let east = zone.meridian + zone.reach;
    outside(west, east, l)
}

// The checks 2 and 3 of a point: its latitude, then its longitude.
pub fn check_point(zone: Zone, b: i64, l: i64) -> Result<(), Refusal>
    requires { Sized zone }
    ensures { (s : System) → Stands zone s → passed_paper result ≡ point_checks s b l }
{
    if latitude_refused(b) {
        return Err(Refusal::LatitudeOutside);
    }
    if longitude_refused(zone, l) {
        return Err(Refusal::LongitudeOutside);
    }
    Ok(())
}

// A number lies outside two ends given in km, each times m0 and moved by the offset: a millionth of m0 is a millimetre in a km.
fn outside_box(offset: i64, millionths: i64, low: i64, high: i64, number: i64) -> bool
    requires { (nat_abs offset ≤ 10000000000) × (nat_abs millionths ≤ 1000000) × (nat_abs low ≤ 10000) × (nat_abs high ≤ 10000) }
    ensures { result ≡ beyond (offset +ℤ millionths *ℤ low) (offset +ℤ millionths *ℤ high) number }
{
    let least = offset + millionths * low;
    let most = offset + millionths * high;
    outside(least, most, number)
}

// 4: the Gauss-Krüger point lies outside 5,300 to 6,250 km north and 420 km to either side, all times m0. X and Y one by one, as `plane_bad` has them.
pub fn plane_refused(zone: Zone, x: i64, y: i64) -> bool
    requires { Sized zone }
    ensures { (s : System) → Stands zone s → result ≡ plane_bad s x y }
{
    outside_box(zone.north, zone.millionths, 5_300, 6_250, x)
        || outside_box(zone.east, zone.millionths, -420, 420, y)
}
