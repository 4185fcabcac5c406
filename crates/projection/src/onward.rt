// The forward after its checks: a point that is taken, to the plane.
ghost use Rattle.std.specs.Prelude.{◌≡◌, ℕ, ◌*◌, ◌/◌, ◌≤◌, ℤ, pos, nat_abs, ◌+ℤ◌, ◌-ℤ◌};
ghost use Rattle.rules.specs.Systems.{System};
ghost use Rattle.systems.specs.Zones.{Sized, Stands};
ghost use Rattle.double.specs.Value.{value};
ghost use Rattle.fixed.specs.Nearness.{turned};
ghost use Rattle.fixed.specs.Laws.Turned.{below_zero};
ghost use Rattle.projection_worked.specs.Worked.{scaled_part, scale_from, convergence_from, worked_X, worked_Y, worked_point};
ghost use Rattle.projection.specs.Answers.{point_of};
ghost use Rattle.terms.specs.Papers.{ellipsoid_of};
ghost use Rattle.projection_worked.specs.Bounds.{Tame, Sloped};
ghost use Rattle.double.specs.Complex.{Numbers};
ghost use Rattle.fixed.specs.Worked.{S60, mul60};
ghost use Rattle.fixed_forward.specs.Points.{SphereSizes};
ghost use Rattle.fixed_scale.specs.Scale.{square60, ratio60, meridian60, spread60, sphere_scale60};
ghost use Rattle.fixed_scale.specs.Length.{length60};
ghost use Rattle.fixed_scale.specs.Convergence.{sine_f60, turn60, convergence60};
ghost use Rattle.fixed_units.specs.Worked.{scale_units, m0_units, convergence_units};
ghost use Rattle.projection.specs.Located.{Taken, LocatedAt};

use crate::steps::SlopeParts;
use crate::{Point, steps};
use double::{Pair, series};
use fixed_forward::Mercator;
use projection_inverse::sides::{beside, turned};
use systems::Zone;
use terms::Corner;

// X and Y of the Gauss-Krüger pair p.
pub fn corner_of(zone: Zone, west: bool, p: Pair) -> Corner
    requires { Sized zone × Tame p }
    ensures x_value { (result.x ≡ zone.north +ℤ scaled_part (nat_abs zone.millionths) (value p.re)) × (result.y ≡ zone.east +ℤ turned west (scaled_part (nat_abs zone.millionths) (value p.im))) }
    ensures size { (nat_abs result.x ≤ 18000001001) × (nat_abs result.y ≤ 18000001001) }
{
    let north = steps::after_scale(zone, p.re);
    let east = steps::after_scale(zone, p.im);
    Corner {
        x: beside(zone.north, false, north),
        y: beside(zone.east, west, east),
    }
}

// A point's side of the central meridian, and Mercator's pair with what it is worked from. The side stands beside the sizes, because a series takes a size
// alone, and the sign is put on what it answers.
#[derive(Clone, Copy)]
pub struct Located {
    pub west: bool,
    pub mercator: Mercator,
}

// Of a point that is taken. Zone, B and L one by one, as the call and the paper's steps have them.
pub fn locate(zone: Zone, b: i64, l: i64) -> Located
    requires { Taken zone b l }
    ensures { LocatedAt (ellipsoid_of zone.ellipsoid) (nat_abs b) (l -ℤ zone.meridian) result }
{
    let mercator = fixed_forward::mercator60(zone.ellipsoid, b as u64, l.abs_diff(zone.meridian));
    Located {
        west: l < zone.meridian,
        mercator,
    }
}

// X and Y of a point that is taken.
pub fn plane_at(zone: Zone, b: i64, l: i64) -> Corner
    requires { Taken zone b l }
    ensures { (s : System) → Stands zone s → (result.x ≡ worked_X s b (l -ℤ s.L0)) × (result.y ≡ worked_Y s b (l -ℤ s.L0)) }
{
    let at = locate(zone, b, l);
    let z = steps::argument(at.mercator.north, at.mercator.east);
    corner_of(zone, at.west, series::forward(zone.ellipsoid, z))
}

// Scale in units of 10^-9, with the zone's m0 in it, of the derivative's parts. How large `across` is, is asked here and is no fact of `Mercator`: the functions of
// fixed_scale take the number and not that struct.
pub fn scale_of(zone: Zone, m: Mercator, parts: SlopeParts) -> i64
    requires { Sized zone × SphereSizes m.sphere × (m.across ≤ 11 * S60 / 100) × (parts.first ≤ 101 * S60 / 100) × (parts.slope ≤ 30 * S60 / 100000) }
    ensures { result ≡ pos (scale_units (m0_units (nat_abs zone.millionths)) (mul60 (sphere_scale60 (ratio60 (ellipsoid_of zone.ellipsoid)) m.sphere.k (meridian60 (square60 (ellipsoid_of zone.ellipsoid)) m.sphere.t) m.sphere.d2 (spread60 m.across)) (length60 parts.first parts.slope))) }
{
    let shape = fixed_scale::shape60(zone.ellipsoid);
    let scale = fixed_scale::scale60(shape, m.sphere, m.across, parts.first, parts.slope);
    fixed_units::scale_units(scale, steps::m0_units(zone)) as i64
}

// Convergence in thousandths of an arc second; `back` says that the derivative turns the other way.
pub fn convergence_of(m: Mercator, west: bool, back: bool, slope: u64) -> i64
    requires { SphereSizes m.sphere × (slope ≤ 30 * S60 / 100000) }
    ensures { result ≡ convergence_units (turned west (convergence60 (turn60 (sine_f60 m.sphere.n2 m.sphere.d2) m.sphere.sd m.sphere.cd) back slope)) }
{
    let turn = fixed_scale::turn60(m.sphere);
    let east = fixed_scale::convergence60(turn, back, slope);
    let angle = turned(west, east);
    fixed_units::convergence_units(angle)
}

// All four numbers of a located point, of the Gauss-Krüger pair p and the derivative h.
pub fn point_answer(zone: Zone, at: Located, p: Pair, h: Pair) -> Point
    requires { Sized zone × Tame p × Numbers h × Sloped h × SphereSizes at.mercator.sphere × (at.mercator.across ≤ 11 * S60 / 100) }
    ensures { (n : ℕ) (d : ℤ) → LocatedAt (ellipsoid_of zone.ellipsoid) n d at → (result.x ≡ zone.north +ℤ scaled_part (nat_abs zone.millionths) (value p.re)) × (result.y ≡ zone.east +ℤ turned (below_zero d) (scaled_part (nat_abs zone.millionths) (value p.im))) × (result.scale ≡ scale_from (ellipsoid_of zone.ellipsoid) (nat_abs zone.millionths) n (nat_abs d) h) × (result.convergence ≡ convergence_from (ellipsoid_of zone.ellipsoid) n d h) }
{
    let corner = corner_of(zone, at.west, p);
    let parts = steps::slope_parts(h);
    Point {
        x: corner.x,
        y: corner.y,
        scale: scale_of(zone, at.mercator, parts),
        convergence: convergence_of(at.mercator, at.west, h.im < 0.0, parts.slope),
    }
}

// X, Y, scale and convergence of a point that is taken.
// A function of its own when it runs too: within `forward` a refused call would set aside the registers that only a taken point needs, and take up to twice as long.
#[inline(never)]
pub fn point_at(zone: Zone, b: i64, l: i64) -> Point
    requires { Taken zone b l }
    ensures { (s : System) → Stands zone s → point_of result ≡ worked_point s b (l -ℤ s.L0) }
{
    let at = locate(zone, b, l);
    let z = steps::argument(at.mercator.north, at.mercator.east);
    let p = series::forward(zone.ellipsoid, z);
    let h = series::derivative(zone.ellipsoid, z);
    point_answer(zone, at, p, h)
}
