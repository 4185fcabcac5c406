// The steps of the projection after the checks, each equal to its worked value.
ghost use Rattle.std.specs.Prelude.{◌≡◌, ◌-◌, ◌*◌, ◌/◌, ◌≤◌, pos, nat_abs, ◌≤ℤ◌};
ghost use Rattle.rules.specs.Units.{units_in_scale};
ghost use Rattle.rules.specs.Polynomial.{double_unit};
ghost use Rattle.double.specs.Value.{value, Number};
ghost use Rattle.double.specs.Complex.{Numbers};
ghost use Rattle.metres.specs.Metres.{arguments_of};
ghost use Rattle.metres.specs.Millimetres.{in_millimetres};
ghost use Rattle.projection_worked.specs.Bounds.{limit30, Sloped};
ghost use Rattle.projection_worked.specs.Worked.{scaled_part, first60, slope60};
ghost use Rattle.fixed.specs.Worked.{S60};
ghost use Rattle.fixed_units.specs.Worked.{m0_units};
ghost use Rattle.systems.specs.Zones.{Sized};

use double::Pair;
use systems::Zone;

// The polynomials' argument, of Mercator's x less 5,760,000 m and the size of y in units of 2^-30 m.
pub fn argument(north: i64, east: u64) -> Pair
    requires { (nat_abs north ≤ limit30) × (east ≤ limit30) }
    ensures { result ≡ arguments_of north (pos east) }
{
    metres::arguments(north, east as i64)
}

// The derivative as whole numbers at scale 2^60: its first part times 0.000002, and the size of its slope.
// Their bounds are asked where fixed_scale's functions need them: these take the numbers, because the crate stands below this one and knows no `SlopeParts`.
#[derive(Clone, Copy)]
pub struct SlopeParts {
    pub first: u64,
    pub slope: u64,
}

pub fn slope_parts(h: Pair) -> SlopeParts
    requires { Numbers h × Sloped h }
    ensures first_value { (result.first ≡ first60 h) × (result.slope ≡ slope60 h) }
    ensures size { (result.first ≤ 101 * S60 / 100) × (result.slope ≤ 30 * S60 / 100000) }
{
    let first = metres::scaled(h.re, 41);
    let second = metres::scaled(h.im, 41);
    let grain = fixed::mul60(first, 1208925819614629175);
    let slope = fixed::quot60(second, first);
    SlopeParts {
        first: grain,
        slope,
    }
}

// What m0 is short of 1, in millionths.
pub fn shortfall(millionths: i64) -> u64
    requires { (pos 0 ≤ℤ millionths) × (nat_abs millionths ≤ 1000000) }
    ensures { result ≡ 1000000 - nat_abs millionths }
{
    (1_000_000 - millionths) as u64
}

// The zone's m0 in units of 10^-9, those of a scale.
pub fn m0_units(zone: Zone) -> u64
    requires { Sized zone }
    ensures { (result ≡ m0_units (nat_abs zone.millionths)) × (result ≤ units_in_scale) }
{
    1000 * zone.millionths as u64
}

// A part in metres times m0, which is so many millionths short of 1, in whole millimetres.
pub fn part_millimetres(p: f64, short: u64) -> i64
    requires { Number p × (nat_abs (value p) ≤ 8000001 * double_unit) × (short ≤ 1000) }
    ensures { result ≡ in_millimetres (value p) short 1000 }
{
    metres::millimetres_of(p, short, 1000)
}

// A part in metres times the zone's m0, in whole millimetres.
pub fn after_scale(zone: Zone, p: f64) -> i64
    requires { Sized zone × Number p × (nat_abs (value p) ≤ 8000001 * double_unit) }
    ensures { (result ≡ scaled_part (nat_abs zone.millionths) (value p)) × (nat_abs result ≤ 8000001001) }
{
    let short = shortfall(zone.millionths);
    part_millimetres(p, short)
}
