// The last step of scale and convergence: from numbers at scale 2^60 to whole units of the answers, 10^-9 and thousandths of an arc second, to the nearest and
// ties to even. Each function answers the worked number of specs/Worked.antt.
#![tactic(auto)]

ghost use Rattle.std.specs.Prelude.{◌≡◌, ◌*◌, ◌/◌, ◌^◌, ◌≤◌, nat_abs};
ghost use Rattle.rules.specs.Units.{units_in_scale};
ghost use Rattle.fixed.specs.Worked.{S60};
ghost use Rattle.fixed_units.specs.Worked.{scale_units, angle_units, convergence_units};

use fixed::{mul60, turned};
use fixed_inverse::nearest_even;

// A scale times m0 in whole units of 10^-9, by the halves of its bits. m0 comes in those units and takes the place of 10^9, so it costs no rounding of its own.
pub fn scale_units(sc: u64, m0: u64) -> u64
    requires { (sc ≤ 13 * S60 / 10) × (m0 ≤ units_in_scale) }
    ensures value { result ≡ scale_units m0 sc }
    ensures size { result ≤ 2 * 10 ^ 9 }
{
    let upper = sc / 0x4000_0000 * m0;
    let lower = sc % 0x4000_0000 * m0 / 0x4000_0000;
    nearest_even(upper + lower, 0x4000_0000)
}

// The size of an angle in whole thousandths of an arc second; the constant is 648,000,000 / pi * 2^32.
#[tactic(auto, unfolding(crate::specs::Worked::angle_units))]
pub fn angle_units(a: u64) -> u64
    requires { a ≤ S60 / 2 }
    ensures value { result ≡ angle_units a }
    ensures size { result ≤ 10 ^ 9 }
{
    nearest_even(mul60(a, 885900597147055340), 0x1_0000_0000)
}

// A convergence in whole thousandths of an arc second, with its sign.
#[tactic(auto, unfolding(crate::specs::Worked::convergence_units))]
pub fn convergence_units(g: i64) -> i64
    requires { nat_abs g ≤ S60 / 2 }
    ensures value { result ≡ convergence_units g }
    ensures size { nat_abs result ≤ 10 ^ 9 }
{
    turned(g < 0, angle_units(g.unsigned_abs()))
}
