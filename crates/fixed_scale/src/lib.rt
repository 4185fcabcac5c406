// Scale and convergence in fixed point at scale 2^60, but for the polynomial's derivative, whose first part and slope the caller hands in. Each function
// answers the worked number of specs/.
#![tactic(auto)]

ghost use Rattle.std.specs.Prelude.{◌≡◌, ◌+◌, ◌*◌, ◌-◌, ◌/◌, ◌≤◌};
ghost use Rattle.terms.specs.Papers.{ellipsoid_of};
ghost use Rattle.fixed.specs.Worked.{S60, mul60};
ghost use Rattle.fixed_forward.specs.Points.{SphereSizes};
ghost use Rattle.fixed_scale.specs.Root.{root60};
ghost use Rattle.fixed_scale.specs.Scale.{square60, ratio60, meridian60, spread60, sphere_scale60};
ghost use Rattle.fixed_scale.specs.Length.{length60};
ghost use Rattle.fixed_scale.specs.Convergence.{sine_f60, turn60, convergence60};

use fixed::{RECIPROCALS, arctan60, mul60, odd_alt60, quot60, ser60, turned};
use fixed_forward::Spherical;
use terms::Ellipsoid;

const ROOT: [u64; 4] = [
    576460752303423488,
    144115188075855872,
    72057594037927936,
    45035996273704960,
];

// The root of 1 - x, of a small number x.
pub fn root60(x: u64) -> u64
    requires { 2 * x ≤ S60 }
    ensures value { result ≡ root60 x }
    ensures size { (S60 - x ≤ result) × (result ≤ S60) }
{
    let s = ser60(&ROOT, x);
    1152921504606846976 - mul60(x, s)
}

// An ellipsoid's e² and R0 / a.
#[derive(Clone, Copy)]
pub struct Shape {
    pub square: u64,
    pub ratio: u64,
    pub ghost small: { (square ≤ 7 * S60 / 1000) × (ratio ≤ S60) },
}

#[tactic(auto, unfolding(crate::specs::Scale::square60, crate::specs::Scale::ratio60))]
pub fn shape60(ellipsoid: Ellipsoid) -> Shape
    ensures square_value { (result.square ≡ square60 (ellipsoid_of ellipsoid)) × (result.ratio ≡ ratio60 (ellipsoid_of ellipsoid)) }
{
    match ellipsoid {
        Ellipsoid::Grs80 => Shape {
            square: 7718094688409816,
            ratio: 1150989552223460208,
        },
        Ellipsoid::Krasovsky => Shape {
            square: 7716989728512023,
            ratio: 1150989829159782655,
        },
    }
}

// R0·cos f / (N·cos B) times 1 / √(1 - cos²f·sin²d).
#[tactic(auto, unfolding(crate::specs::Scale::sphere_scale60, crate::specs::Scale::meridian60, crate::specs::Scale::spread60))]
pub fn sphere_scale60(k: Shape, s: Spherical, across: u64) -> u64
    requires { SphereSizes s × (across ≤ 11 * S60 / 100) }
    ensures value { result ≡ sphere_scale60 k.ratio s.k (meridian60 k.square s.t) s.d2 (spread60 across) }
    ensures size { result ≤ 5 * S60 / 4 }
{
    let sine_squared = mul60(s.t, s.t);
    let shortened = mul60(k.square, sine_squared);
    let meridian = root60(shortened);
    let across_squared = mul60(across, across);
    let spread = root60(across_squared);
    let lifted = mul60(s.k, k.ratio);
    let over = mul60(lifted, meridian);
    let under = mul60(s.d2, spread);
    quot60(over, under)
}

// The derivative's length times 0.000002, of its first part times that and its slope.
#[tactic(auto, unfolding(crate::specs::Length::length60))]
pub fn length60(first: u64, slope: u64) -> u64
    requires { (first ≤ 101 * S60 / 100) × (slope ≤ 30 * S60 / 100000) }
    ensures value { result ≡ length60 first slope }
    ensures size { result ≤ 102 * S60 / 100 }
{
    let q = mul60(slope, slope);
    first + mul60(first, q) / 2
}

// The arc tangent of sin f·tan d.
#[tactic(auto, unfolding(crate::specs::Convergence::turn60, crate::specs::Convergence::sine_f60))]
pub fn turn60(s: Spherical) -> u64
    requires { SphereSizes s }
    ensures value { result ≡ turn60 (sine_f60 s.n2 s.d2) s.sd s.cd }
    ensures size { result ≤ S60 / 4 }
{
    let f = quot60(s.n2, s.d2);
    let a = mul60(s.sd, f);
    let v = quot60(a, s.cd);
    arctan60(v)
}

// The convergence of a point to the east: `turn` less the derivative's direction, which is its slope's arc tangent, or its opposite where the flag is set.
#[tactic(auto, unfolding(crate::specs::Convergence::convergence60))]
pub fn convergence60(turn: u64, back: bool, slope: u64) -> i64
    requires { (turn ≤ S60 / 4) × (slope ≤ 30 * S60 / 100000) }
    ensures { result ≡ convergence60 turn back slope }
{
    let r = odd_alt60(&RECIPROCALS[..2], slope);
    turn as i64 - turned(back, r)
}

// The scale, of a point's sphere and cos f·sin d, and of the derivative's first part times 0.000002 and its slope.
pub fn scale60(k: Shape, s: Spherical, across: u64, first: u64, slope: u64) -> u64
    requires { SphereSizes s × (across ≤ 11 * S60 / 100) × (first ≤ 101 * S60 / 100) × (slope ≤ 30 * S60 / 100000) }
    ensures value { result ≡ mul60 (sphere_scale60 k.ratio s.k (meridian60 k.square s.t) s.d2 (spread60 across)) (length60 first slope) }
    ensures size { result ≤ 13 * S60 / 10 }
{
    let sphere = sphere_scale60(k, s, across);
    let length = length60(first, slope);
    mul60(sphere, length)
}
