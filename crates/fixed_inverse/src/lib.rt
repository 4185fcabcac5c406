// The inverse from Mercator's x and y to ticks, at scale 2^60 on u64. Each function answers the worked number of the same name in specs/Worked.antt; how near
// these are to the definition's is proofs/Laws/Inverse.antt. Lengths are whole numbers of 2^-30 m. y is a size: the caller puts the sign on d.
#![tactic(auto)]

ghost use Rattle.std.specs.Prelude.{◌≡◌, ◌+◌, ◌*◌, ◌/◌, ◌^◌, ◌<◌, ◌≤◌};
ghost use Rattle.terms.specs.Papers.{ellipsoid_of};
ghost use Rattle.fixed.specs.Worked.{S60};
ghost use Rattle.fixed_inverse.specs.Worked.{angle60, difference60, closer60, root60, sphere60, latitude60, nearest_even, ticks60, latitude_ticks, difference_ticks};
ghost use Rattle.fixed_inverse.specs.Laws.Radius.{x_low, x_high, y_high, p_low, p_high, q_high};
ghost use Rattle.fixed_inverse.specs.Laws.Turns.{sine_low, sine_high, cosh_high, difference_high};
ghost use Rattle.fixed_inverse.specs.Laws.Roots.{w_low, w_high, root_least, root_most};
ghost use Rattle.fixed_inverse.specs.Laws.About52.{f_low, f_high};

use fixed::{
    RECIPROCALS, arctan60, even_alt60, even_ser60, mul60, odd_alt60, odd_ser60, quot60, tilt60,
};
use terms::Ellipsoid;

// A length over R0 of the ellipsoid; the constants are 2^82 / R0.
#[tactic(auto, unfolding(crate::specs::Worked::angle60, crate::specs::Worked::over_radius))]
pub fn angle60(ellipsoid: Ellipsoid, x: u64) -> u64
    requires { x ≤ x_high }
    ensures { result ≡ angle60 (ellipsoid_of ellipsoid) x }
{
    let over_radius = match ellipsoid {
        Ellipsoid::Grs80 => 759441209148909116,
        Ellipsoid::Krasovsky => 759428167143141240,
    };
    mul60(over_radius, x * 256)
}

// 1 / (2k+1)!, of which a hyperbolic sine of q takes those as far as 1/7!
const SIN: [u64; 9] = [
    1152921504606846976,
    192153584101141163,
    9607679205057058,
    228754266787073,
    3177142594265,
    28883114493,
    185148170,
    881658,
    3241,
];

// 1 / (2k)!, of which a hyperbolic cosine of q takes those as far as 1/8!
const COS: [u64; 9] = [
    1152921504606846976,
    576460752303423488,
    48038396025285291,
    1601279867509510,
    28594283348384,
    317714259426,
    2406926208,
    13224869,
    55104,
];

// The longitude difference d, of tan d = sinh q / cos p.
#[tactic(auto, unfolding(crate::specs::Worked::difference60))]
pub fn difference60(p: u64, q: u64) -> u64
    requires { (p_low ≤ p) × (p ≤ p_high) × (q ≤ q_high) }
    ensures value { result ≡ difference60 p q }
    ensures size { result ≤ difference_high }
{
    let s = odd_ser60(&SIN[..4], q);
    let c = even_alt60(&COS, p);
    let t = quot60(s, c);
    odd_alt60(&RECIPROCALS, t)
}

// One step of Heron: half of s + w / s.
#[tactic(auto, unfolding(crate::specs::Worked::closer60))]
pub fn closer60(w: u64, s: u64) -> u64
    requires { (S60 / 2 ≤ s) × (s ≤ S60) × (w ≤ w_high) }
    ensures { result ≡ closer60 w s }
{
    let q = quot60(w, s);
    (s + q) / 2
}

// The root of w, by a quadratic in 4 * (w - 0.305) and two steps of Heron.
pub fn root60(w: u64) -> u64
    requires { (w_low ≤ w) × (w ≤ w_high) }
    ensures value { result ≡ root60 w }
    ensures size { (root_least ≤ result) × (result ≤ root_most) }
{
    let v = 4 * (w - 351641058905088327);
    let a = mul60(v, 38447625945040674);
    let b = mul60(v, 257767101720653886 - a);
    let s = closer60(w, 636829586550925950 + b);
    closer60(w, s)
}

// The sphere's latitude f, of s = sin p and c = cosh q: its tangent is s over the root of c * c - s * s. About 52 degrees.
pub fn sphere60(s: u64, c: u64) -> u64
    requires { (sine_low ≤ s) × (s ≤ sine_high) × (S60 ≤ c) × (c ≤ cosh_high) }
    ensures value { result ≡ sphere60 s c }
    ensures size { (f_low ≤ result) × (result ≤ f_high) }
{
    let w = mul60(c - s, c + s);
    let m = root60(w);
    let t = tilt60(s, m);
    let a = arctan60(t.size);
    if t.south {
        1046358366166695522 - a
    } else {
        1046358366166695522 + a
    }
}

// (2 c2 4^k + 4 c4 16^k + 6 c6 36^k) / (2k+1)!, GRS-80 and Krasovsky
const LATITUDE_GRS80: [u64; 13] = [
    7770110264294487,
    5241339384737898,
    1097931621742114,
    124042476435403,
    11498614501341,
    1179609086532,
    129419431813,
    13633648958,
    1335588166,
    119053300,
    9388003,
    642131,
    37840,
];

const LATITUDE_KRASOVSKY: [u64; 13] = [
    7768990362000604,
    5240575100159774,
    1097764337996884,
    124020808380333,
    11496015826518,
    1179272368095,
    129376879233,
    13628698332,
    1335065910,
    119004490,
    9384053,
    641857,
    37824,
];

// B = f + c2 sin 2f + c4 sin 4f + c6 sin 6f, as one series in f.
#[tactic(auto, unfolding(crate::specs::Worked::latitude60, crate::specs::Worked::latitude_table))]
pub fn latitude60(ellipsoid: Ellipsoid, f: u64) -> u64
    requires { f ≤ f_high }
    ensures value { result ≡ latitude60 (ellipsoid_of ellipsoid) f }
    ensures size { result ≤ 2 * S60 }
{
    match ellipsoid {
        Ellipsoid::Grs80 => f + odd_alt60(&LATITUDE_GRS80, f),
        Ellipsoid::Krasovsky => f + odd_alt60(&LATITUDE_KRASOVSKY, f),
    }
}

// n / d to the nearest whole number, ties to even. One test and no more, because the compiler can then do without a jump, which for a rounding would go wrong every
// other time.
pub fn nearest_even(n: u64, d: u64) -> u64
    requires { (0 < d) × (d ≤ 2 ^ 62) }
    ensures value { result ≡ nearest_even n d }
    ensures size { result ≤ n / d + 1 }
{
    let q = n / d;
    let r = n % d;
    if d - r < r + q % 2 {
        return q + 1;
    }
    q
}

// An angle in whole ticks; the constant is 648,000,000,000 / pi * 2^22.
#[tactic(auto, unfolding(crate::specs::Worked::ticks60))]
pub fn ticks60(b: u64) -> u64
    requires { b ≤ 2 * S60 }
    ensures value { result ≡ ticks60 b }
    ensures size { result ≤ 2 ^ 39 }
{
    nearest_even(mul60(b, 865137301901421231), 4194304)
}

// B, and the size of L - L0, in ticks.
#[derive(Clone, Copy)]
pub struct Ticks {
    pub latitude: u64,
    pub difference: u64,
}

// From Mercator's x and the size of y, of the box that refusal 4 leaves.
pub fn inverse60(ellipsoid: Ellipsoid, x: u64, y: u64) -> Ticks
    requires { (x_low ≤ x) × (x ≤ x_high) × (y ≤ y_high) }
    ensures latitude_value { (result.latitude ≡ latitude_ticks (ellipsoid_of ellipsoid) x y) × (result.difference ≡ difference_ticks (ellipsoid_of ellipsoid) x y) }
    ensures size { (result.latitude ≤ 2 ^ 39) × (result.difference ≤ 2 ^ 39) }
{
    let p = angle60(ellipsoid, x);
    let q = angle60(ellipsoid, y);
    let s = odd_alt60(&SIN, p);
    let c = even_ser60(&COS[..5], q);
    let f = sphere60(s, c);
    let latitude = ticks60(latitude60(ellipsoid, f));
    let difference = ticks60(difference60(p, q));
    Ticks {
        latitude,
        difference,
    }
}
