// The forward steps up to Mercator's pair, in fixed point at scale 2^60. Each function answers the worked number of specs/, and says how large it is.
#![tactic(auto)]

ghost use Rattle.std.specs.Prelude.{◌≡◌, ◌+◌, ◌*◌, ◌/◌, ◌≤◌};
ghost use Rattle.terms.specs.Papers.{ellipsoid_of};
ghost use Rattle.fixed.specs.Worked.{S60, mul60, tilt60, tilt_south};
ghost use Rattle.fixed_forward.specs.Sphere.{numerator60, denominator60, HalvesSizes};
ghost use Rattle.fixed_forward.specs.Across.{across60, east30};
ghost use Rattle.fixed_forward.specs.Along.{north30};
ghost use Rattle.fixed_forward.specs.Ellipsoids.{radius30, centre30};
ghost use Rattle.fixed_forward.specs.Points.{IsSphere, SphereSizes, IsMercator};

use fixed::{RECIPROCALS, arctan60, mul60, odd_ser60, quot60, tilt60, turned};
use terms::Ellipsoid;

// Half of the numerator and of the denominator of sin f.
#[derive(Clone, Copy)]
pub struct Halves {
    pub numerator: u64,
    pub denominator: u64,
}

// K²(1+t) - (1-t) and K²(1+t) + (1-t), halved.
#[tactic(auto, unfolding(crate::specs::Sphere::numerator60, crate::specs::Sphere::denominator60, crate::specs::Sphere::lifted60))]
pub fn halves60(k: u64, t: u64) -> Halves
    requires { (994 * S60 / 1000 ≤ k) × (k ≤ S60) × (70 * S60 / 100 ≤ t) × (t ≤ 87 * S60 / 100) }
    ensures numerator_value { (result.numerator ≡ numerator60 k t) × (result.denominator ≡ denominator60 k t) }
    ensures size { HalvesSizes result.numerator result.denominator }
{
    let kk = mul60(k, k);
    let p = mul60(kk, 1152921504606846976 + t);
    let q = 1152921504606846976 - t;
    Halves {
        numerator: (p - q) / 2,
        denominator: (p + q) / 2,
    }
}

// What a point's answers are worked from: sine and cosine of the latitude and of the difference of longitude, K, half the numerator and the denominator of
// sin f, and K·cos B, half the numerator of cos f.
// How large they are is `SphereSizes`, which is asked apart: that record names this struct, and a fact of the struct's own may not cite it.
#[derive(Clone, Copy)]
pub struct Spherical {
    pub t: u64,
    pub c: u64,
    pub sd: u64,
    pub cd: u64,
    pub k: u64,
    pub n2: u64,
    pub d2: u64,
    pub kc: u64,
}

// Of an ellipsoid, a latitude of n ticks and a difference of longitude of d ticks.
pub fn sphere60(ellipsoid: Ellipsoid, n: u64, d: u64) -> Spherical
    requires { (172800000000 ≤ n) × (n ≤ 201600000000) × (d ≤ 19800000000) }
    ensures sphere { IsSphere (ellipsoid_of ellipsoid) n d result }
    ensures size { SphereSizes result }
{
    let b = fixed_bands::latitude60(n);
    let a = fixed_bands::longitude60(d);
    let t = b.sine;
    let c = b.cosine;
    let k = fixed_bands::k60(ellipsoid, n);
    let h = halves60(k, t);
    let kc = mul60(k, c);
    Spherical {
        t,
        c,
        sd: a.sine,
        cd: a.cosine,
        k,
        n2: h.numerator,
        d2: h.denominator,
        kc,
    }
}

// cos f·sin d.
#[tactic(auto, unfolding(crate::specs::Across::across60))]
pub fn across60(s: Spherical) -> u64
    requires { SphereSizes s }
    ensures value { result ≡ across60 s.kc s.d2 s.sd }
    ensures size { result ≤ 11 * S60 / 100 }
{
    let a = mul60(s.kc, s.sd);
    quot60(a, s.d2)
}

// An ellipsoid's R0, and R0 times 52 degrees less 5,760,000 m, in units of 2^-30 m.
// Read as `shape60` of fixed_scale reads its own: other constants, in a struct of another crate.
#[derive(Clone, Copy)]
pub struct Lengths {
    pub radius: u64,
    pub centre: u64,
    pub ghost small: { (radius ≤ 6838000000000000) × (centre ≤ 6838000000000000) },
}

#[tactic(auto, unfolding(crate::specs::Ellipsoids::radius30, crate::specs::Ellipsoids::centre30))]
pub fn ellipsoid60(ellipsoid: Ellipsoid) -> Lengths
    ensures { (result.radius ≡ radius30 (ellipsoid_of ellipsoid)) × (result.centre ≡ centre30 (ellipsoid_of ellipsoid)) }
{
    match ellipsoid {
        Ellipsoid::Grs80 => Lengths {
            radius: 6836996460007395,
            centre: 20308250824945,
        },
        Ellipsoid::Krasovsky => Lengths {
            radius: 6837113874861261,
            centre: 20414813166061,
        },
    }
}

// Mercator's y in units of 2^-30 m, of v = cos f·sin d.
#[tactic(auto, unfolding(crate::specs::Across::east30))]
pub fn east30(k: Lengths, v: u64) -> u64
    requires { v ≤ 11 * S60 / 100 }
    ensures value { result ≡ east30 k.radius v }
    ensures size { result ≤ k.radius }
{
    let a = odd_ser60(&RECIPROCALS[..5], v);
    mul60(a, k.radius)
}

// Mercator's x less 5,760,000 m, in units of 2^-30 m.
#[tactic(auto, unfolding(crate::specs::Along::north30))]
pub fn north30(k: Lengths, s: Spherical) -> i64
    requires { SphereSizes s }
    ensures { result ≡ north30 k.centre k.radius (tilt_south s.n2 (mul60 s.kc s.cd)) (tilt60 s.n2 (mul60 s.kc s.cd)) }
{
    let m2 = mul60(s.kc, s.cd);
    let u = tilt60(s.n2, m2);
    let a = arctan60(u.size);
    let r = mul60(a, k.radius);
    k.centre as i64 + turned(u.south, r)
}

// A point's sphere, cos f·sin d, and Mercator's pair: x less 5,760,000 m and the size of y, in units of 2^-30 m. The parts of the pair stand apart, because side by
// side the compiler would fetch both at once, and wait until both are written.
#[derive(Clone, Copy)]
pub struct Mercator {
    pub sphere: Spherical,
    pub north: i64,
    pub across: u64,
    pub east: u64,
}

// Of an ellipsoid, a latitude of n ticks and a difference of longitude of d ticks.
pub fn mercator60(ellipsoid: Ellipsoid, n: u64, d: u64) -> Mercator
    requires { (172800000000 ≤ n) × (n ≤ 201600000000) × (d ≤ 19800000000) }
    ensures mercator { IsMercator (ellipsoid_of ellipsoid) n d result }
    ensures size { SphereSizes result.sphere × (result.across ≤ 11 * S60 / 100) }
{
    let k = ellipsoid60(ellipsoid);
    let sphere = sphere60(ellipsoid, n, d);
    let across = across60(sphere);
    let north = north30(k, sphere);
    let east = east30(k, across);
    Mercator {
        sphere,
        north,
        across,
        east,
    }
}
