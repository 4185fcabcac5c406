// The polynomials of document 01 with their tables as doubles: forward, its derivative, and inverse, on each ellipsoid.
// Each literal is the double nearest to the table's decimal, which the contracts say by `doubles`.
ghost use Rattle.std.specs.Prelude.{◌≡◌};
ghost use Rattle.rules.specs.Scaled.{unit, derivative};
ghost use Rattle.rules.specs.Systems.{constants, a_coefficients, b_coefficients};
ghost use Rattle.terms.specs.Papers.{ellipsoid_of};
ghost use Rattle.double.specs.Complex.{horner};
ghost use Rattle.double.specs.Exact.{doubles};

use crate::{Pair, polynomial};
use terms::Ellipsoid;

const FORWARD_GRS80: [f64; 7] = [
    5765181.11148097,
    499800.81713800,
    -63.81145283,
    0.83537915,
    0.13046891,
    -0.00111138,
    -0.00010504,
];

const FORWARD_KRASOVSKY: [f64; 7] = [
    5765180.49758330,
    499800.87112376,
    -63.80172299,
    0.83512434,
    0.13044472,
    -0.00111100,
    -0.00010501,
];

// a0 + a1 * z + .. + a6 * z^6
// One `match` a polynomial, here and below: the tables differ in length and in meaning, and one function for the three would take the choice as a second parameter.
pub fn forward(ellipsoid: Ellipsoid, z: Pair) -> Pair
    ensures { result ≡ horner (doubles unit (a_coefficients (constants (ellipsoid_of ellipsoid)))) z }
{
    match ellipsoid {
        Ellipsoid::Grs80 => polynomial(&FORWARD_GRS80, z),
        Ellipsoid::Krasovsky => polynomial(&FORWARD_KRASOVSKY, z),
    }
}

const DERIVATIVE_GRS80: [f64; 6] = [
    499800.81713800,
    -127.62290566,
    2.50613745,
    0.52187564,
    -0.00555690,
    -0.00063024,
];

const DERIVATIVE_KRASOVSKY: [f64; 6] = [
    499800.87112376,
    -127.60344598,
    2.50537302,
    0.52177888,
    -0.00555500,
    -0.00063006,
];

// a1 + 2 * a2 * z + .. + 6 * a6 * z^5
pub fn derivative(ellipsoid: Ellipsoid, z: Pair) -> Pair
    ensures { result ≡ horner (doubles unit (derivative (a_coefficients (constants (ellipsoid_of ellipsoid))))) z }
{
    match ellipsoid {
        Ellipsoid::Grs80 => polynomial(&DERIVATIVE_GRS80, z),
        Ellipsoid::Krasovsky => polynomial(&DERIVATIVE_KRASOVSKY, z),
    }
}

const INVERSE_GRS80: [f64; 7] = [
    5760000.0,
    500199.26224125,
    63.88777449,
    -0.82039170,
    -0.13125817,
    0.00101782,
    0.00010778,
];

const INVERSE_KRASOVSKY: [f64; 7] = [
    5760000.0,
    500199.20821246,
    63.87801231,
    -0.82014111,
    -0.13123362,
    0.00101747,
    0.00010775,
];

// b0 + b1 * z + .. + b6 * z^6
pub fn inverse(ellipsoid: Ellipsoid, z: Pair) -> Pair
    ensures { result ≡ horner (doubles unit (b_coefficients (constants (ellipsoid_of ellipsoid)))) z }
{
    match ellipsoid {
        Ellipsoid::Grs80 => polynomial(&INVERSE_GRS80, z),
        Ellipsoid::Krasovsky => polynomial(&INVERSE_KRASOVSKY, z),
    }
}
