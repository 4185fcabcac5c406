// Complex numbers as pairs of doubles, by value, and a polynomial with real coefficients at one. Each contract says what the parts are
// in doubles; how far these are from the exact polynomial is in proofs/Laws.
#![tactic(auto)]

ghost use Rattle.std.specs.Prelude.{◌≡◌};
ghost use Rattle.double.specs.Complex.{sum, product, step, horner};

pub mod series;

#[derive(Clone, Copy)]
pub struct Pair {
    pub re: f64,
    pub im: f64,
}

pub fn plus(a: Pair, b: Pair) -> Pair
    ensures { result ≡ sum a b }
{
    Pair {
        re: a.re + b.re,
        im: a.im + b.im,
    }
}

pub fn times(a: Pair, b: Pair) -> Pair
    ensures { result ≡ product a b }
{
    Pair {
        re: a.re * b.re - a.im * b.im,
        im: a.re * b.im + a.im * b.re,
    }
}

// One step of Horner's rule, r * z + c for a real coefficient c.
fn next(r: Pair, z: Pair, c: f64) -> Pair
    ensures { result ≡ step r z c }
{
    let p = times(r, z);
    Pair {
        re: p.re + c,
        im: p.im,
    }
}

// The polynomial with the coefficients c, the lowest first, at z. No coefficients make 0.
pub fn polynomial(c: &[f64], z: Pair) -> Pair
    ensures { result ≡ horner c.now z }
{
    let [rest @ .., last] = c else {
        return Pair { re: 0.0, im: 0.0 };
    };
    let mut sum = Pair { re: *last, im: 0.0 };
    for &coefficient in rest.iter().rev() {
        sum = next(sum, z, coefficient);
    }
    sum
}
