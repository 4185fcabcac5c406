// Into f64 and out of it: metres and z from whole numbers, and whole numbers from metres, with m0 and the rounding in whole numbers.
#![tactic(auto)]

ghost use Rattle.std.specs.Prelude.{◌≡◌, ◌+◌, ◌-◌, ◌*◌, ◌/◌, ◌^◌, ◌≤◌, ◌<◌, nat_abs};
ghost use Rattle.std.specs.Float.Ieee.Nearest.{closest};
ghost use Rattle.rules.specs.Polynomial.{double_unit};
ghost use Rattle.double.specs.Value.{value, Number};
ghost use Rattle.metres.specs.Metres.{metres_of, argument_of, arguments_of};
ghost use Rattle.metres.specs.Millimetres.{truncated, nearest_millimetres, Fits, in_millimetres};

use double::Pair;

// n whole multiples of 2^-30 m, in metres: exactly.
pub fn metres(n: i64) -> f64
    requires { nat_abs n < 2 ^ 53 }
    ensures { result ≡ metres_of n }
{
    (n as f64) * 0.000000000931322574615478515625
}

// A part of z, from n whole multiples of 2^-30 m.
pub fn argument(n: i64) -> f64
    requires { nat_abs n < 2 ^ 53 }
    ensures { result ≡ argument_of n }
{
    metres(n) * 0.000002
}

// z, from both parts.
pub fn arguments(north: i64, east: i64) -> Pair
    requires { (nat_abs north < 2 ^ 53) × (nat_abs east < 2 ^ 53) }
    ensures { result ≡ arguments_of north east }
{
    Pair {
        re: argument(north),
        im: argument(east),
    }
}

// digits * 2^up units of 2^-1074, in whole ones, gone down. By the bits, as in `scaled`: the library has nothing that says what digits a double has.
fn shifted(digits: u64, up: u64) -> u64
    requires { (digits < 2 ^ 53) × (up < 1086) × (digits * 2 ^ up < 2 ^ 64 * double_unit) }
    ensures { result ≡ digits * 2 ^ up / double_unit }
{
    if up >= 1074 {
        return digits << (up - 1074);
    }
    let down = 1074 - up;
    if down > 63 {
        return 0;
    }
    digits >> down
}

// The size of x in whole multiples of 2^-k, gone down.
pub fn scaled(x: f64, k: u64) -> u64
    requires { Number x × (k ≤ 60) × (nat_abs (value x) * 2 ^ k < 2 ^ 64 * double_unit) }
    ensures { result ≡ truncated k (value x) }
{
    let bits = f64::to_bits(x);
    let field = bits % 9223372036854775808 / 4503599627370496;
    if field == 0 {
        return 0;
    }
    shifted(bits % 4503599627370496 + 4503599627370496, field - 1 + k)
}

// above - q - r / d to the nearest whole number, at a tie the even one. One test and no more, because the compiler can then do without a jump, which for a rounding
// would go wrong every other time.
fn rounded(above: u64, q: u64, r: u64, d: u64) -> u64
    requires { (r < d) × (q * d + r ≤ above * d) × (d < 2 ^ 63) }
    ensures { result ≡ closest (above * d - (q * d + r)) d }
{
    let n = above - q;
    if d - r < r + n % 2 {
        return n - 1;
    }
    n
}

// x whole multiples of 2^-20 m, times m0 = 1 - short / (1000 * per), in whole millimetres: the nearest, at a tie the even one.
// The 1000 * per - short parts of x itself would not fit 64 bits, so the short part is taken off.
pub fn millimetres(x: u64, short: u64, per: u64) -> u64
    requires { Fits x short per }
    ensures { result ≡ nearest_millimetres x short per }
{
    let thousands = x * 1000;
    let divisor = per * 1048576;
    let less = x * short + (1048576 - thousands % 1048576) * per;
    rounded(
        thousands / 1048576 + 1,
        less / divisor,
        less % divisor,
        divisor,
    )
}

// p metres times m0, in whole millimetres, with the sign of p. `per` is a parameter, although the projection has 1000 alone: the promise is of every m0 that `Fits`.
pub fn millimetres_of(p: f64, short: u64, per: u64) -> i64
    requires { Number p × (nat_abs (value p) < 2 ^ 44 * double_unit) × Fits (truncated 20 (value p)) short per }
    ensures { result ≡ in_millimetres (value p) short per }
{
    let n = millimetres(scaled(p, 20), short, per);
    if p.is_sign_negative() {
        0 - (n as i64)
    } else {
        n as i64
    }
}
