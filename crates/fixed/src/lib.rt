// Fixed point at scale 2^60 on u64. Each function answers the worked number of the same name in specs/.
#![tactic(auto)]

ghost use Rattle.std.specs.Prelude.{◌≡◌, ◌+◌, ◌*◌, ◌/◌, ◌^◌, ◌<◌, ◌≤◌, T, pos, nat_abs};
ghost use Rattle.fixed.specs.Worked.{S60, mul60, quot60, alt60, ser60, odd_alt60, odd_ser60, even_alt60, even_ser60, tilt60, tilt_south};
ghost use Rattle.fixed.specs.Tables.{arctan_table};
ghost use Rattle.fixed.specs.Nearness.{turned};
ghost use Rattle.fixed.specs.Relations.{Mul60, Quot60, falls};

// a·b of two numbers up to 2.
pub fn mul60(a: u64, b: u64) -> u64
    requires { (a ≤ 2 ^ 61) × (b ≤ 2 ^ 61) }
    ensures value { result ≡ mul60 a b }
    ensures size { Mul60 a b result }
{
    let ah = a / 0x4000_0000;
    let al = a % 0x4000_0000;
    let bh = b / 0x4000_0000;
    let bl = b % 0x4000_0000;
    ah * bh + (ah * bl + al * bh) / 0x4000_0000
}

// a/b of a number b from 1/2 to 2 and a number a of at most 5/4 of it.
pub fn quot60(a: u64, b: u64) -> u64
    requires { (2 ^ 59 ≤ b) × (b ≤ 2 ^ 61) × (4 * a ≤ 5 * b) }
    ensures value { result ≡ quot60 a b }
    ensures size { Quot60 a b result }
{
    let bh = b / 0x4000_0000;
    let bl = b % 0x4000_0000;
    let c = bh + 1;
    let q1 = a / c;
    let r1 = (a - q1 * bh) * 0x4000_0000 - q1 * bl;
    q1 * 0x4000_0000 + r1 / c
}

// tab[0] - q * (tab[1] - q * (tab[2] - ..)). One series with a parameter for the sign would be no plainer than this and the next, with the odd and the even ones of each:
// where signs alternate q may be 1 and the sum is at most 1, and elsewhere 1/2 and 2, so that every clause would have to ask for the sign.
pub fn alt60(tab: &[u64], q: u64) -> u64
    requires { T (falls S60 tab.now) × (q ≤ S60) }
    ensures value { result ≡ alt60 q tab.now }
    ensures size { result ≤ S60 }
{
    let mut s = 0;
    for &coefficient in tab.iter().rev() {
        s = coefficient - mul60(q, s);
    }
    s
}

// tab[0] + q * (tab[1] + q * (tab[2] + ..)), of a number q up to 1/2
pub fn ser60(tab: &[u64], q: u64) -> u64
    requires { T (falls S60 tab.now) × (2 * q ≤ S60) }
    ensures value { result ≡ ser60 q tab.now }
    ensures size { result ≤ 2 * S60 }
{
    let mut s = 0;
    for &coefficient in tab.iter().rev() {
        s = coefficient + mul60(q, s);
    }
    s
}

// x * (tab[0] - x² * (tab[1] - ..)), of a number x up to 1: a sine or an arc tangent, by its table.
#[tactic(auto, unfolding(crate::specs::Worked::odd_alt60))]
pub fn odd_alt60(tab: &[u64], x: u64) -> u64
    requires { T (falls S60 tab.now) × (x ≤ S60) }
    ensures value { result ≡ odd_alt60 x tab.now }
    ensures size { result ≤ x }
{
    let q = mul60(x, x);
    let v = alt60(tab, q);
    mul60(x, v)
}

// 1 / (2k+1): an arc tangent and an inverse hyperbolic tangent take as many of them as their numbers need.
pub const RECIPROCALS: [u64; 8] = [
    1152921504606846976,
    384307168202282325,
    230584300921369395,
    164703072086692425,
    128102389400760775,
    104811045873349725,
    88686269585142075,
    76861433640456465,
];

// The arc tangent as far as 1/11, for a number up to 0.1.
pub fn arctan60(x: u64) -> u64
    requires { x ≤ S60 }
    ensures value { result ≡ odd_alt60 x arctan_table }
    ensures size { result ≤ x }
{
    odd_alt60(&RECIPROCALS[..6], x)
}

// x * (tab[0] + x² * (tab[1] + ..)), of a number x up to 1/2: a hyperbolic sine or an inverse hyperbolic tangent, by its table.
#[tactic(auto, unfolding(crate::specs::Worked::odd_ser60))]
pub fn odd_ser60(tab: &[u64], x: u64) -> u64
    requires { T (falls S60 tab.now) × (2 * x ≤ S60) }
    ensures value { result ≡ odd_ser60 x tab.now }
    ensures size { result ≤ 2 * x }
{
    let q = mul60(x, x);
    let v = ser60(tab, q);
    mul60(x, v)
}

// tab[0] - x² * (tab[1] - ..), of a number x up to 1: a cosine.
#[tactic(auto, unfolding(crate::specs::Worked::even_alt60))]
pub fn even_alt60(tab: &[u64], x: u64) -> u64
    requires { T (falls S60 tab.now) × (x ≤ S60) }
    ensures value { result ≡ even_alt60 x tab.now }
    ensures size { result ≤ S60 }
{
    let q = mul60(x, x);
    alt60(tab, q)
}

// tab[0] + x² * (tab[1] + ..), of a number x up to 1/2: a hyperbolic cosine.
#[tactic(auto, unfolding(crate::specs::Worked::even_ser60))]
pub fn even_ser60(tab: &[u64], x: u64) -> u64
    requires { T (falls S60 tab.now) × (2 * x ≤ S60) }
    ensures value { result ≡ even_ser60 x tab.now }
    ensures size { result ≤ 2 * S60 }
{
    let q = mul60(x, x);
    ser60(tab, q)
}

// An angle's difference from 52 degrees: the size of its tangent, and whether it is to the south. Not one signed number, because a series takes the size alone, and
// the sign is put on what it answers.
#[derive(Clone, Copy)]
pub struct Tilt {
    pub south: bool,
    pub size: u64,
}

const TANGENT_OF_52: u64 = 1475672232396987915;

// The tangent difference rule for the angle of tangent n / m.
pub fn tilt60(n: u64, m: u64) -> Tilt
    requires { (S60 / 2 ≤ n) × (n ≤ 9 * S60 / 10) × (S60 / 2 ≤ m) × (m ≤ 7 * S60 / 10) }
    ensures south_value { (result.south ≡ tilt_south n m) × (result.size ≡ tilt60 n m) }
    ensures size { result.size ≤ S60 }
{
    let tm = mul60(m, TANGENT_OF_52);
    let den = m + mul60(n, TANGENT_OF_52);
    Tilt {
        south: n < tm,
        size: quot60(n.abs_diff(tm), den),
    }
}

// r, or -r where the flag is set: numbers are worked as sizes, and the sign is put on last.
#[tactic(auto, unfolding(crate::specs::Nearness::turned))]
pub fn turned(back: bool, r: u64) -> i64
    requires { r < 2 ^ 63 }
    ensures value { result ≡ turned back (pos r) }
    ensures size { nat_abs result ≡ r }
{
    if back { -(r as i64) } else { r as i64 }
}
