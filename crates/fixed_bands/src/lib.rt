// Functions of an angle by bands of a quarter of a degree: in each, a polynomial in the ticks from its start. Each function answers the worked number of specs/.
#![tactic(auto)]

ghost use Rattle.std.specs.Prelude.{◌≡◌, ◌+◌, ◌*◌, ◌-◌, ◌/◌, ◌%◌, ◌≤◌, ◌<◌};
ghost use Rattle.terms.specs.Papers.{ellipsoid_of};
ghost use Rattle.fixed.specs.Worked.{S60};
ghost use Rattle.fixed_bands.specs.Worked.{width, part30, rise, sink, latitude_sine, latitude_cosine, longitude_sine, longitude_cosine, shortfall_table, K60};
ghost use Rattle.fixed_bands.specs.Traces.{Part30};
ghost use Rattle.fixed_bands.specs.Rows.{RowAt, numbers, Rises, Sinks};
ghost use Rattle.fixed_bands.specs.Bands.{LatitudeSizes, LongitudeSizes};

mod latitude_cosine;
mod latitude_sine;
mod longitude_cosine;
mod longitude_sine;
mod shortfall_grs80;
mod shortfall_krasovsky;

use terms::Ellipsoid;

// The coefficients of a band's polynomial, without their signs.
#[derive(Clone, Copy)]
pub struct Row {
    pub c0: u64,
    pub c1: u64,
    pub c2: u64,
    pub c3: u64,
    pub c4: u64,
    pub c5: u64,
}

// The row of a band.
fn row_of(rows: &[Row; 32], band: u64) -> Row
    requires { band < 32 }
    ensures { RowAt (numbers rows.now) band result }
{
    rows[band as usize]
}

// s·h / 2^30.
fn part30(s: u64, h: u64) -> u64
    requires { (s ≤ S60) × (h ≤ width) }
    ensures value { result ≡ part30 s h }
    ensures size { Part30 s h result }
{
    s / 0x4000_0000 * h + s % 0x4000_0000 * h / 0x4000_0000
}

// c0 + x·(c1 - x·(c2 + x·(c3 - x·(c4 + x·c5)))), where x = h / 2^30.
fn rise60(r: Row, h: u64) -> u64
    requires { Rises r.c0 r.c1 r.c2 r.c3 r.c4 r.c5 × (h ≤ width) }
    ensures { result ≡ rise r.c0 r.c1 r.c2 r.c3 r.c4 r.c5 h }
{
    let inner = r.c4 + part30(r.c5, h);
    let third = r.c3 - part30(inner, h);
    let second = r.c2 + part30(third, h);
    let first = r.c1 - part30(second, h);
    r.c0 + part30(first, h)
}

// c0 - x·(c1 + x·(c2 - x·(c3 + x·(c4 - x·c5)))), where x = h / 2^30.
fn sink60(r: Row, h: u64) -> u64
    requires { Sinks r.c0 r.c1 r.c2 r.c3 r.c4 r.c5 × (h ≤ width) }
    ensures { result ≡ sink r.c0 r.c1 r.c2 r.c3 r.c4 r.c5 h }
{
    let inner = r.c4 - part30(r.c5, h);
    let third = r.c3 + part30(inner, h);
    let second = r.c2 - part30(third, h);
    let first = r.c1 + part30(second, h);
    r.c0 - part30(first, h)
}

#[derive(Clone, Copy)]
pub struct SineCosine {
    pub sine: u64,
    pub cosine: u64,
}

// The sine and cosine of a latitude of n ticks, from 48 to 56 degrees.
// The range of n stands in four contracts as it is: a type of this one number would be made where the same range is asked, and say no more.
pub fn latitude60(n: u64) -> SineCosine
    requires { (172800000000 ≤ n) × (n ≤ 201600000000) }
    ensures sine_value { (result.sine ≡ latitude_sine n) × (result.cosine ≡ latitude_cosine n) }
    ensures size { LatitudeSizes result.sine result.cosine }
{
    let m = n - 172800000000;
    let band = m / 900000001;
    let h = m % 900000001;
    let sine = rise60(row_of(&latitude_sine::ROWS, band), h);
    let cosine = sink60(row_of(&latitude_cosine::ROWS, band), h);
    SineCosine { sine, cosine }
}

// The sine and cosine of a difference of longitude of d ticks, up to 5 degrees 30 minutes.
pub fn longitude60(d: u64) -> SineCosine
    requires { d ≤ 19800000000 }
    ensures sine_value { (result.sine ≡ longitude_sine d) × (result.cosine ≡ longitude_cosine d) }
    ensures size { LongitudeSizes result.sine result.cosine }
{
    let band = d / 900000001;
    let h = d % 900000001;
    let sine = rise60(row_of(&longitude_sine::ROWS, band), h);
    let cosine = sink60(row_of(&longitude_cosine::ROWS, band), h);
    SineCosine { sine, cosine }
}

// What K is short of 1 on an ellipsoid: its row of the band.
fn shortfall_row(ellipsoid: Ellipsoid, band: u64) -> Row
    requires { band < 32 }
    ensures { RowAt (shortfall_table (ellipsoid_of ellipsoid)) band result }
{
    match ellipsoid {
        Ellipsoid::Grs80 => row_of(&shortfall_grs80::ROWS, band),
        Ellipsoid::Krasovsky => row_of(&shortfall_krasovsky::ROWS, band),
    }
}

// K of a latitude of n ticks.
pub fn k60(ellipsoid: Ellipsoid, n: u64) -> u64
    requires { (172800000000 ≤ n) × (n ≤ 201600000000) }
    ensures value { result ≡ K60 (ellipsoid_of ellipsoid) n }
    ensures size { (994 * S60 / 1000 ≤ result) × (result ≤ S60) }
{
    let m = n - 172800000000;
    let row = shortfall_row(ellipsoid, m / 900000001);
    1152921504606846976 - rise60(row, m % 900000001)
}
