// Runs the polynomials at the points of standard input and prints, for each table, the largest error of the first and of the second part in 10^-15 m against the exact
// values that stand beside the points. A record is five numbers of 8 bytes, little-endian: the table, the two parts in multiples of 2^-30 m plus 2^50, and the exact
// first and second part of the value in multiples of 2^-40 m plus 2^63; but a derivative's second part, which is small and nearer, in multiples of 2^-50 m plus 2^63.
#![tactic(auto)]

ghost use Rattle.std.specs.Prelude.{◌+◌, ◌*◌, ◌^◌, ◌≤◌, ◌<◌, nat_abs};
ghost use Rattle.double.specs.Value.{Number};

use double::{Pair, series};
use std::io;
use std::io::{ErrorKind, Read};
use terms::Ellipsoid;
use vectors::nth_word;

// a - 2^50, for an a below 2^51; 0 for any other.
fn centred(a: u64) -> i64
    ensures { nat_abs result < 2 ^ 53 }
{
    if a >= 2251799813685248 {
        return 0;
    }
    (a as i64) - 1125899906842624
}

// Ten coefficients that weigh nearly 8,000,000 at 1.7.
fn ten(z: Pair) -> Pair {
    let c = [
        0.1, -0.2, 0.3, -0.4, 0.5, -0.6, 82857.1, -48739.2, 28670.3, -16864.4,
    ];
    double::polynomial(&c, z)
}

// A table: of an ellipsoid, or the ten coefficients.
#[derive(Clone, Copy)]
enum Table {
    Forward(Ellipsoid),
    Derivative(Ellipsoid),
    Inverse(Ellipsoid),
    Ten,
}

impl Table {
    fn answer(self, z: Pair) -> Pair {
        match self {
            Table::Forward(ellipsoid) => series::forward(ellipsoid, z),
            Table::Derivative(ellipsoid) => series::derivative(ellipsoid, z),
            Table::Inverse(ellipsoid) => series::inverse(ellipsoid, z),
            Table::Ten => ten(z),
        }
    }

    // Which multiples the second part is told in.
    fn second_power(self) -> u64
        ensures { (15 ≤ result) × (result ≤ 50) }
    {
        match self {
            Table::Derivative(_) => 50,
            _ => 40,
        }
    }
}

// x in multiples of 2^-power plus 2^63; 0 where that many are 2^63 or more in size.
fn placed_number(x: f64, power: u64) -> u64
    requires { Number x × (power ≤ 50) }
{
    let bits = f64::to_bits(x);
    if bits % 9223372036854775808 / 4503599627370496 >= 1086 - power {
        return 0;
    }
    let n = metres::scaled(x, power);
    if n >= 9223372036854775808 {
        return 0;
    }
    if bits >= 9223372036854775808 {
        9223372036854775808 - n
    } else {
        9223372036854775808 + n
    }
}

// The same of any x: 0 where it is not finite.
fn placed(x: f64, power: u64) -> u64
    requires { power ≤ 50 }
{
    if x.is_finite() {
        placed_number(x, power)
    } else {
        0
    }
}

// n multiples of 2^-power m in 10^-15 m, gone down: 10^15 is 5^15 * 2^15. Half a millimetre and more is told as the largest number.
fn told(n: u64, power: u64) -> u64
    requires { (15 ≤ power) × (power ≤ 50) }
{
    if n >= 536870912 {
        return u64::MAX;
    }
    (n * 30517578125) >> (power - 15)
}

// How far a part is from its exact value.
fn error(x: f64, exact: u64, power: u64) -> u64
    requires { (15 ≤ power) × (power ≤ 50) }
{
    told(placed(x, power).abs_diff(exact), power)
}

// A table, how many points there were of it, and the largest error of each part.
#[derive(Drop)]
struct Tally {
    name: &'static str,
    table: Table,
    points: u64,
    first: u64,
    second: u64,
}

impl Tally {
    fn new(name: &'static str, table: Table) -> Tally {
        Tally {
            name,
            table,
            points: 0,
            first: 0,
            second: 0,
        }
    }

    // Counts a record of the table.
    fn count(&mut self, record: &[u8]) {
        let z = metres::arguments(centred(nth_word(record, 1)), centred(nth_word(record, 2)));
        let p = self.table.answer(z);
        self.first = self.first.max(error(p.re, nth_word(record, 3), 40));
        self.second = self.second.max(error(p.im, nth_word(record, 4), self.table.second_power()));
        self.points = self.points % 1000000 + 1;
    }

    fn tell(&self, rt: &impl Print) -> io::Result<()> {
        let Tally {
            name,
            points,
            first,
            second,
            ..
        } = self;
        println!(rt; "{name} points {points} first {first} second {second} of 10^-15 m")
    }
}

// The next record, or `None` where the input ends before it does. By read_exact, which goes on after an interrupted read.
fn next_record<R: Read>(input: &mut R) -> io::Result<Option<[u8; 40]>> {
    let mut record = [0u8; 40];
    match input.read_exact(&mut record) {
        Ok(()) => Ok(Some(record)),
        Err(e) if e.kind() == ErrorKind::UnexpectedEof => Ok(None),
        Err(e) => Err(e),
    }
}

// Counts each record for the table that it names by its number, and passes by those that name none.
fn run<R: Read>(input: &mut R, tallies: &mut [Tally; 7]) -> io::Result<()> {
    // A count, because every loop has to end; no input of the gate is so long.
    for _ in 0..1000000u64 {
        let Some(record) = next_record(input)? else {
            break;
        };
        if let Some(tally) = tallies.get_mut(nth_word(&record, 0) as usize) {
            tally.count(&record);
        }
    }
    Ok(())
}

fn main(rt: HostRuntime) -> io::Result<()> {
    let mut tallies = [
        Tally::new("forward_grs80", Table::Forward(Ellipsoid::Grs80)),
        Tally::new("derivative_grs80", Table::Derivative(Ellipsoid::Grs80)),
        Tally::new("inverse_grs80", Table::Inverse(Ellipsoid::Grs80)),
        Tally::new("forward_krasovsky", Table::Forward(Ellipsoid::Krasovsky)),
        Tally::new(
            "derivative_krasovsky",
            Table::Derivative(Ellipsoid::Krasovsky),
        ),
        Tally::new("inverse_krasovsky", Table::Inverse(Ellipsoid::Krasovsky)),
        Tally::new("ten", Table::Ten),
    ];
    run(&mut rt.reader(), &mut tallies)?;
    for tally in &tallies {
        tally.tell(&rt)?;
    }
    Ok(())
}
