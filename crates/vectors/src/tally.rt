// What a test program says of the answers of one group of records: how many there were, how many lie outside their band, and the largest distance from the true
// value. A record expects 0, an answer that is the nearest whole number; 255, an answer so near a tie that only the band judges it; or a refusal's number.
use std::{fmt, io};

// In millionths of a unit: the bands of plane answers, scale and convergence, and of ticks; and what stands for any distance that is not worth its number.
pub const PLANE_BAND: u64 = 510000;

pub const TICK_BAND: u64 = 600000;

const FAR: u64 = 1000000000000;

// How an answer came out: its distances from the true values in millionths (0 where a call has fewer than four numbers), or a refusal's number.
pub type Outcome = Result<[u64; 4], u64>;

#[derive(Clone, Copy, Debug, PartialEq, Eq)]
pub struct Tally {
    pub band: u64,
    pub points: u64,
    pub near: u64,
    pub outside: u64,
    pub refused: u64,
    pub wrong: u64,
    pub largest: [u64; 4],
}

// One more, as far as a count is worth its number.
fn more(count: u64) -> u64 {
    if count < FAR { count + 1 } else { count }
}

// The sum of two sizes, for numbers on either side of 0.
fn across(a: u64, b: u64) -> u64 {
    if FAR < a || FAR < b {
        return FAR;
    }
    a + b
}

// How far an answer lies from a true value in millionths of its unit; FAR for an answer past a thousand kilometres of ticks, which is none of ours.
pub fn distance(answer: i64, millionths: i64) -> u64 {
    let size_of_answer = answer.unsigned_abs();
    if FAR < size_of_answer {
        return FAR;
    }
    let there = size_of_answer * 1000000;
    let true_there = millionths.unsigned_abs();
    if (answer < 0) == (millionths < 0) {
        there.abs_diff(true_there)
    } else {
        across(there, true_there)
    }
}

impl Tally {
    pub fn new(band: u64) -> Tally {
        Tally {
            band,
            points: 0,
            near: 0,
            outside: 0,
            refused: 0,
            wrong: 0,
            largest: [0; 4],
        }
    }

    fn with_wrong(mut self) -> Tally {
        self.wrong = more(self.wrong);
        self
    }

    fn with_band(mut self, distances: [u64; 4]) -> Tally {
        let band = self.band;
        if distances.iter().any(|distance| band < *distance) {
            self.outside = more(self.outside);
        }
        self
    }

    fn with_point(mut self, distances: [u64; 4]) -> Tally {
        self.points = more(self.points);
        for (largest, distance) in self.largest.iter_mut().zip(distances.iter()) {
            *largest = (*largest).max(*distance);
        }
        self.with_band(distances)
    }

    fn with_near(mut self, distances: [u64; 4]) -> Tally {
        self.near = more(self.near);
        self.with_band(distances)
    }

    fn with_refusal(mut self, expected: u64, refusal: u64) -> Tally {
        self.refused = more(self.refused);
        if expected == refusal {
            return self;
        }
        self.with_wrong()
    }

    // The tally with one record more.
    pub fn with(self, expected: u64, outcome: Outcome) -> Tally {
        match (outcome, expected) {
            (Err(refusal), _) => self.with_refusal(expected, refusal),
            (Ok(distances), 0) => self.with_point(distances),
            (Ok(distances), 255) => self.with_near(distances),
            (Ok(_), _) => self.with_wrong(),
        }
    }

    // Prints the group's line: the call's name, the group, and what was counted.
    pub fn print(self, rt: &impl Print, name: &[u8], group: u64) -> io::Result<()> {
        rt.write_all(name)?;
        println!(rt; " {group}{self}")
    }
}

// What was counted; the distances in thousandths of a unit.
impl fmt::Display for Tally {
    fn fmt<W: fmt::Write>(&self, f: &mut fmt::Formatter<W>) -> fmt::Result {
        write!(
            f,
            " points {} near {} outside {}",
            self.points, self.near, self.outside
        )?;
        write!(f, " largest")?;
        for largest in self.largest.iter() {
            write!(f, " {}", largest / 1000)?;
        }
        write!(f, " refused {} wrong {}", self.refused, self.wrong)
    }
}
