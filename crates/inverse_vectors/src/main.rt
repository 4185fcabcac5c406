// Holds `projection::inverse` to true values: reads the records of `stdin`, made by reference/point_cases.py with the lines of `stdout`, and prints one line
// for each code: how many points were answered, lie outside the band or were refused, and the largest distances in thousandths of a unit.
#![tactic(auto)]

use std::io;
use vectors::Outcome;

fn outcome_of(record: &[u8]) -> Outcome {
    let answer = projection::inverse(
        vectors::source_of(record),
        vectors::nth_number(record, 1),
        vectors::nth_number(record, 2),
    );
    match answer {
        Ok(place) => Ok(vectors::distances(record, [place.latitude, place.longitude, 0, 0])),
        Err(refusal) => Err(refusal.number() as u64),
    }
}

fn main(rt: HostRuntime) -> io::Result<()> {
    vectors::hold_records(&rt, "inverse", vectors::TICK_BAND, outcome_of)
}
