// Holds `conversion::plane_to_plane` to true values: reads the records of `stdin`, made by reference/point_cases.py with the lines of `stdout`, and prints one line
// for each source code: how many points were answered, lie outside the band or were refused, and the largest distances in thousandths of a unit.
#![tactic(auto)]

use std::io;
use vectors::Outcome;

fn outcome_of(record: &[u8]) -> Outcome {
    let answer = conversion::plane_to_plane(
        vectors::source_of(record),
        vectors::target_of(record),
        vectors::nth_number(record, 1),
        vectors::nth_number(record, 2),
    );
    match answer {
        Ok(corner) => Ok(vectors::distances(record, [corner.x, corner.y, 0, 0])),
        Err(refusal) => Err(refusal.number() as u64),
    }
}

fn main(rt: HostRuntime) -> io::Result<()> {
    vectors::hold_records(&rt, "plane", vectors::PLANE_BAND, outcome_of)
}
