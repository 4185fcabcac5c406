// Holds `projection::forward` to true values, and `projection::forward_plane` to its X and Y: reads the records of `stdin`, made by reference/point_cases.py with the lines of `stdout`, and prints one line
// for each code: how many points were answered, lie outside the band or were refused, and the largest distances in thousandths of a unit.
#![tactic(auto)]

use std::io;
use vectors::Outcome;

// What stands for a call for X and Y alone that does not answer the same two.
const DIFFERENT: u64 = 99;

fn outcome_of(record: &[u8]) -> Outcome {
    let code = vectors::source_of(record);
    let b = vectors::nth_number(record, 1);
    let l = vectors::nth_number(record, 2);
    match (
        projection::forward(code, b, l),
        projection::forward_plane(code, b, l),
    ) {
        (Ok(point), Ok(plane)) if plane.x == point.x && plane.y == point.y => {
            let answer = [point.x, point.y, point.scale, point.convergence];
            Ok(vectors::distances(record, answer))
        }
        (Err(refusal), Err(plane_refusal)) if plane_refusal.number() == refusal.number() => {
            Err(refusal.number() as u64)
        }
        _ => Err(DIFFERENT),
    }
}

fn main(rt: HostRuntime) -> io::Result<()> {
    vectors::hold_records(&rt, "forward", vectors::PLANE_BAND, outcome_of)
}
