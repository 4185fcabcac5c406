// The common boxes of runs of sixteen edges: run m has the edges from corner 16 m to corner 16 m + 16, as far as the last corner. The ring's last edge, which
// runs back to the first corner, is in no run.
#![tactic(auto)]

mod reach;
mod rings;
mod runs;

pub use reach::{Reach, box_of};
pub use rings::BoxedRing;
pub use runs::{UNFILLED, fill, run_end};
