// The job over a whole file: its bytes in chunks, by the state of job_state and the lines of job_lines.
#![tactic(auto)]

mod passage;
pub mod run;

pub use job_lines::line;
pub use job_state::state;
