// The lines that a job prints.
#![tactic(auto)]

pub mod line;
