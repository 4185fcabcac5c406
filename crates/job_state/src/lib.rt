// The job's state by value, and what a record makes of it.
#![tactic(auto)]

pub mod in_place;
mod ring;
pub mod state;
