// Crossed pairs of an accepted ring's edges: the test of two edges, and the first later edge that makes a pair with a given one.
#![tactic(auto)]

pub mod meeting;
pub mod search;
