// What the edges of an accepted ring tell of a point: the turning number, and whether the point lies on an edge.
#![tactic(auto)]

pub mod touching;
pub mod turning;
