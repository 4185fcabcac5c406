// What the parts of the ring calls share: a corner of the lent slice, and on which side of an edge a point lies.
#![tactic(auto)]

pub mod corners;
mod rings;
pub mod sides;

pub use rings::Ring;
