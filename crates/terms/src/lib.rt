// The words that the crates share: a corner, the two ellipsoids, where a nozzle stands, and the refusals of all calls.
#![tactic(auto)]

mod corners;
mod ellipsoids;
mod positions;
mod refusals;

pub use corners::Corner;
pub use ellipsoids::Ellipsoid;
pub use positions::Position;
pub use refusals::{CrossedPair, Refusal};
