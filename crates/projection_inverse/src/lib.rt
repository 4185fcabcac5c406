// Plane to latitude and longitude, in a system that has a row.
#![tactic(auto)]

pub mod backward;
pub mod sides;

// B and L in ticks.
#[derive(Clone, Copy, Debug, PartialEq, Eq)]
pub struct Geodetic {
    pub latitude: i64,
    pub longitude: i64,
}
