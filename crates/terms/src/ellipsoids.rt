// The two ellipsoids on which the systems lie.
#[derive(Clone, Copy, Debug, PartialEq, Eq)]
pub enum Ellipsoid {
    Grs80,
    Krasovsky,
}
