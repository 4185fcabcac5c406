// A point of the plane, as a corner of a ring is one: X to the north and Y to the east, in millimetres.
#[derive(Clone, Copy, Debug, PartialEq, Eq)]
pub struct Corner {
    pub x: i64,
    pub y: i64,
}
