// Where a nozzle stands to a ring or a field.
#[derive(Clone, Copy, Debug, PartialEq, Eq)]
pub enum Position {
    Open,
    Border,
    Shut,
}
