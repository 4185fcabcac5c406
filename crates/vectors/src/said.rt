// What the programs print of what a call answers.
use std::fmt;
use terms::Position;

// Where a nozzle stands, by its word.
#[derive(Clone, Copy, Debug, PartialEq, Eq)]
pub struct Standing(pub Position);

impl fmt::Display for Standing {
    fn fmt<W: fmt::Write>(&self, f: &mut fmt::Formatter<W>) -> fmt::Result {
        match self.0 {
            Position::Open => write!(f, "open"),
            Position::Border => write!(f, "border"),
            Position::Shut => write!(f, "shut"),
        }
    }
}
