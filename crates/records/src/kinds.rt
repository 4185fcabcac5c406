// The kinds of record that are read, each with its byte and its body's length.
ghost use Rattle.std.specs.Prelude.{◌≡◌};
ghost use Rattle.records.specs.Kinds.{Decodes, row_of};

use terms::Refusal;

#[derive(Clone, Copy, Debug, PartialEq, Eq)]
pub enum Kind {
    Begin,
    Corner,
    Close,
    Query,
    Point,
}

impl TryFrom<u8> for Kind {
    type Error = Refusal;

    ghost try_from_gives = { Decodes };

    fn try_from(byte: u8) -> Result<Self, Refusal> {
        match byte {
            1 => Ok(Kind::Begin),
            2 => Ok(Kind::Corner),
            3 => Ok(Kind::Close),
            4 => Ok(Kind::Query),
            5 => Ok(Kind::Point),
            _ => Err(Refusal::KindUnknown),
        }
    }
}

impl Kind {
    // How many bytes the body has.
    pub fn body_length(self) -> usize
        ensures { result ≡ (row_of self).body_length }
    {
        match self {
            Kind::Begin => 1,
            Kind::Corner => 16,
            Kind::Close => 0,
            Kind::Query => 16,
            Kind::Point => 17,
        }
    }
}
