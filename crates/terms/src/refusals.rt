// Why a call refuses its input. Each refusal has the number that a terminal is told; no two have one number, and 10 is withdrawn.
ghost use Rattle.std.specs.Prelude.{◌≡◌};
ghost use Rattle.terms.specs.Numbers.{number_of};

// The first crossed pair of edges: the number of its ring, which is 0 of a ring by itself, the pair's lower and higher edge, and how many pairs were looked at.
#[derive(Clone, Copy, Debug, PartialEq, Eq)]
pub struct CrossedPair {
    pub ring: u64,
    pub low: u64,
    pub high: u64,
    pub looked_at: u64,
}

#[derive(Clone, Copy, Debug, PartialEq, Eq)]
pub enum Refusal {
    CodeUnknown,
    LatitudeOutside,
    LongitudeOutside,
    PlaneOutside,
    EllipsoidsDiffer,
    CornerCount,
    CornerNumber,
    SpanTooLarge,
    RingCrossed(CrossedPair),
    KindUnknown,
    BodyCutOff,
    OutOfPlace,
    OutputTooShort,
    BadlyPlaced,
    TooManyRings,
}

impl Refusal {
    pub fn number(self) -> u8
        ensures { result ≡ number_of self }
    {
        match self {
            Refusal::CodeUnknown => 1,
            Refusal::LatitudeOutside => 2,
            Refusal::LongitudeOutside => 3,
            Refusal::PlaneOutside => 4,
            Refusal::EllipsoidsDiffer => 5,
            Refusal::CornerCount => 6,
            Refusal::CornerNumber => 7,
            Refusal::SpanTooLarge => 8,
            Refusal::RingCrossed(_) => 9,
            Refusal::KindUnknown => 11,
            Refusal::BodyCutOff => 12,
            Refusal::OutOfPlace => 13,
            Refusal::OutputTooShort => 14,
            Refusal::BadlyPlaced => 15,
            Refusal::TooManyRings => 16,
        }
    }
}
