// The records of a job file: a cursor by value over the file's bytes, and what stands at it.
// Checks 11 and 12 are made here; 13 and the content's own are the job's.
#![tactic(auto)]

mod kinds;

ghost use Rattle.std.specs.Prelude.{◌≡◌, ◌+◌, ◌≤◌, length};
ghost use Rattle.rules.specs.JobFile.{number_at};
ghost use Rattle.records.specs.Kinds.{row_of};
ghost use Rattle.records.specs.Reader.{parsed, read_at};

pub use kinds::Kind;
use terms::Refusal;

// X and Y, B and L one by one, as the rules' step has them; so have all that take a record apart.
#[derive(Clone, Copy, Debug, PartialEq, Eq)]
pub enum Record {
    Begin(u8),
    Corner(i64, i64),
    Close,
    Query(i64, i64),
    Point(u8, i64, i64),
    // Begins an inner ring. No kind is read as it yet.
    Inner,
}

#[derive(Clone, Copy, Debug, PartialEq, Eq)]
pub struct Cursor {
    pub at: usize,
}

// A whole record, with the cursor past it.
#[derive(Clone, Copy, Debug, PartialEq, Eq)]
pub struct Whole {
    pub item: Record,
    pub next: Cursor,
}

// Why no record is read, with the place of the kind byte.
#[derive(Clone, Copy, Debug, PartialEq, Eq)]
pub struct Stopped {
    pub refusal: Refusal,
    pub at: usize,
}

impl Cursor {
    pub fn start() -> Cursor
        ensures { result.at ≡ 0 }
    {
        Cursor { at: 0 }
    }

    // The record at the cursor, or `None` where nothing is left.
    pub fn read(self, file: &[u8]) -> Result<Option<Whole>, Stopped>
        ensures { result ≡ read_at file.now self.at }
    {
        let at = self.at;
        if file.len() <= at {
            return Ok(None);
        }
        let kind = match Kind::try_from(file[at]) {
            Ok(kind) => kind,
            Err(refusal) => return Err(Stopped { refusal, at }),
        };
        let from = at + 1;
        let length = kind.body_length();
        if file.len() - from < length {
            return Err(Stopped {
                refusal: Refusal::BodyCutOff,
                at,
            });
        }
        let end = from + length;
        Ok(Some(Whole {
            item: parse(kind, &file[from..end]),
            next: Cursor { at: end },
        }))
    }
}

// A body of its kind's length, as a record.
fn parse(kind: Kind, body: &[u8]) -> Record
    requires { length body.now ≡ (row_of kind).body_length }
    ensures { result ≡ parsed (row_of kind).kind body.now }
{
    match kind {
        Kind::Begin => Record::Begin(body[0]),
        Kind::Corner => Record::Corner(number(body, 0), number(body, 8)),
        Kind::Close => Record::Close,
        Kind::Query => Record::Query(number(body, 0), number(body, 8)),
        Kind::Point => Record::Point(body[0], number(body, 1), number(body, 9)),
    }
}

// Eight bytes, the lowest first, in two's complement.
fn number(body: &[u8], at: usize) -> i64
    requires { at + 8 ≤ length body.now }
    ensures { result ≡ number_at at body.now }
{
    let mut bytes = [0u8; 8];
    bytes.copy_from_slice(&body[at..at + 8]);
    i64::from_le_bytes(bytes)
}
