// Records of 64 bytes in groups: the code or codes, two arguments, what is expected, and up to four true values in millionths of a unit. The group is the
// (source) code, any code outside 1 to 14 being the group 0; its line is printed where the next group begins.
ghost use Rattle.std.specs.Prelude.{◌≡◌, ◌%◌, ◌/◌};
ghost use Rattle.vectors.specs.Words.{word_of};

use crate::{Outcome, Tally, distance, nth_number, nth_word, read_record};
use std::io;

// Where a run over the records stands.
#[derive(Clone, Copy, Debug, PartialEq, Eq)]
pub struct Groups {
    tally: Tally,
    group: Option<u64>,
}

// The source code of a record, and the target code behind it.
pub fn source_of(record: &[u8]) -> u8
    ensures { result ≡ word_of «record».now 0 % 256 }
{
    (nth_word(record, 0) % 256) as u8
}

pub fn target_of(record: &[u8]) -> u8
    ensures { result ≡ word_of «record».now 0 / 256 % 256 }
{
    (nth_word(record, 0) / 256 % 256) as u8
}

// How far an answer's numbers are from those of a record, of which those past the call's own are 0.
pub fn distances(record: &[u8], answer: [i64; 4]) -> [u64; 4] {
    let [first, second, third, fourth] = answer;
    [
        distance(first, nth_number(record, 4)),
        distance(second, nth_number(record, 5)),
        distance(third, nth_number(record, 6)),
        distance(fourth, nth_number(record, 7)),
    ]
}

fn group_of(code: u64) -> u64 {
    if 14 < code { 0 } else { code }
}

impl Groups {
    // None yet; the answers of every group are held to one band, in millionths.
    pub fn new(band: u64) -> Groups {
        Groups {
            tally: Tally::new(band),
            group: None,
        }
    }

    // Prints the line of the group that stands.
    pub fn close(self, rt: &impl Print, name: &[u8]) -> io::Result<()> {
        self.tally.print(rt, name, self.group.unwrap_or(0))
    }

    // The tally to go on with: the group's own, or a new one, the line of the group before being printed.
    fn tally_for(self, rt: &impl Print, name: &[u8], group: u64) -> io::Result<Tally> {
        match self.group {
            Some(before) if before != group => {
                self.close(rt, name)?;
                Ok(Tally::new(self.tally.band))
            }
            _ => Ok(self.tally),
        }
    }

    // The run with one record more.
    pub fn with(
        self,
        rt: &impl Print,
        name: &[u8],
        record: &[u8],
        outcome: Outcome,
    ) -> io::Result<Groups> {
        let group = group_of(nth_word(record, 0) % 256);
        let tally = self.tally_for(rt, name, group)?;
        Ok(Groups {
            tally: tally.with(nth_word(record, 3), outcome),
            group: Some(group),
        })
    }
}

// Holds what a call makes of each record of the input to the true values there, and prints the line of each group.
pub fn hold_records<F: Fn(&[u8]) -> Outcome>(
    rt: &(impl Input + Print),
    name: &str,
    band: u64,
    outcome_of: F,
) -> io::Result<()>
    requires { F.IsAlwaysCallable outcome_of }
{
    let name = name.as_bytes();
    let mut input = rt.reader();
    let mut groups = Groups::new(band);
    // A count, because every loop has to end; no input of the gate is so long.
    for _ in 0..1000000u64 {
        let Some(record) = read_record::<64, _>(&mut input)? else {
            return groups.close(rt, name);
        };
        groups = groups.with(rt, name, &record, outcome_of(&record))?;
    }
    Ok(())
}
