// Runs the field calls over the cases of `stdin`, made by reference/field_cases.py with the lines of `stdout`: one line for each case, with what each of the
// three calls answers. A case is the number of rings, the corner count of each, the length of a list of numbers, a point's X and Y, and the list; -1 rings
// stands for the field of the case before, and the point follows at once.
#![tactic(auto)]

ghost use Rattle.std.specs.Prelude.{length, max, ◌≡◌, ◌≤◌, IfOk};

use std::io::Read;
use std::{fmt, io};
use terms::{Corner, Refusal};
use vectors::Standing;

// The most rings and numbers that a case may have, and how many numbers are read at a time: `vectors` has room for those of one ring.
const MOST_RINGS: u64 = 32;

const MOST_NUMBERS: u64 = 8192;

const PIECE: usize = 2048;

// What a call answers, as a line has it: its value, or the refusal's number. The refusal 9 has the ring, its two edges, and how many pairs of edges of it were looked at.
#[derive(Clone, Copy)]
struct Said<T>(Result<T, Refusal>);

impl<T: fmt::Display> fmt::Display for Said<T> {
    fn fmt<W: fmt::Write>(&self, f: &mut fmt::Formatter<W>) -> fmt::Result {
        match &self.0 {
            Ok(value) => write!(f, "{value}"),
            Err(Refusal::RingCrossed(pair)) => write!(
                f,
                "9 {} {} {} {}",
                pair.ring, pair.low, pair.high, pair.looked_at
            ),
            Err(refusal) => write!(f, "{}", refusal.number()),
        }
    }
}

// A field that is accepted.
#[derive(Clone, Copy)]
struct Accepted;

impl fmt::Display for Accepted {
    fn fmt<W: fmt::Write>(&self, f: &mut fmt::Formatter<W>) -> fmt::Result {
        write!(f, "ok")
    }
}

// Prints the line of one case, its number first.
fn put_case(
    rt: &impl Print,
    number: u64,
    counts: &[u32],
    corners: &[i64],
    p: Corner,
) -> io::Result<()> {
    let accept = Said(fields::accept(counts, corners).map(|_| Accepted));
    let nozzle = Said(fields::nozzle(counts, corners, p).map(|position| Standing(position)));
    let position = Said(fields::position(counts, corners, p).map(|position| Standing(position)));
    println!(rt; "{number} accept {accept} nozzle {nozzle} position {position}")
}

// A count, which the makers keep below 2^32.
fn nth_count(bytes: &[u8], before: usize) -> u32 {
    (vectors::nth_word(bytes, before) % 4294967296) as u32
}

// Reads the counts of so many rings, and answers how many there were: none where the rings are past the room.
fn take_counts<R: Read>(input: &mut R, counts: &mut [u32], said: u64) -> io::Result<usize> {
    if MOST_RINGS < said {
        return Ok(0);
    }
    let mut bytes = [0u8; 256];
    let size = (said as usize) * 8;
    let got = vectors::read_full(input, &mut bytes[..size])?;
    Ok(vectors::spread(counts, &bytes, got / 8, nth_count))
}

// How many numbers the next piece of a list of `count` has, behind the first `at`.
fn piece_of(at: usize, count: usize) -> usize {
    count.saturating_sub(at).min(PIECE)
}

// Reads that piece into its place, and answers how many of the list are there then. None is taken past the room.
fn take_piece<R: Read>(
    input: &mut R,
    numbers: &mut [i64],
    at: usize,
    count: usize,
) -> io::Result<usize>
    ensures { IfOk result (λ n. n ≤ max at (length numbers.new)) }
{
    if numbers.len() < at {
        return Ok(at);
    }
    let got = vectors::take_list(input, &mut numbers[at..], piece_of(at, count))?;
    Ok(at + got)
}

// Reads a list of numbers, and answers how many there were: none where the list is past the room.
fn take_numbers<R: Read>(input: &mut R, numbers: &mut [i64], said: u64) -> io::Result<usize> {
    if MOST_NUMBERS < said {
        return Ok(0);
    }
    let mut at = 0;
    // The most numbers are four pieces.
    for _ in 0..4 {
        at = take_piece(input, numbers, at, said as usize)?;
    }
    Ok(at)
}

// How many rings and numbers the field of a case has, for a case that goes on with it.
#[derive(Clone, Copy)]
struct Turn {
    rings: usize,
    count: usize,
}

// Prints the case at a point, and answers its field; `None` where that is past the room.
fn print_case(
    rt: &impl Print,
    counts: &[u32],
    numbers: &[i64],
    number: u64,
    turn: Turn,
    p: Corner,
) -> io::Result<Option<Turn>> {
    let Turn { rings, count } = turn;
    if counts.len() < rings || numbers.len() < count {
        return Ok(None);
    }
    put_case(rt, number, &counts[..rings], &numbers[..count], p)?;
    Ok(Some(turn))
}

// A case with a field of its own.
fn new_field<R: Read>(
    rt: &impl Print,
    input: &mut R,
    counts: &mut [u32],
    numbers: &mut [i64],
    number: u64,
    said: u64,
) -> io::Result<Option<Turn>> {
    let rings = take_counts(input, counts, said)?;
    let Some(head) = vectors::read_record::<24, R>(input)? else {
        return Ok(None);
    };
    let count = take_numbers(input, numbers, vectors::nth_word(&head, 0))?;
    let p = Corner {
        x: vectors::nth_number(&head, 1),
        y: vectors::nth_number(&head, 2),
    };
    print_case(rt, counts, numbers, number, Turn { rings, count }, p)
}

// A case with the field of the one before.
fn same_field<R: Read>(
    rt: &impl Print,
    input: &mut R,
    counts: &[u32],
    numbers: &[i64],
    number: u64,
    before: Turn,
) -> io::Result<Option<Turn>> {
    let Some(point) = vectors::read_record::<16, R>(input)? else {
        return Ok(None);
    };
    let p = Corner {
        x: vectors::nth_number(&point, 0),
        y: vectors::nth_number(&point, 1),
    };
    print_case(rt, counts, numbers, number, before, p)
}

// The field of the next case, or `None` where the input ends. -1 is the largest word.
fn one_case<R: Read>(
    rt: &impl Print,
    input: &mut R,
    counts: &mut [u32],
    numbers: &mut [i64],
    number: u64,
    before: Turn,
) -> io::Result<Option<Turn>> {
    let Some(word) = vectors::read_record::<8, R>(input)? else {
        return Ok(None);
    };
    let said = vectors::nth_word(&word, 0);
    if MOST_RINGS < said {
        return same_field(rt, input, counts, numbers, number, before);
    }
    new_field(rt, input, counts, numbers, number, said)
}

fn main(rt: HostRuntime) -> io::Result<()> {
    let mut input = rt.reader();
    let mut counts = [0u32; 32];
    let mut numbers = [0i64; 8192];
    let mut turn = Turn { rings: 0, count: 0 };
    // A count, because every loop has to end; no input of the gate is so long.
    for number in 1..1000000u64 {
        match one_case(&rt, &mut input, &mut counts, &mut numbers, number, turn)? {
            Some(next) => turn = next,
            None => break,
        }
    }
    Ok(())
}
