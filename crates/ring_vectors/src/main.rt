// Runs the ring calls over the cases of `stdin`, made by reference/ring_cases.py with the lines of `stdout`: one line for each case, with what each of the five
// calls answers. A case is the length of a list of numbers, a point's X and Y, and the list; the length -1 stands for the list of the case before.
#![tactic(auto)]

use std::io::Read;
use std::{fmt, io};
use terms::{Corner, Refusal};
use vectors::Standing;

// What a call answers, as a line has it: its value, or the refusal, of a crossed ring with how many pairs of edges were looked at.
#[derive(Clone, Copy)]
struct Said<T>(Result<T, Refusal>);

impl<T: fmt::Display> fmt::Display for Said<T> {
    fn fmt<W: fmt::Write>(&self, f: &mut fmt::Formatter<W>) -> fmt::Result {
        match &self.0 {
            Ok(value) => write!(f, "{value}"),
            Err(Refusal::RingCrossed(pair)) => write!(
                f,
                "crossed {} {} looked {}",
                pair.low, pair.high, pair.looked_at
            ),
            Err(refusal) => write!(f, "refused {}", refusal.number()),
        }
    }
}

// A clean ring, with how many pairs of edges were looked at.
#[derive(Clone, Copy)]
struct Clean(u64);

impl fmt::Display for Clean {
    fn fmt<W: fmt::Write>(&self, f: &mut fmt::Formatter<W>) -> fmt::Result {
        write!(f, "clean looked {}", self.0)
    }
}

// Prints the line of one case, its number first.
fn put_case(rt: &impl Print, number: u64, ring: &[i64], p: Corner) -> io::Result<()> {
    let area = Said(rings::area2(ring));
    let turning = Said(rings::turning_number(ring, p));
    let crossing = Said(rings::crossing(ring).map(|looked| Clean(looked)));
    let nozzle = Said(rings::nozzle(ring, p).map(|position| Standing(position)));
    let position = Said(rings::position(ring, p).map(|position| Standing(position)));
    print!(rt; "{number} area2 {area} turning {turning} crossing {crossing}")?;
    println!(rt; " nozzle {nozzle} position {position}")
}

// How long the list of this case is: read where the case has one of its own. -1 is the largest word.
fn list_of<R: Read>(
    input: &mut R,
    numbers: &mut [i64],
    said: u64,
    before: usize,
) -> io::Result<usize> {
    if 2051 < said {
        return Ok(before);
    }
    vectors::take_list(input, numbers, said as usize)
}

// The length of this case's list, or `None` where the input has no more.
fn one_case<R: Read>(
    rt: &impl Print,
    input: &mut R,
    numbers: &mut [i64],
    number: u64,
    before: usize,
) -> io::Result<Option<usize>> {
    let Some(head) = vectors::read_record::<24, R>(input)? else {
        return Ok(None);
    };
    let count = list_of(input, numbers, vectors::nth_word(&head, 0), before)?;
    let Some(ring) = numbers.get(..count) else {
        return Ok(None);
    };
    let p = Corner {
        x: vectors::nth_number(&head, 1),
        y: vectors::nth_number(&head, 2),
    };
    put_case(rt, number, ring, p)?;
    Ok(Some(count))
}

fn main(rt: HostRuntime) -> io::Result<()> {
    let mut input = rt.reader();
    let mut numbers = [0i64; 2051];
    let mut count = 0;
    // A count, because every loop has to end; no input of the gate is so long.
    for number in 1..1000000u64 {
        match one_case(&rt, &mut input, &mut numbers, number, count)? {
            Some(length) => count = length,
            None => break,
        }
    }
    Ok(())
}
