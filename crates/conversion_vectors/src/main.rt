// Converts the rings of `stdin`, made by reference/conversion_cases.py with the lines of `stdout`, and compares every place of the output with what it has to
// hold: one line for each case. A case is two codes, the expected refusal, the length of the list, the room of the output, the list, and the places. Before the
// call place k holds k + 1.
#![tactic(auto)]

use std::io::Read;
use std::{fmt, io};

// What stands for lists that are shorter than the case says. By number, as the refusals beside it, because such a list is no refusal of ours.
const TOO_SHORT: u8 = 255;

// What the call answers, as a line has it: a refusal by its number.
#[derive(Clone, Copy)]
struct Said(Result<(), u8>);

impl fmt::Display for Said {
    fn fmt<W: fmt::Write>(&self, f: &mut fmt::Formatter<W>) -> fmt::Result {
        match self.0 {
            Ok(()) => write!(f, "converted"),
            Err(refusal) => write!(f, "refused {refusal}"),
        }
    }
}

// Prints the line of one case, its number first.
fn put_case(
    rt: &impl Print,
    number: u64,
    said: Said,
    places: usize,
    wrong: usize,
) -> io::Result<()> {
    println!(rt; "{number} {said} places {places} wrong {wrong}")
}

fn held_before(k: usize) -> i64 {
    if 10000 < k {
        return 0;
    }
    (k + 1) as i64
}

// Place k holds k + 1.
fn fill(output: &mut [i64]) {
    for (k, place) in output.iter_mut().enumerate() {
        *place = held_before(k);
    }
}

// How many of the first `count` places differ; 9999 where either list has fewer.
fn differing(output: &[i64], expected: &[i64], count: usize) -> usize {
    let (Some(output), Some(expected)) = (output.get(..count), expected.get(..count)) else {
        return 9999;
    };
    output
        .iter()
        .zip(expected.iter())
        .filter(|(held, wanted)| held != wanted)
        .count()
}

// Converts the list into `room` places of the output.
fn converted(
    source: u8,
    target: u8,
    numbers: &[i64],
    count: usize,
    output: &mut [i64],
    room: usize,
) -> Result<(), u8> {
    if numbers.len() < count || output.len() < room {
        return Err(TOO_SHORT);
    }
    let converted = conversion::convert_ring(
        source,
        target,
        &numbers[..count],
        &mut output[..room],
    );
    converted.map_err(|refusal| refusal.number())
}

fn code_of(word: u64) -> u8 {
    (word % 256) as u8
}

fn length_of(word: u64) -> usize {
    if 2051 < word {
        return 0;
    }
    word as usize
}

// Whether there was a case, which is printed then.
fn one_case<R: Read>(
    rt: &impl Print,
    input: &mut R,
    numbers: &mut [i64],
    output: &mut [i64],
    number: u64,
) -> io::Result<bool> {
    let Some(head) = vectors::read_record::<40, R>(input)? else {
        return Ok(false);
    };
    let source = code_of(vectors::nth_word(&head, 0));
    let target = code_of(vectors::nth_word(&head, 1));
    let count = length_of(vectors::nth_word(&head, 3));
    let room = length_of(vectors::nth_word(&head, 4));
    vectors::take_list(input, numbers, count)?;
    fill(output);
    let said = Said(converted(source, target, numbers, count, output, room));
    vectors::take_list(input, numbers, room)?;
    let wrong = differing(output, numbers, room);
    put_case(rt, number, said, room, wrong)?;
    Ok(true)
}

fn main(rt: HostRuntime) -> io::Result<()> {
    let mut input = rt.reader();
    let mut numbers = [0i64; 2051];
    let mut output = [0i64; 2051];
    // A count, because every loop has to end; no input of the gate is so long.
    for number in 1..1000000u64 {
        if !one_case(&rt, &mut input, &mut numbers, &mut output, number)? {
            break;
        }
    }
    Ok(())
}
