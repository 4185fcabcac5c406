// What the test programs read by and count with: numbers of 8 bytes out of lent bytes, records and lists out of a reader, and the tallies that are printed of them. No
// function here asks anything of the input: a number that is not there is 0. Which bytes are read is proved; that the tallies are right is seen by the programs' output.
#![tactic(auto)]

mod groups;
mod lists;
mod said;
mod tally;

ghost use Rattle.std.specs.Prelude.{◌≡◌, ◌≤◌, ◌<◌, length, take, IfOk, IfSome, IfNone};
ghost use Rattle.std.specs.Io.KnownBytes.{Consumes, IsAtEnd};
ghost use Rattle.vectors.specs.Words.{word_of, number_of};

pub use groups::{Groups, distances, hold_records, source_of, target_of};
pub use lists::{spread, take_list};
pub use said::Standing;
use std::io;
use std::io::Read;
pub use tally::{Outcome, PLANE_BAND, TICK_BAND, Tally, distance};

// The word after `before` others, the lowest byte first, or 0 where the bytes end before it does.
pub fn nth_word(bytes: &[u8], before: usize) -> u64
    ensures { result ≡ word_of bytes.now before }
{
    if bytes.len() / 8 <= before {
        return 0;
    }
    let at = before * 8;
    let mut word = [0u8; 8];
    word.copy_from_slice(&bytes[at..at + 8]);
    u64::from_le_bytes(word)
}

// The same as a signed number, in two's complement.
pub fn nth_number(bytes: &[u8], before: usize) -> i64
    ensures { result ≡ number_of bytes.now before }
{
    nth_word(bytes, before).cast_signed()
}

// Reads until `bytes` is full or the input ends, and answers how many came. After an `Err` nothing is said of what was read.
pub fn read_full<R: Read>(input: &mut R, bytes: &mut [u8]) -> io::Result<usize>
    ensures within { IfOk result (λ count. count ≤ length bytes.new) }
    ensures came { IfOk result (λ count. Consumes (R.remaining input.old) (R.remaining input.new) (take count bytes.new)) }
    ensures ended { IfOk result (λ count. count < length bytes.new → IsAtEnd (R.remaining input.new)) }
{
    let mut count = 0;
    // No `for`: each turn is a read, which says how far the next one starts.
    while count < bytes.len() {
        let got = input.read(&mut bytes[count..])?;
        if got == 0 {
            break;
        }
        count += got;
    }
    Ok(count)
}

// The next record of N bytes, or `None` where the input ends before it does.
pub fn read_record<const N: usize, R: Read>(input: &mut R) -> io::Result<Option<[u8; N]>>
    ensures came { IfOk result (λ read. IfSome read (λ whole. Consumes (R.remaining input.old) (R.remaining input.new) whole)) }
    ensures ended { IfOk result (λ read. IfNone read (IsAtEnd (R.remaining input.new))) }
{
    let mut record = [0u8; N];
    let count = read_full(input, &mut record)?;
    if count < N {
        return Ok(None);
    }
    Ok(Some(record))
}
