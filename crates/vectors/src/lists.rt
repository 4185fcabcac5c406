// Lists of numbers out of a reader: each as long as a ring of 1,025 corners and one number more, at most.
ghost use Rattle.std.specs.Prelude.{◌≤◌, length, IfOk};

use crate::{nth_number, read_full};
use std::io;
use std::io::Read;

// Lays out the first `count` numbers that were read, as `nth` has them, and answers how many of them there is room for.
pub fn spread<T: Copy, F: Fn(&[u8], usize) -> T>(
    numbers: &mut [T],
    bytes: &[u8],
    count: usize,
    nth: F,
) -> usize
    requires { F.IsAlwaysCallable nth }
    ensures within { result ≤ count }
    ensures room { result ≤ length numbers.new }
{
    let spread = count.min(numbers.len());
    for (k, number) in numbers[..spread].iter_mut().enumerate() {
        *number = nth(bytes, k);
    }
    spread
}

// Reads a list of `count` numbers, and answers how many there were: none where the count is past the room.
pub fn take_list<R: Read>(input: &mut R, numbers: &mut [i64], count: usize) -> io::Result<usize>
    ensures within { IfOk result (λ n. n ≤ count) }
    ensures room { IfOk result (λ n. n ≤ length numbers.new) }
{
    if 2051 < count {
        return Ok(0);
    }
    let mut bytes = [0u8; 16408];
    let got = read_full(input, &mut bytes[..count * 8])?;
    Ok(spread(numbers, &bytes, got / 8, nth_number))
}
