// The lines that the field program prints: a line is built up by value, text and decimal numbers after one another, and then copied into a lent buffer.
// Not by `write!`: the promise is the rules' bytes (`decimal`, `said`), and each step here says which of them stand in the line.
#![tactic(auto)]

ghost use Rattle.std.specs.Prelude.{◌≡◌, [], ◌+◌, ◌≤◌, ◌<◌, length, drop};
ghost use Rattle.rules.specs.JobFile.{decimal, whole};
ghost use Rattle.lines.specs.Said.{said, Longer, pasted};

// The digits of a number stand at the end of the array, from `at` on.
#[derive(Clone, Copy)]
struct Digits {
    bytes: [u8; 20],
    at: usize,
}

// A line so far: the first `count` bytes. No line of the program has more than 128. An array of the most there can be, with a count beside it: the library has no heap.
#[derive(Clone, Copy)]
pub struct Line {
    pub bytes: [u8; 128],
    pub count: usize,
}

fn spell(n: u64) -> Digits
    ensures { (result.at < 20) × (length result.bytes ≡ 20) × (drop result.at result.bytes ≡ decimal n) }
{
    let mut digits = [48u8; 20];
    digits[19] = 48 + (n % 10) as u8;
    let mut rest = n / 10;
    let mut at: usize = 19;
    // No `for`: how many places there are to go is known where nothing is left of the number.
    while rest > 0 {
        at -= 1;
        digits[at] = 48 + (rest % 10) as u8;
        rest /= 10;
    }
    Digits { bytes: digits, at }
}

impl Line {
    pub fn empty() -> Line
        ensures { (result.count ≡ 0) × (said result ≡ []) × (length result.bytes ≡ 128) }
    {
        Line {
            bytes: [0u8; 128],
            count: 0,
        }
    }

    // The line with `text` after it.
    pub fn with(mut self, text: &[u8]) -> Line
        requires { self.count + length text.now ≤ 128 }
        ensures { Longer self text.now result }
    {
        let from = self.count;
        let end = from + text.len();
        self.bytes[from..end].copy_from_slice(text);
        self.count = end;
        self
    }

    // The line with a number after it, in decimal.
    pub fn with_number(self, n: u64) -> Line
        requires { self.count + 20 ≤ 128 }
        ensures { (result.count ≤ self.count + 20) × Longer self (decimal n) result }
    {
        let digits = spell(n);
        let bytes = digits.bytes;
        let from = digits.at;
        self.with(&bytes[from..20])
    }

    // The line with a whole number after it, in decimal, a minus sign before one below 0.
    pub fn with_whole(self, z: i64) -> Line
        requires { self.count + 21 ≤ 128 }
        ensures { (result.count ≤ self.count + 21) × Longer self (whole z) result }
    {
        if z < 0 {
            return self.with(b"-").with_number(z.unsigned_abs());
        }
        self.with_number(z.unsigned_abs())
    }

    // Copies the line into `out` from `at` on, and answers the place after it; the other places keep what they held.
    pub fn put(self, out: &mut [u8], at: usize) -> usize
        requires { (self.count ≤ 128) × (at + self.count ≤ length out.old) }
        ensures { (result ≡ at + length (said self)) × (out.new ≡ pasted at (said self) out.old) }
    {
        let end = at + self.count;
        out[at..end].copy_from_slice(&self.bytes[..self.count]);
        end
    }
}
