// Numbers to either side of a line: a number turned, and a part put on its side of an offset.
ghost use Rattle.std.specs.Prelude.{◌≡◌, ◌^◌, ◌≤◌, ◌<◌, nat_abs, ◌+ℤ◌};
ghost use Rattle.fixed.specs.Nearness.{turned};

// A number, or its opposite where the flag is set. Of a number that may have a sign already; of a size it is `fixed::turned`.
pub fn turned(minus: bool, number: i64) -> i64
    requires { nat_abs number < 2 ^ 63 }
    ensures { result ≡ turned minus number }
{
    if minus { -number } else { number }
}

// A part put on its side of an offset.
pub fn beside(offset: i64, minus: bool, part: i64) -> i64
    requires { (nat_abs offset ≤ 100000000000) × (nat_abs part ≤ 1000000000000) }
    ensures { result ≡ offset +ℤ turned minus part }
{
    offset + turned(minus, part)
}
