// The line that an answer prints, and the lines that end a job.
ghost use Rattle.rules.specs.JobFile.{text, decimal, refusal_line};
ghost use Rattle.rules.specs.Refusals.{ring_crossed};
ghost use Rattle.std.specs.Prelude.{◌++◌};
ghost use Rattle.job_state.specs.States.{line};
ghost use Rattle.job_lines.specs.Printed.{printed_at, Says};
ghost use Rattle.terms.specs.Numbers.{number_of};

use job_state::state::Answer;
use lines::Line;
use terms::{CrossedPair, Position, Refusal};

// What is printed for a record whose kind byte is at `offset`.
pub fn answer_line(answer: Answer, offset: u64) -> Line
    ensures { Says (printed_at answer offset) result }
{
    match answer {
        Answer::Silent => Line::empty(),
        Answer::Field(code, count, area) => field_line(code, count, area),
        Answer::Inner(number, count, area) => inner_line(number, count, area),
        Answer::Nozzle(x, y, position) => nozzle_line(x, y, position),
        Answer::Point(x, y, scale, convergence) => point_line(x, y, scale, convergence),
        Answer::Refused(refusal) => refused_line(refusal, offset),
    }
}

fn field_line(code: u8, count: usize, area: i64) -> Line
    ensures { Says (line (Answer.Field code count area)) result }
{
    Line::empty()
        .with(b"field ")
        .with_number(code as u64)
        .with(b" corners ")
        .with_number(count as u64)
        .with(b" area2 ")
        .with_whole(area)
        .with(b"\n")
}

fn inner_line(number: usize, count: usize, area: i64) -> Line
    ensures { Says (line (Answer.Inner number count area)) result }
{
    Line::empty()
        .with(b"inner ")
        .with_number(number as u64)
        .with(b" corners ")
        .with_number(count as u64)
        .with(b" area2 ")
        .with_whole(area)
        .with(b"\n")
}

fn nozzle_line(x: i64, y: i64, position: Position) -> Line
    ensures { Says (line (Answer.Nozzle x y position)) result }
{
    let front = Line::empty()
        .with(b"nozzle ")
        .with_whole(x)
        .with(b" ")
        .with_whole(y)
        .with(b" ");
    match position {
        Position::Open => front.with(b"open").with(b"\n"),
        Position::Border => front.with(b"border").with(b"\n"),
        Position::Shut => front.with(b"shut").with(b"\n"),
    }
}

fn point_line(x: i64, y: i64, scale: i64, convergence: i64) -> Line
    ensures { Says (line (Answer.Point x y scale convergence)) result }
{
    Line::empty()
        .with(b"point ")
        .with_whole(x)
        .with(b" ")
        .with_whole(y)
        .with(b" ")
        .with_whole(scale)
        .with(b" ")
        .with_whole(convergence)
        .with(b"\n")
}

// A crossed ring's refusal names the pair of edges besides.
fn refused_line(refusal: Refusal, offset: u64) -> Line
    ensures { Says (printed_at (Answer.Refused refusal) offset) result }
{
    match refusal {
        Refusal::RingCrossed(pair) => crossed_line(offset, pair),
        other => refusal_line(other, offset),
    }
}

pub fn refusal_line(refusal: Refusal, offset: u64) -> Line
    ensures { Says (refusal_line (number_of refusal) offset ++ text "\n") result }
{
    Line::empty()
        .with(b"refused ")
        .with_number(refusal.number() as u64)
        .with(b" at ")
        .with_number(offset)
        .with(b"\n")
}

fn crossed_line(offset: u64, pair: CrossedPair) -> Line
    ensures { Says (refusal_line ring_crossed offset ++ text " edges " ++ decimal pair.low ++ text " " ++ decimal pair.high ++ text "\n") result }
{
    Line::empty()
        .with(b"refused ")
        .with_number(9)
        .with(b" at ")
        .with_number(offset)
        .with(b" edges ")
        .with_number(pair.low)
        .with(b" ")
        .with_number(pair.high)
        .with(b"\n")
}

pub fn end_line(records: u64) -> Line
    ensures { Says (text "end " ++ decimal records ++ text "\n") result }
{
    Line::empty().with(b"end ").with_number(records).with(b"\n")
}
