// A job file from standard input, its lines to standard output: what the field program does. Input and output go in chunks of 65,536 bytes, so a file of any
// length takes the same memory. Where nobody takes the output any more, or the input fails, it stops, and writes no last line then.
#![tactic(auto)]

ghost use Rattle.std.specs.Prelude.{◌≤◌, length};

use job::run::Run;
use std::io;
use std::io::Read;

// A chunk, and what it prints: the run to go on with, or `None` where a record was refused, after which no more is to be read.
fn digest(rt: &impl Print, run: Run, chunk: &[u8], out: &mut [u8]) -> io::Result<Option<Run>> {
    let mut now = run;
    let mut at: usize = 0;
    // No `for`: each call says how far the next one starts.
    while at < chunk.len() {
        let fed = now.feed(&chunk[at..], out);
        now = fed.run;
        if fed.used == 0 {
            return Ok(None);
        }
        at += fed.used;
        emit(rt, out, fed.wrote)?;
    }
    Ok(if now.stopped { None } else { Some(now) })
}

fn emit(rt: &impl Print, out: &[u8], count: usize) -> io::Result<()>
    requires { count ≤ length out.now }
{
    rt.write_all(&out[..count])
}

fn end(rt: &impl Print, run: Run, out: &mut [u8]) -> io::Result<()> {
    let wrote = run.finish(out);
    emit(rt, out, wrote)
}

// One read: a chunk of the file, or its end. The run to go on with, or `None` where nothing more is to be read.
fn take_turn<R: Read>(
    rt: &impl Print,
    source: &mut R,
    run: Run,
    input: &mut [u8],
    out: &mut [u8],
) -> io::Result<Option<Run>> {
    let count = source.read(input)?;
    if count == 0 {
        end(rt, run, out)?;
        return Ok(None);
    }
    digest(rt, run, &input[..count], out)
}

fn process<R: Read>(
    rt: &impl Print,
    source: &mut R,
    input: &mut [u8],
    out: &mut [u8],
) -> io::Result<()> {
    let mut run = Run::new();
    // A count, because every loop has to end; no input is so long.
    for _ in 0..u64::MAX {
        match take_turn(rt, source, run, input, out)? {
            Some(more) => run = more,
            None => break,
        }
    }
    Ok(())
}

// An `Err` says that the input could not be read or the output not written; the lines before stay printed.
pub fn run(rt: &(impl Input + Print)) -> io::Result<()> {
    let mut input = [0u8; 65536];
    let mut out = [0u8; 65536];
    process(rt, &mut rt.reader(), &mut input, &mut out)
}
