// Runs the job library over each file that an argument names, and prints the file's name and then what the job writes. The files and the outputs are made by
// reference/job_cases.py. Each file is read in chunks of another size, from 1 to 512 bytes, so that records are cut at every place.
#![tactic(auto)]

use job::run::Run;
use std::io::Read;
use std::rt::Files;
use std::{fs, io};

// Feeds a chunk, as often as the output is full, and prints the lines.
fn feed_chunk(rt: &impl Print, start: Run, chunk: &[u8], out: &mut [u8]) -> io::Result<Run> {
    let mut run = start;
    let mut at: usize = 0;
    // No `for`: each call says how far the next one starts.
    while at < chunk.len() {
        let fed = run.feed(&chunk[at..], out);
        run = fed.run;
        rt.write_all(&out[..fed.wrote])?;
        if fed.used == 0 {
            break;
        }
        at += fed.used;
    }
    Ok(run)
}

// The run with the next chunk of the file, or `None` where the file ends.
fn one_chunk<F: Read>(
    rt: &impl Print,
    file: &mut F,
    run: Run,
    bytes: &mut [u8],
    out: &mut [u8],
) -> io::Result<Option<Run>> {
    let got = vectors::read_full(file, bytes)?;
    if got == 0 {
        return Ok(None);
    }
    Ok(Some(feed_chunk(rt, run, &bytes[..got], out)?))
}

// Reads the file in chunks of the length of `bytes`.
fn feed_file<F: Read>(
    rt: &impl Print,
    file: &mut F,
    bytes: &mut [u8],
    out: &mut [u8],
) -> io::Result<Run> {
    let mut run = Run::new();
    // A count, because every loop has to end; no file of the gate has so many chunks.
    for _ in 0..1000000u64 {
        match one_chunk(rt, file, run, bytes, out)? {
            Some(next) => run = next,
            None => break,
        }
    }
    Ok(run)
}

fn run_file<F: Read>(
    rt: &impl Print,
    file: &mut F,
    bytes: &mut [u8],
    out: &mut [u8],
) -> io::Result<()> {
    let run = feed_file(rt, file, bytes, out)?;
    let end = run.finish(out);
    rt.write_all(&out[..end])
}

// The file of the k-th argument; one that cannot be opened prints no more than its name.
fn one_file(rt: &(impl Files + Print), name: &str, k: usize) -> io::Result<()> {
    let Ok(mut file) = fs::open(rt, name) else {
        return Ok(());
    };
    let mut bytes = [0u8; 512];
    let mut out = [0u8; 4096];
    run_file(rt, &mut file, &mut bytes[..1 + k % 512], &mut out)
}

fn one_argument(rt: &(impl Files + Print), k: usize, name: &str) -> io::Result<()> {
    println!(rt; "job {name}")?;
    one_file(rt, name, k)
}

fn main(rt: HostRuntime) -> io::Result<()> {
    for (k, name) in std::env::args(&rt)?.enumerate().skip(1) {
        one_argument(&rt, k, name.as_str())?;
    }
    Ok(())
}
