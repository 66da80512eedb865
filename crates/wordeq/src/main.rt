// Reads the three tables of a system, its limits and its choices on standard input, and prints the listing of the witness, or why there is none.

#![tactic(auto)]

use anyhow::Result;
use runner::Runner;
use std::io::{Read, Write};
use std::process::ExitCode;
use std::{env, io};

const HELP: &str = "usage: wordeq < TABLES

Reads three tables on standard input: `left right` (equations), `variable least most` (limits on words), `do name with` (choices).
Prints the listing of the witness that they lead to, with status 0; or the lines `refusal line detail` and what they are, with status 1, and says why on
standard error.

  --help     prints this
  --version  prints the version";

const VERSION: &str = "wordeq 0.1.0";

// A byte more than a run reads, so that a longer input is told from one that is read.
const MOST_BYTES: u64 = 32_769;

// A buffer in which every listing has room.
const ROOM: usize = 20_000;

// Runs the tables on standard input.
fn run(rt: &HostRuntime) -> Result<ExitCode> {
    let heap = rt.alloc();
    let mut runner = Runner::new(heap)?;
    let mut out = vec![in heap; 0; ROOM]?;
    let mut input = Vec::new(heap);
    rt.stdin().take(MOST_BYTES).read_to_end(&mut input)?;
    let (status, length) = match runner.run(input.as_slice(), out.as_mut_slice()) {
        Ok(length) => (ExitCode::SUCCESS, length),
        Err(refused) => {
            eprintln!(rt; "wordeq: {}", refused.why)?;
            (ExitCode::FAILURE, refused.length)
        }
    };
    if let Some(text) = out.as_slice().get(..length) {
        rt.stdout().write_all(text)?;
    }
    Ok(status)
}

// Names the arguments that ask for nothing.
fn name_unknown(rt: &HostRuntime, words: &[String]) -> io::Result<()> {
    for word in words {
        eprintln!(rt; "wordeq: unknown argument `{word}`")?;
    }
    rt.eprintln("wordeq: `wordeq --help` says how it is called")
}

// Does what the arguments ask for.
fn main(rt: HostRuntime) -> Result<ExitCode> {
    let words: Vec<String> = env::args(&rt)?.skip(1).collect(rt.alloc())?;
    match words.as_slice() {
        [] => return run(&rt),
        [word] if word.as_str() == "--help" => rt.println(HELP)?,
        [word] if word.as_str() == "--version" => rt.println(VERSION)?,
        words => {
            name_unknown(&rt, words)?;
            return Ok(ExitCode::FAILURE);
        }
    }
    Ok(ExitCode::SUCCESS)
}
