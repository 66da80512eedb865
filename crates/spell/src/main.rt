// Spells the words of a listing, which is read on standard input: all of them in a table, or a stretch of one.

#![tactic(auto)]

use readout::{Readout, Reply, ReplyRefusal, Request, stretch_request};
use std::alloc::{AllocError, Global};
use std::io::{Read, Write};
use std::process::ExitCode;
use std::{env, io};

const HELP: &str =
    "usage: spell < LISTING, or spell VARIABLE START COUNT < LISTING with a variable A to Z and a count of at most 1000000

Reads a listing on standard input. Prints a table of its words, or just those letters of a word, with status 0; or a refusal, with status 1.

  --help     prints this
  --version  prints the version";

const VERSION: &str = "spell 0.1.0";

// Every table, and every text of a refusal, has fewer bytes.
const TABLE_ROOM: usize = 4_000;

// What the arguments ask for, if they ask for something.
fn request(words: &[String]) -> Option<Request> {
    match words {
        [] => Some(Request::Table),
        [variable, start, count] => stretch_request(
            variable.as_bytes(),
            start.as_bytes(),
            count.as_bytes(),
        ),
        _ => None,
    }
}

// A buffer that has room for the reply and is not much longer: behind a stretch there is a newline.
fn buffer(heap: Global, request: Request) -> Result<Vec<u8>, AllocError> {
    let length = match request {
        Request::Table => TABLE_ROOM,
        Request::Stretch(stretch) => stretch.count.saturating_add(1).max(TABLE_ROOM),
    };
    vec![in heap; 0; length]
}

// The status to end with, and what is replied, in the buffer.
fn answer<'a>(
    readout: &mut Readout,
    request: Request,
    input: &[u8],
    out: &'a mut [u8],
) -> Result<(ExitCode, &'a [u8]), ReplyRefusal> {
    match readout.reply(request, input, out)? {
        Reply::Granted(end) => Ok((ExitCode::SUCCESS, &out[..end])),
        Reply::Refused(end) => Ok((ExitCode::FAILURE, &out[..end])),
    }
}

// Prints what is asked for of the listing on standard input, or why there is no such thing.
fn run(rt: &HostRuntime, request: Request) -> anyhow::Result<ExitCode> {
    let heap = rt.alloc();
    let mut input = Vec::new(heap);
    rt.stdin().read_to_end(&mut input)?;
    let mut out = buffer(heap, request)?;
    let mut readout = Readout::new(heap)?;
    let (status, text) = answer(&mut readout, request, input.as_slice(), out.as_mut_slice())?;
    rt.stdout().write_all(text)?;
    Ok(status)
}

// Names the arguments that ask for nothing.
fn name_unknown(rt: &HostRuntime, words: &[String]) -> io::Result<()> {
    for word in words {
        eprintln!(rt; "spell: unknown argument `{word}`")?;
    }
    rt.eprintln("spell: `spell --help` says how it is called")
}

// Does what the arguments ask for.
fn main(rt: HostRuntime) -> anyhow::Result<ExitCode> {
    let words: Vec<String> = env::args(&rt)?.skip(1).collect(rt.alloc())?;
    if let Some(request) = request(words.as_slice()) {
        return run(&rt, request);
    }
    match words.as_slice() {
        [word] if word.as_str() == "--help" => rt.println(HELP)?,
        [word] if word.as_str() == "--version" => rt.println(VERSION)?,
        words => {
            name_unknown(&rt, words)?;
            return Ok(ExitCode::FAILURE);
        }
    }
    Ok(ExitCode::SUCCESS)
}
