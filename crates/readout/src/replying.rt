ghost use Rattle.std.specs.Prelude.{◌≡◌, ◌<◌, ◌≤◌, true, false, [], ◌∷◌, ◌++◌, length, IfOk, MatchResult, Ok, Err, codes};
ghost use Rattle.model.specs.Buffers.{Put};
ghost use Rattle.model.specs.Witnesses.{spelled};
ghost use Rattle.listing.specs.Refusals.{read_number};
ghost use Rattle.witness.specs.Holding.{contents_of};
ghost use Rattle.readout.specs.Replies.{Answers, Says, end_of, has_room, named, refused_line, reply_number, said, stretch_said};
ghost use Rattle.text.specs.Refusals.{refusal_text};
ghost use Rattle.text.specs.Pieces.{Bytes};
ghost use Rattle.witness.specs.Refusals.{witness_number};

use crate::adding::table_of;
use crate::building::{MOST_BYTES, Text, add, add_number, put};
use crate::request::{Request, Stretch};
use listing::{ReadRefusal, Reader};
use std::alloc::{AllocError, Global};
use thiserror::Error;
use witness::{Witness, WitnessRefusal};

/// What is replied, at the front of the caller's buffer.
#[derive(Clone, Copy, PartialEq, Eq, Debug)]
pub enum Reply {
    /// the text that was asked for, in so many bytes
    Granted(usize),
    /// the text of a refusal
    Refused(usize),
}

/// Why nothing is replied.
#[derive(Clone, Copy, PartialEq, Eq, Debug, Error)]
pub enum ReplyRefusal {
    /// 91: the buffer has fewer than 4,000 bytes, or is not longer than the stretch
    #[error("the buffer has no room for the reply")]
    BufferTooShort,
}

impl ReplyRefusal {
    /// The refusal's number.
    pub fn number(self) -> u8
        ensures { result ≡ reply_number self }
    {
        match self {
            ReplyRefusal::BufferTooShort => 91,
        }
    }
}

// The name of a variable, as a refusal gives it.
fn name_of(variable: u8) -> u8
    ensures { result ∷ [] ≡ named variable }
{
    if variable < 26 { b'A' + variable } else { b'-' }
}

// The text of a refusal by its number, with a line and a detail.
fn text_of_refusal(number: u8, line: usize, detail: u8) -> Text
    ensures { result.items ≡ refusal_text number line (detail ∷ []) }
{
    let mut text = Text::new();
    add(&mut text, b"refusal line detail\n");
    add_number(&mut text, u64::from(number));
    add(&mut text, b" ");
    add_number(&mut text, line as u64);
    add(&mut text, &[b' ', detail, b'\n']);
    text
}

// The text of a refused line.
fn text_of_line(refusal: ReadRefusal) -> Text
    ensures { result.items ≡ refusal_text (read_number refusal) (refused_line refusal) (codes "-") }
{
    let ReadRefusal::NotListing { line } = refusal;
    text_of_refusal(refusal.number(), line, b'-')
}

// Puts the letters of a stretch at the front of a buffer.
fn put_letters(witness: &Witness, stretch: Stretch, out: &mut [u8]) -> Result<(), WitnessRefusal>
    requires { stretch.count < length out.old }
    ensures answer { let word = spelled (contents_of witness.now) stretch.variable in MatchResult result
        (λ _. (letters : Bytes) × (stretch_said word stretch ≡ Ok (letters ++ codes "\n")) × Put out.old 0 letters out.new stretch.count)
        (λ e. (stretch_said word stretch ≡ Err (refusal_text (witness_number e) 0 (named stretch.variable))) × (out.new ≡ out.old)) }
    ensures long { length out.new ≡ length out.old }
{
    witness.fill(stretch.variable, stretch.start, &mut out[..stretch.count])
}

// Puts a newline at a place of a buffer, and answers the place behind it.
fn end_line(out: &mut [u8], at: usize) -> usize
    requires { at < length out.old }
    ensures put { Put out.old at (codes "\n") out.new result }
    ensures long { length out.new ≡ length out.old }
    ensures within { result ≤ length out.new }
{
    out[at] = b'\n';
    at + 1
}

// A stretch of a variable's word with a newline, or why it is not to be had.
fn stretch_reply(witness: &Witness, stretch: Stretch, out: &mut [u8]) -> Reply
    requires room { 4000 ≤ length out.old }
    requires stretch { stretch.count < length out.old }
    ensures reply { Says result (stretch_said (spelled (contents_of witness.now) stretch.variable) stretch) out.old out.new }
    ensures long { length out.new ≡ length out.old }
    ensures within { end_of result ≤ length out.new }
{
    match put_letters(witness, stretch, out) {
        Ok(()) => Reply::Granted(end_line(out, stretch.count)),
        Err(refusal) => {
            let text = text_of_refusal(refusal.number(), 0, name_of(stretch.variable));
            Reply::Refused(put(&text, out))
        }
    }
}

// Whether a buffer of so many bytes has room for the reply.
fn fits(request: Request, room: usize) -> bool
    ensures { result ≡ has_room request room }
{
    room >= MOST_BYTES
        && match request {
            Request::Table => true,
            Request::Stretch(stretch) => stretch.count < room,
        }
}

// What a witness says to a request.
fn witness_reply(witness: &Witness, request: Request, out: &mut [u8]) -> Reply
    requires { has_room request (length out.old) ≡ true }
    ensures reply { Says result (said request (contents_of witness.now)) out.old out.new }
    ensures long { length out.new ≡ length out.old }
    ensures within { end_of result ≤ length out.new }
{
    match request {
        Request::Table => Reply::Granted(put(&table_of(witness), out)),
        Request::Stretch(stretch) => stretch_reply(witness, stretch, out),
    }
}

/// What is said to requests of listings, one after another, in memory that is reserved once: `new` alone can lack memory.
#[derive(Drop)]
pub struct Readout {
    reader: Reader,
    witness: Witness,
}

impl Readout {
    /// Room for a witness and for reading it.
    // What was read before counts for nothing, so nothing is told of it.
    pub fn new(heap: Global) -> Result<Readout, AllocError> {
        Ok(Readout {
            reader: Reader::new(heap)?,
            witness: Witness::new(heap)?,
        })
    }

    /// Puts at the front of `out` what a listing says to a request, or the first line that no listing has there, and leaves what stands behind it;
    /// refused (91) where `out` has no room for it, and then `out` is as it was.
    pub fn reply(
        &mut self,
        request: Request,
        input: &[u8],
        out: &mut [u8],
    ) -> Result<Reply, ReplyRefusal>
        ensures answer { MatchResult result
            (λ reply. (has_room request (length out.old) ≡ true) × Answers reply request input.now out.old out.new)
            (λ e. (has_room request (length out.old) ≡ false) × (reply_number e ≡ 91) × (out.new ≡ out.old)) }
        ensures long { length out.new ≡ length out.old }
        ensures within { IfOk result (λ reply. end_of reply ≤ length out.new) }
    {
        if !fits(request, out.len()) {
            return Err(ReplyRefusal::BufferTooShort);
        }
        let reply = match self.reader.read(&mut self.witness, input) {
            Ok(()) => witness_reply(&self.witness, request, out),
            Err(refusal) => Reply::Refused(put(&text_of_line(refusal), out)),
        };
        Ok(reply)
    }
}
