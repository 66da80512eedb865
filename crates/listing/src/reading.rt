ghost use Rattle.std.specs.Prelude.{◌≡◌, true, IfErr, MatchOption, MatchResult};
ghost use Rattle.model.specs.Witnesses.{valid};
ghost use Rattle.format.specs.Listing.{listing};
ghost use Rattle.format.specs.Reading.{Refused};
ghost use Rattle.format.specs.Steps.{Stuck};
ghost use Rattle.witness.specs.Holding.{contents_of, nothing};
ghost use Rattle.listing.specs.Refusals.{Refuses, read_number};
ghost use Rattle.listing.specs.Stages.{Even, Led, state_of};

use crate::entries::read_entry;
use crate::refusals::ReadRefusal;
use crate::rules::read_rule;
use std::alloc::{AllocError, Global};
use std::mem;
use text::take_field;
use witness::Witness;

// Which line may come next.
#[derive(Clone, Copy)]
pub(crate) enum Stage {
    // the head of the first table
    Opening,
    // a rule, or the empty line
    Rules,
    // the head of the second table
    Gap,
    // a variable, or the end
    Variables,
}

// The stage after a line, if the line may come.
fn read_line(witness: &mut Witness, stage: Stage, line: &[u8]) -> Option<Stage>
    requires { Even stage (contents_of witness.old) }
    ensures { MatchOption result
        (Stuck (state_of stage (contents_of witness.old)) line.now)
        (λ next. Led stage (contents_of witness.old) line.now next (contents_of witness.new)) }
{
    match stage {
        Stage::Opening => {
            (line == b"letter make first second".as_slice()).then_some(Stage::Rules)
        }
        Stage::Rules if line.is_empty() => Some(Stage::Gap),
        Stage::Rules => read_rule(witness, line).map(|()| Stage::Rules),
        Stage::Gap => (line == b"variable length word".as_slice()).then_some(Stage::Variables),
        Stage::Variables => read_entry(witness, line).map(|()| Stage::Variables),
    }
}

// Reads a listing into an empty witness, or answers the line that is refused.
fn read_lines(witness: &mut Witness, text: &[u8]) -> Result<(), usize>
    requires { contents_of witness.old ≡ nothing }
    ensures { MatchResult result
        (λ _. text.now ≡ listing (contents_of witness.new))
        (λ line. Refused text.now line) }
{
    let mut stage = Stage::Opening;
    let mut rest = text;
    let mut line = 1;
    // `take_field` and no `for`: the last piece of a `split`, behind the last newline, is no line, and `split_inclusive` says nothing of its pieces.
    while !rest.is_empty() {
        let Some((bytes, after)) = take_field(rest, b'\n') else {
            return Err(line);
        };
        stage = read_line(witness, stage, bytes).ok_or(line)?;
        rest = after;
        line += 1;
    }
    match stage {
        Stage::Variables => Ok(()),
        _ => Err(line),
    }
}

/// A reader of listings, one after another, in memory that is reserved once: `new` alone can lack memory.
#[derive(Drop)]
pub struct Reader {
    // a text is read into it, so that the caller's witness stays as it is where the text is refused
    spare: Witness,
}

impl Reader {
    /// Room for a witness beside the caller's.
    // What was read before counts for nothing, so nothing is told of it.
    pub fn new(heap: Global) -> Result<Reader, AllocError> {
        Ok(Reader {
            spare: Witness::new(heap)?,
        })
    }

    /// Reads a listing into the witness, in place of what it held; refused (72) at the first line that no listing has there, and then the witness is as
    /// it was.
    pub fn read(&mut self, witness: &mut Witness, text: &[u8]) -> Result<(), ReadRefusal>
        ensures answer { MatchResult result
            (λ _. (text.now ≡ listing (contents_of witness.new)) × (valid (contents_of witness.new) ≡ true))
            (λ e. Refuses text.now e × (witness.new ≡ witness.old)) }
        ensures number { IfErr result (λ e. read_number e ≡ 72) }
    {
        self.spare.clear();
        read_lines(&mut self.spare, text).map_err(|line| ReadRefusal::NotListing { line })?;
        mem::swap(witness, &mut self.spare);
        Ok(())
    }
}
