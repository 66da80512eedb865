// The run.
ghost use Rattle.std.specs.Prelude.{◌≡◌, ◌<◌, ◌≤◌, true, length, take, Ok, Err, List, [], IfOk, MatchResult};
ghost use Rattle.checker.specs.Holding.{CameBy, loading};
ghost use Rattle.checker.specs.Running.{AfterLoads};
ghost use Rattle.format.specs.Listing.{listing};
ghost use Rattle.guarantee.specs.Guarantee.{words_of};
ghost use Rattle.model.specs.Witnesses.{Contents, valid};
ghost use Rattle.systems.specs.Runs.{Load};
ghost use Rattle.systems.specs.Standings.{new as nothing_loaded};
ghost use Rattle.tables.specs.declared.types.Limit.{Limit};
ghost use Rattle.tables.specs.Written.{Tables};
ghost use Rattle.text.specs.Pieces.{Bytes};
ghost use Rattle.witness.specs.Holding.{contents_of};
ghost use Rattle.answers.specs.Answers.{Accepted, Answer, Answers, Refused as IsRefused};
ghost use Rattle.answers.specs.Limits.{leasts, mosts};
ghost use Rattle.answers.specs.Printing.{over, printed, told};
ghost use Rattle.answers.specs.Theorems.{ReadAs, Satisfies};
ghost use Rattle.runner.specs.Holding.{Holds};
ghost use Rattle.runner.specs.Passing.{SecondRead, Starts};

use crate::choices::choose_rows;
use crate::equations::load_rows;
use crate::limits::{Limits, limit_rows};
use crate::memory::{LETTERS, Runner};
use crate::printing::print_error;
use answers::{Refused, RunError};
use checker::{Check, System};
use length::kind::Length;
use length::value::Capped;
use listing::{PrintRefusal, print};
use std::alloc::{AllocError, Global};
use tables::Reader;
use witness::Witness;

// No longer input is read.
const LONGEST_INPUT: usize = 32_768;

// In a shorter buffer a listing may have no room.
const SHORTEST_BUFFER: usize = 20_000;

// Loads the equations of the first table and reads the limits of the second.
fn load_and_limit(system: &mut System, reader: &mut Reader<'_>) -> Result<Limits, RunError>
    ensures { (all : List Bytes) → Starts all reader.old → loading system.old ≡ nothing_loaded →
        MatchResult result
        (λ limits. (equations : List Load) × (rows : List Limit) × SecondRead all equations rows reader.new × Holds limits rows × AfterLoads equations (loading system.new))
        (IsRefused all) }
{
    load_rows(system, reader)?;
    limit_rows(reader)
}

// Puts the choices of the third table and closes.
fn choose_and_close(
    check: &mut Check,
    reader: &mut Reader<'_>,
    kind: Length,
    table: &mut [Capped],
    witness: &mut Witness,
) -> Result<(), RunError>
    ensures { (all : List Bytes) (equations : List Load) (rows : List Limit) → SecondRead all equations rows reader.old → CameBy equations [] check.old →
        kind.least ≡ leasts rows → kind.most ≡ mosts rows → length table.old ≡ 538 →
        MatchResult result (λ _. Accepted all (contents_of witness.new)) (IsRefused all) }
{
    choose_rows(check, reader)?;
    check.close(&kind, table, witness).map_err(RunError::Close)
}

// Reads the tables, puts their calls, and gives the system back as new.
fn carry(
    mut system: System,
    witness: &mut Witness,
    table: &mut [Capped],
    input: &[u8],
) -> (System, Result<(), RunError>)
    requires new { loading system ≡ nothing_loaded }
    requires room { length table.old ≡ 538 }
    ensures { MatchResult result.1 (λ _. Answers input.now (Ok (contents_of witness.new))) (λ why. Answers input.now (Err why)) }
{
    if input.len() > LONGEST_INPUT {
        return (system, Err(RunError::TooLong));
    }
    let mut reader = Reader::new(input);
    match load_and_limit(&mut system, &mut reader) {
        Err(why) => (system, Err(why)),
        Ok(limits) => {
            let mut check = system.open();
            let answer = choose_and_close(&mut check, &mut reader, limits.kind(), table, witness);
            (check.cleared(), answer)
        }
    }
}

impl Runner {
    /// All memory that runs need: nothing after this can lack memory.
    pub fn new(heap: Global) -> Result<Runner, AllocError> {
        let system = System::new(heap)?;
        let witness = Witness::new(heap)?;
        let table = vec![in heap; Capped { count: 0 }; LETTERS]?;
        Ok(Runner {
            system: Some(system),
            witness,
            table,
        })
    }

    // The answer to the text of three tables: where it is a listing, the witness holds its contents.
    fn answer(&mut self, input: &[u8]) -> Result<(), RunError>
        ensures { MatchResult result (λ _. Answers input.now (Ok (contents_of self.new.witness))) (λ why. Answers input.now (Err why)) }
    {
        let system = self.system.take().unwrap().cleared();
        let (system, answer) = carry(system, &mut self.witness, self.table.as_mut_slice(), input);
        self.system = Some(system);
        answer
    }

    /// Runs the three tables of an input, and puts the listing of their witness, or the text of a refusal, at the front of a buffer; what stands behind
    /// the text stays. Answers how long the listing is, or why there is none and how long the text of the refusal is. A buffer of under 20,000 bytes is
    /// refused (71) before all else, and left as it is.
    pub fn run(&mut self, input: &[u8], out: &mut [u8]) -> Result<usize, Refused>
        // a short buffer is refused and left
        ensures short { length out.old < 20000 → (result ≡ Err (record { why = RunError.Buffer PrintRefusal.BufferTooShort; length = 0 })) × (out.new ≡ out.old) }
        // else there is an answer to the input, and it is told and printed
        ensures answers { 20000 ≤ length out.old → (answer : Answer) × Answers input.now answer × (result ≡ told answer) × (out.new ≡ over (printed answer) out.old) }
        // whatever answers the input is what is told and printed
        ensures only { (answer : Answer) → 20000 ≤ length out.old → Answers input.now answer → (result ≡ told answer) × (out.new ≡ over (printed answer) out.old) }
        // reading back a listing that is printed gives words that satisfy the tables
        ensures sound { IfOk result (λ n. (t : Tables) (d : Contents) → ReadAs input.now t → valid d ≡ true → take n out.new ≡ listing d → Satisfies t (words_of d)) }
    {
        if out.len() < SHORTEST_BUFFER {
            return Err(Refused {
                why: RunError::Buffer(PrintRefusal::BufferTooShort),
                length: 0,
            });
        }
        match self.answer(input) {
            Ok(()) => Ok(print(&self.witness, out).unwrap()),
            Err(why) => Err(Refused {
                why,
                length: print_error(why, out),
            }),
        }
    }
}
