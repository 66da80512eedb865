ghost use Rattle.std.specs.Prelude.{MatchOption};
ghost use Rattle.format.specs.Steps.{Giving, Stuck};
ghost use Rattle.witness.specs.Holding.{contents_of};
ghost use Rattle.listing.specs.Lines.{Fields, Kept, NoFields};

use crate::words::read_word;
use text::{number, take_field, variable};
use witness::Witness;

// The fields of a variable's line.
#[derive(Clone, Copy)]
pub(crate) struct Parts<'a> {
    variable: u8,
    total: u64,
    word: &'a [u8],
}

// The three fields of a line, the first of which names a variable and the second a number.
fn parts_of(line: &[u8]) -> Option<Parts<'_>>
    ensures { MatchOption result
        (NoFields line.now)
        (λ p. Fields line.now p.variable p.total p.word.now) }
{
    let (name, fields) = take_field(line, b' ')?;
    let (digits, word) = take_field(fields, b' ')?;
    let variable = variable(name)?;
    let total = number(digits)?;
    Some(Parts {
        variable,
        total,
        word,
    })
}

// Adds the variable and the word whose line this is, if they may come next.
// (An Option of nothing, since no reason is told on: only the line counts.)
pub(crate) fn read_entry(witness: &mut Witness, line: &[u8]) -> Option<()>
    ensures { MatchOption result
        (Stuck (Giving (contents_of witness.old).rules (contents_of witness.old).entries) line.now)
        (λ _. Kept (contents_of witness.old) line.now (contents_of witness.new)) }
{
    let parts = parts_of(line)?;
    witness.start_word(parts.variable).ok()?;
    read_word(witness, parts.word)?;
    let total = witness.length(parts.variable).ok()?;
    (total == parts.total).then_some(())
}
