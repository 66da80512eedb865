ghost use Rattle.std.specs.Prelude.{◌^◌, decimal, MatchOption};
ghost use Rattle.std.specs.Fn.{FnOnceReturnsAt};
ghost use Rattle.text.specs.Reading.{Below, Reads};
ghost use Rattle.format.specs.Bounds.{Within};
ghost use Rattle.witness.specs.Holding.{contents_of};
ghost use Rattle.listing.specs.Lines.{Lettered, NoRule, Ruled, rule_text};

use model::Rule;
use text::{letter, number, take_field};
use witness::Witness;

// The count whose decimal the field is.
fn count_of(field: &[u8]) -> Option<u32>
    ensures { Reads (Below (2 ^ 32)) decimal field.now result }
{
    u32::try_from(number(field)?).ok()
}

// The letter that a line begins with, and what is read of the rest behind the space.
fn letter_and<T, F: FnOnce(&[u8]) -> Option<T>>(line: &[u8], read: F) -> Option<(u16, T)>
    requires { F.IsAlwaysCallable read }
    ensures { Lettered (FnOnceReturnsAt F.FnOnce read) line.now result }
{
    let (name, rest) = take_field(line, b' ')?;
    Some((letter(name)?, read(rest)?))
}

// The rule whose fields these are.
fn rule_of(fields: &[u8]) -> Option<Rule>
    ensures { Reads (Within 538 (2 ^ 32)) rule_text fields.now result }
{
    let (make, letters) = take_field(fields, b' ')?;
    // Two tests and no `match` on the bytes, whose last arm is eleven goals, some of which stay open.
    if make == b"pair".as_slice() {
        let (a, b) = letter_and(letters, letter)?;
        Some(Rule::Pair(a, b))
    } else if make == b"block".as_slice() {
        let (a, count) = letter_and(letters, count_of)?;
        Some(Rule::Block(a, count))
    } else {
        None
    }
}

// Adds the rule whose line this is, if it may come next.
pub(crate) fn read_rule(witness: &mut Witness, line: &[u8]) -> Option<()>
    ensures { MatchOption result
        (NoRule (contents_of witness.old) line.now)
        (λ _. Ruled (contents_of witness.old) line.now (contents_of witness.new)) }
{
    let (made, rule) = letter_and(line, rule_of)?;
    if usize::from(made) != 26 + witness.rules().len() {
        return None;
    }
    witness.add_rule(rule).ok()
}
