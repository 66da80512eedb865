// A line of the third table.
ghost use Rattle.std.specs.Prelude.{◌≡◌, codes, MatchOption, MatchResult, ◌≢◌};
ghost use Rattle.text.specs.Reading.{Reads};
ghost use Rattle.tables.specs.Reading.{IsRow, NoRow};
ghost use Rattle.tables.specs.Rows.{IsChoice, choice_fields};
ghost use Rattle.tables.specs.Verbs.{Any, Argued, Unargued, verb_text};

use crate::fields::in_three;
use crate::limits::{readable, small_number};
use crate::types::LineRefusal;
use systems::Choice;
use text::{Part, letter, variable};

// What a choice does.
#[derive(Clone, Copy, PartialEq, Eq, Debug)]
pub(crate) enum Verb {
    Left,
    Right,
    Erase,
    Pair,
    Block,
}

// The verb that a field is.
fn verb_of(field: Part<'_>) -> Option<Verb>
    ensures { Reads Any verb_text field.entry.bytes.now result }
{
    if field.bytes == b"left".as_slice() {
        Some(Verb::Left)
    } else if field.bytes == b"right".as_slice() {
        Some(Verb::Right)
    } else if field.bytes == b"erase".as_slice() {
        Some(Verb::Erase)
    } else if field.bytes == b"pair".as_slice() {
        Some(Verb::Pair)
    } else if field.bytes == b"block".as_slice() {
        Some(Verb::Block)
    } else {
        None
    }
}

// Whether a field that is not used is written so.
fn unused(field: Part<'_>) -> Option<()>
    ensures { MatchOption result (field.entry.bytes.now ≢ codes "-") (λ _. field.entry.bytes.now ≡ codes "-") }
{
    (field.bytes == b"-".as_slice()).then_some(())
}

// The choice that the two fields behind a verb make of it.
fn read_arguments(verb: Verb, second: Part<'_>, third: Part<'_>) -> Result<Choice, LineRefusal>
    ensures { MatchResult result
        (Argued verb second.entry.bytes.now third.entry.bytes.now)
        (Unargued verb second.entry third.entry) }
{
    match verb {
        Verb::Left => {
            let x = readable(variable(second.bytes), second)?;
            let a = readable(letter(third.bytes), third)?;
            Ok(Choice::Left(x, a))
        }
        Verb::Right => {
            let x = readable(variable(second.bytes), second)?;
            let a = readable(letter(third.bytes), third)?;
            Ok(Choice::Right(x, a))
        }
        Verb::Erase => {
            let x = readable(variable(second.bytes), second)?;
            readable(unused(third), third)?;
            Ok(Choice::Erase(x))
        }
        Verb::Pair => {
            let a = readable(letter(second.bytes), second)?;
            let b = readable(letter(third.bytes), third)?;
            Ok(Choice::Pair(a, b))
        }
        Verb::Block => {
            let a = readable(letter(second.bytes), second)?;
            let n = readable(small_number(third), third)?;
            Ok(Choice::Block(a, n))
        }
    }
}

/// The row of the third table that a line is, or why it is none: it has not three fields, or one of them cannot be read.
pub fn read_choice(line: &[u8]) -> Result<Choice, LineRefusal>
    ensures { MatchResult result
        (IsRow IsChoice choice_fields line.now)
        (NoRow 3 IsChoice choice_fields line.now) }
{
    let (first, second, third) = in_three(line)?;
    let verb = readable(verb_of(first), first)?;
    read_arguments(verb, second, third)
}
