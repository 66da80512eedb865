// The words that a caller gives, or why no list is written for them.
ghost use Rattle.std.specs.Prelude.{◌≡◌, ◌≤◌, Some, None, MatchResult};
ghost use Rattle.std.specs.Result.{result_err};
ghost use Rattle.systems.specs.Sides.{places};
ghost use Rattle.sides.specs.Holding.{only};
ghost use Rattle.writing.specs.Refusals.{given as words_given, write_refusal};
ghost use Rattle.writing.specs.Writer.{beside};
ghost use Rattle.leftover.specs.Left.{Leaves};
ghost use Rattle.checker.specs.Holding.{loading};
ghost use Rattle.given.specs.Reading.{Begun, FirstNotGiven, Judged, Low, WordsGiven};

use crate::filling::fill_all;
use crate::words::GivenWords;
use checker::System;
use leftover::{Leftover, MOST_LETTERS};
use sides::Sides;
use writing::WriteRefusal;

// Whether the word of each variable of the system is given. (Apart from reading them, which looks through their bytes again: a word that is too long is
// refused only where all are given.)
fn judge_words(system: &[bool; 26], given: &GivenWords) -> Result<(), WriteRefusal>
    ensures { MatchResult result
        (λ _. WordsGiven system.now given.now.buffer.now given.now.spans)
        (FirstNotGiven system.now given.now.buffer.now given.now.spans) }
{
    for x in 0..26 {
        if system[usize::from(x)] && given.word(x).is_none() {
            return Err(WriteRefusal::NoWord(x));
        }
    }
    Ok(())
}

// Whether the filled-in sides have few letters, and are the same in each equation.
fn judge_filled(filled: &Sides) -> Result<(), WriteRefusal>
    ensures { Judged filled.now (result_err result) }
{
    if filled.len() > MOST_LETTERS {
        return Err(WriteRefusal::TooManyLetters);
    }
    if filled.first_unequal().is_some() {
        return Err(WriteRefusal::NoSolution);
    }
    Ok(())
}

// The words of the variables that stand in the sides, and the sides with them filled in; or why no list is written.
fn start(left: &mut Leftover, sides: &Sides, given: &GivenWords) -> Result<(), WriteRefusal>
    requires few { places sides.now ≤ 1024 }
    requires low { Low sides.now }
    ensures { let due = write_refusal (only sides.now) given.now.buffer.now given.now.spans 1050 in MatchResult result
        (λ _. (due ≡ None) × Begun sides.now given.now.buffer.now given.now.spans left.new)
        (λ e. due ≡ Some e) }
{
    let system = sides.variables();
    judge_words(&system, given)?;
    fill_all(left, sides, &system, given)?;
    judge_filled(left.filled())
}

/// Reads what is left before the first choice: the words of the system's variables, and its sides with them filled in; or says why no list is written,
/// where there is room for one. Whatever was left is forgotten. (What is left after a refusal is not told.)
pub fn read(left: &mut Leftover, system: &System, given: &GivenWords) -> Result<(), WriteRefusal>
    ensures { let due = write_refusal (loading system.now) given.now.buffer.now given.now.spans 1050 in MatchResult result
        (λ _. (due ≡ None) × Leaves left.new (beside (loading system.now) (words_given (loading system.now) given.now.buffer.now given.now.spans)))
        (λ e. due ≡ Some e) }
{
    start(left, system.sides(), given)
}
