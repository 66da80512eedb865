// The writer's list: for each solution one list of choices that fit, that the check takes, and that leave no variable.

#![tactic(auto)]

ghost use Rattle.std.specs.Prelude.{◌≡◌};
ghost use Rattle.writing.specs.Refusals.{write_number};
ghost use Rattle.writing.specs.Theorems.{Writable, WriterRefusesRightly};
ghost use Rattle.writing.specs.Worked.{WorkedLists};

use model::name::VariableName;
use systems::Choice;
use thiserror::Error;

/// Why no list is written.
#[derive(Clone, Copy, PartialEq, Eq, Debug, Error)]
pub enum WriteRefusal {
    /// the caller's list has room for fewer than 1,050 choices
    #[error("the list has room for fewer than 1,050 choices")]
    ShortList,
    /// the word of this variable of the system, the first from A, lies outside the buffer, or has a byte that is none of a to z
    #[error("the word of variable {} lies outside the buffer, or has a byte that is none of a to z", VariableName(*.0))]
    NoWord(u8),
    /// the filled-in sides hold more than 512 letters
    #[error("all sides together, filled with the words, would have more than 512 letters")]
    TooManyLetters,
    /// the words do not solve every equation
    #[error("the words do not solve every equation")]
    NoSolution,
}

impl WriteRefusal {
    /// The refusal's number.
    pub fn number(self) -> u8
        ensures { result ≡ write_number self }
    {
        match self {
            WriteRefusal::ShortList => 51,
            WriteRefusal::NoWord(_) => 52,
            WriteRefusal::TooManyLetters => 53,
            WriteRefusal::NoSolution => 54,
        }
    }
}

// One choice of a written list. (A record, so that more can be told of a choice later: make one by `from`, not by its fields.)
#[derive(Clone, Copy, PartialEq, Eq, Debug)]
#[non_exhaustive]
pub struct ChoiceRecord {
    pub choice: Choice,
}

impl From<Choice> for ChoiceRecord {
    ghost use Rattle.writing.specs.Records.{record_of};

    ghost from_gives = { λ choice r. r ≡ record_of choice };

    fn from(choice: Choice) -> ChoiceRecord {
        ChoiceRecord { choice }
    }
}

// Where a word begins in the buffer, and its length.
#[derive(Clone, Copy, PartialEq, Eq, Debug)]
pub struct Span {
    pub start: usize,
    pub length: usize,
}

// For each solution there is one list; it is short, each choice fits and is taken, and at its end no variable is live.
pub fn writable()
    ensures { Writable }
{}

// A solution that stands in the caller's buffer is not refused, and what is not refused is a solution.
pub fn writer_refuses_rightly()
    ensures { WriterRefusesRightly }
{}

// Lists for small systems, and what is refused.
pub fn worked_lists()
    ensures { WorkedLists }
{}
