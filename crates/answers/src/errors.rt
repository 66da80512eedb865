// Why a run prints no listing.
ghost use Rattle.std.specs.Prelude.{◌≡◌};
ghost use Rattle.tables.specs.declared.types.LineRefusal.TheVariants.{Names};
ghost use Rattle.answers.specs.declared.errors.RunError.TheVariants.{Line};
ghost use Rattle.answers.specs.Errors.{run_detail, run_line, run_number};

use guarantee::CloseRefusal;
use length::kind::LengthRefusal;
use listing::PrintRefusal;
use systems::{ChoiceRefusal, Detail, LoadRefusal};
use tables::{LineRefusal, NoNames};
use thiserror::Error;

/// Why a run prints no listing: what each layer refused, with the line, counted from 1, at which it did.
#[derive(Clone, Copy, PartialEq, Eq, Debug, Error)]
pub enum RunError {
    /// the caller's buffer is too short, and nothing is printed
    #[error("refusal 71: {0}")]
    Buffer(PrintRefusal),
    /// the input has over 32,768 bytes
    #[error("refusal 44: the input has more than 32,768 bytes")]
    TooLong,
    /// the line is not read
    #[error("refusal {} at line {}: {}", why.number(), line, why)]
    Line { line: usize, why: LineRefusal },
    /// the line's equation is not loaded
    #[error("refusal {} at line {}: {}", why.number(), line, why)]
    Load { line: usize, why: LoadRefusal },
    /// the line's limits are no limits
    #[error("refusal {} at line {}: {}", why.number(), line, why)]
    Limits { line: usize, why: LengthRefusal },
    /// the line's choice is not taken
    #[error("refusal {} at line {}: {}", why.number(), line, why)]
    Choice { line: usize, why: ChoiceRefusal },
    /// all lines are taken, and the close does not accept
    #[error("refusal {}, behind the last line: {}", .0.number(), .0)]
    Close(CloseRefusal),
}

/// A run that printed a refusal: why, and how many bytes the text has.
#[derive(Clone, Copy, PartialEq, Eq, Debug)]
pub struct Refused {
    pub why: RunError,
    pub length: usize,
}

impl RunError {
    /// The refusal's number.
    pub fn number(self) -> u8
        ensures { result ≡ run_number self }
    {
        match self {
            RunError::Buffer(why) => why.number(),
            RunError::TooLong => 44,
            RunError::Line { why, .. } => why.number(),
            RunError::Load { why, .. } => why.number(),
            RunError::Limits { why, .. } => why.number(),
            RunError::Choice { why, .. } => why.number(),
            RunError::Close(why) => why.number(),
        }
    }

    /// The line that is refused, from 1, or 0 where no line is.
    pub fn line(self) -> usize
        ensures { result ≡ run_line self }
    {
        match self {
            RunError::Buffer(_) | RunError::TooLong | RunError::Close(_) => 0,
            RunError::Line { line, .. }
            | RunError::Load { line, .. }
            | RunError::Limits { line, .. }
            | RunError::Choice { line, .. } => line,
        }
    }

    /// The variable or the equation that the refusal names, if it names one.
    pub fn detail(self) -> Option<Detail>
        ensures { result ≡ run_detail self }
    {
        match self {
            RunError::Choice { why, .. } => why.detail(),
            RunError::Close(why) => why.detail(),
            RunError::Buffer(_)
            | RunError::TooLong
            | RunError::Line { .. }
            | RunError::Load { .. }
            | RunError::Limits { .. } => None,
        }
    }
}

/// A names line that does not stand where it must is a line that is not read.
impl From<NoNames> for RunError {
    ghost from_gives = { λ lacks why. why ≡ Line lacks.line (Names lacks.table) };

    fn from(lacks: NoNames) -> RunError {
        RunError::Line {
            line: lacks.line,
            why: LineRefusal::Names(lacks.table),
        }
    }
}
