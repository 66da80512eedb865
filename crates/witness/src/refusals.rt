ghost use Rattle.std.specs.Prelude.{◌≡◌};
ghost use Rattle.witness.specs.declared.refusals.LetterRefusal.TheVariants.{TooManyLetters};

use reserved::Full;
use thiserror::Error;

/// Why a word may not be started.
#[derive(Clone, Copy, PartialEq, Eq, Debug, Error)]
pub enum WordRefusal {
    /// a number over 25
    #[error("the number of the variable is over 25")]
    NoSuchVariable,
    /// not above the variable of the word before
    #[error("the variable is not above the variable of the word before")]
    NotRising,
}

/// Why a letter may not be added to the newest word.
#[derive(Clone, Copy, PartialEq, Eq, Debug, Error)]
pub enum LetterRefusal {
    /// no word is started
    #[error("no word is started")]
    NoWord,
    /// neither of a to z nor made by a rule
    #[error("the letter is neither one of a to z nor made by a rule")]
    UnknownLetter,
    /// all words together have 1,024 letters
    #[error("all words together have 1,024 letters, and there is room for no more")]
    TooManyLetters,
}

// A full list refuses a letter as one too many.
impl From<Full> for LetterRefusal {
    ghost from_gives = { λ _ why. why ≡ TooManyLetters };

    fn from(_full: Full) -> LetterRefusal {
        LetterRefusal::TooManyLetters
    }
}

/// Why a witness does not answer, each reason by its number.
#[derive(Clone, Copy, PartialEq, Eq, Debug, Error)]
pub enum WitnessRefusal {
    /// the variable has no word
    #[error("the variable has no word in the witness")]
    Absent = 61,
    /// the place, or the stretch, lies past the word
    #[error("the place or the stretch lies past the end of the word")]
    PastWord = 62,
}
