// Systems of word equations, the five choices that act on them, and what is true of every run of loads and choices.

#![tactic(auto)]

ghost use Rattle.std.specs.Prelude.{◌≡◌};
ghost use Rattle.systems.specs.Examples.{WorkedExamples};
ghost use Rattle.systems.specs.Refusals.{choice_detail, choice_number, load_number, of_rule};
ghost use Rattle.systems.specs.Theorems.{CallsDecideWhatStands, Complete, CrossingIsAnOccurrence, ReplacingIsExact, RunsAreWellFormed, Sound, SoundAtEnd, ValuesFollowSpelling};

use model::RuleRefusal;
use model::name::VariableName;
use thiserror::Error;

// A place of a side: a letter, where 0 to 25 are a to z and the letters made later follow; or a variable, from A as 0.
#[derive(Clone, Copy, PartialEq, Eq, Debug)]
pub enum Place {
    Letter(u16),
    Variable(u8),
}

// What a caller may choose to do to all sides at once.
#[derive(Clone, Copy, PartialEq, Eq, Debug)]
pub enum Choice {
    // the variable's word begins with this letter, which now stands before it
    Left(u8, u16),
    // the variable's word ends with this letter, which now stands behind it
    Right(u8, u16),
    // the variable's word is empty
    Erase(u8),
    // two different letters in neighbouring places become a new letter
    Pair(u16, u16),
    // a letter exactly so many times in a row becomes a new letter
    Block(u16, u32),
}

// A letter that was taken from a variable's word, at its left or at its right.
#[derive(Clone, Copy, PartialEq, Eq, Debug)]
pub enum Pop {
    AtLeft(u8, u16),
    AtRight(u8, u16),
}

/// Why an equation is not loaded, each reason by its number.
#[derive(Clone, Copy, PartialEq, Eq, Debug, Error)]
pub enum LoadRefusal {
    /// a byte that is none of a to z and A to Z
    #[error("a side has a byte that is none of a to z and A to Z")]
    NoLetter = 1,
    /// 32 equations are there
    #[error("32 equations are loaded, and there is room for no more")]
    TooManyEquations = 2,
    /// all sides together would have more than 1,024 places
    #[error("all sides together would have more than 1,024 places")]
    TooManyPlaces = 3,
}

impl LoadRefusal {
    /// The refusal's number.
    pub fn number(self) -> u8
        ensures { result ≡ load_number self }
    {
        self as u8
    }
}

/// What a refusal names.
#[derive(Clone, Copy, PartialEq, Eq, Debug)]
pub enum Detail {
    /// a variable, from A as 0
    Variable(u8),
    /// an equation by its number, from 1
    Equation(u8),
}

/// Why a choice is not taken.
#[derive(Clone, Copy, PartialEq, Eq, Debug, Error)]
pub enum ChoiceRefusal {
    /// this variable stands in no equation
    #[error("variable {} stands in no equation", VariableName(*.0))]
    NotLive(u8),
    /// a letter that is neither of a to z nor made before
    #[error("a letter of the choice is neither one of a to z nor made by a choice before")]
    UnknownLetter,
    /// a pair of one letter and itself
    #[error("the two letters of a pair are the same")]
    EqualLetters,
    /// a block of fewer than 2 or more than 1,000,000
    #[error("the count of a block is not from 2 to 1,000,000")]
    CountOutOfRange,
    /// 512 rules are made
    #[error("512 rules are made, and there is room for no more")]
    TooManyRules,
    /// 1,024 letters are popped
    #[error("1,024 letters are popped, and there is room for no more")]
    TooManyPops,
    /// all sides together would have more than 2,048 places
    #[error("all sides together would have more than 2,048 places")]
    TooManyPlaces,
    /// the new letter would spell more than 1,000,000,000,000 letters
    #[error("the new letter would spell more than 1,000,000,000,000 letters")]
    TooLong,
}

impl ChoiceRefusal {
    /// The refusal's number.
    // A match, since an enum with a field in a case has no numbers to cast.
    pub fn number(self) -> u8
        ensures { result ≡ choice_number self }
    {
        match self {
            ChoiceRefusal::NotLive(_) => 11,
            ChoiceRefusal::UnknownLetter => 12,
            ChoiceRefusal::EqualLetters => 13,
            ChoiceRefusal::CountOutOfRange => 14,
            ChoiceRefusal::TooManyPlaces => 21,
            ChoiceRefusal::TooManyRules => 22,
            ChoiceRefusal::TooManyPops => 23,
            ChoiceRefusal::TooLong => 24,
        }
    }

    /// The variable that the refusal names, if it names one.
    pub fn detail(self) -> Option<Detail>
        ensures { result ≡ choice_detail self }
    {
        match self {
            ChoiceRefusal::NotLive(x) => Some(Detail::Variable(x)),
            ChoiceRefusal::UnknownLetter
            | ChoiceRefusal::EqualLetters
            | ChoiceRefusal::CountOutOfRange
            | ChoiceRefusal::TooManyPlaces
            | ChoiceRefusal::TooManyRules
            | ChoiceRefusal::TooManyPops
            | ChoiceRefusal::TooLong => None,
        }
    }
}

// A choice that makes a rule is refused as the rule is.
impl From<RuleRefusal> for ChoiceRefusal {
    ghost from_gives = { λ why refusal. refusal ≡ of_rule why };

    fn from(why: RuleRefusal) -> ChoiceRefusal {
        match why {
            RuleRefusal::UnknownLetter => ChoiceRefusal::UnknownLetter,
            RuleRefusal::EqualLetters => ChoiceRefusal::EqualLetters,
            RuleRefusal::CountOutOfRange => ChoiceRefusal::CountOutOfRange,
            RuleRefusal::TooManyRules => ChoiceRefusal::TooManyRules,
            RuleRefusal::TooLong => ChoiceRefusal::TooLong,
        }
    }
}

// What crosses is an occurrence whose two letters come neither from one place nor from two letters in neighbouring places.
pub fn crossing_is_an_occurrence()
    ensures { CrossingIsAnOccurrence }
{}

// Whatever is loaded and chosen, the letters are known, the rules fit and the limits are kept.
pub fn runs_are_well_formed()
    ensures { RunsAreWellFormed }
{}

// Each side of what stands, filled in and spelled, is the loaded side filled with the whole words.
pub fn sound()
    ensures { Sound }
{}

// Where no variable is live and the sides are the same, the popped letters spell a solution.
pub fn sound_at_end()
    ensures { SoundAtEnd }
{}

// A run whose taken choices fit a solution keeps it.
pub fn complete()
    ensures { Complete }
{}

// What stands is worked out from the calls alone.
pub fn calls_decide_what_stands()
    ensures { CallsDecideWhatStands }
{}

// The value of a made letter under any measure follows from its rule.
pub fn values_follow_spelling<V>()
    ensures { ValuesFollowSpelling V }
{}

// The definitions at work on small systems.
pub fn worked_examples()
    ensures { WorkedExamples }
{}

// What replacing pairs and blocks makes of every side.
pub fn replacing_is_exact()
    ensures { ReplacingIsExact }
{}
