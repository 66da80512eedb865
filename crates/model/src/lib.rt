// What every crate shares: the rules of made letters, what a letter spells, and what a witness holds.

#![tactic(auto)]

ghost use Rattle.std.specs.Prelude.{◌≡◌};
ghost use Rattle.model.specs.Laws.{LaterRulesKeepSpelling, LengthsFollowRules, SpellingEndsInAToZ};
ghost use Rattle.model.specs.Refusals.{rule_number};

pub mod name;

use thiserror::Error;

// What a made letter stands for. Letters 0 to 25 are a to z; the letters made by rules follow, from 26 on.
#[derive(Clone, Copy, PartialEq, Eq, Debug)]
pub enum Rule {
    // two letters in a row
    Pair(u16, u16),
    // one letter so many times
    Block(u16, u32),
}

/// Why a rule may not be added to others, each reason by its number.
#[derive(Clone, Copy, PartialEq, Eq, Debug, Error)]
pub enum RuleRefusal {
    /// a letter that is neither of a to z nor made before
    #[error("a letter of the rule is neither one of a to z nor made by a rule before")]
    UnknownLetter = 12,
    /// a pair of one letter and itself
    #[error("the two letters of a pair are the same")]
    EqualLetters = 13,
    /// a block of fewer than 2 or more than 1,000,000
    #[error("the count of a block is not from 2 to 1,000,000")]
    CountOutOfRange = 14,
    /// 512 rules are there
    #[error("512 rules are made, and there is room for no more")]
    TooManyRules = 22,
    /// the new letter would spell more than 1,000,000,000,000 letters
    #[error("the new letter would spell more than 1,000,000,000,000 letters")]
    TooLong = 24,
}

impl RuleRefusal {
    /// The refusal's number.
    pub fn number(self) -> u8
        ensures { result ≡ rule_number self }
    {
        self as u8
    }
}

// A rule that is added later changes nothing that was spelled before.
pub fn later_rules_keep_spelling()
    ensures { LaterRulesKeepSpelling }
{}

// A letter's length is 1 for a to z, the sum for a pair and the product for a block.
pub fn lengths_follow_rules()
    ensures { LengthsFollowRules }
{}

// What a known letter spells has only letters a to z.
pub fn spelling_ends_in_a_to_z()
    ensures { SpellingEndsInAToZ }
{}
