ghost use Rattle.std.specs.Prelude.{◌≡◌, ◌≤◌, [], ◌∷◌, reverse, length, IfOk, Some, None, MatchResult};
ghost use Rattle.std.specs.Option.{option_map};
ghost use Rattle.std.specs.Result.{result_err};
ghost use Rattle.model.specs.Refusals.{rule_number};
ghost use Rattle.model.specs.Spelling.{known as count_known, rule_of};
ghost use Rattle.model.specs.Witnesses.{made_length, rule_refusal};
ghost use Rattle.letters.specs.Holding.{length_of, room_for, rules_of};

use crate::store::{Letters, MOST_RULES};
use model::{Rule, RuleRefusal};
use reserved::Reserved;
use std::alloc::{AllocError, Global};

// A block repeats its letter at least and at most so many times.
const LEAST_COUNT: u32 = 2;

const MOST_COUNT: u32 = 1_000_000;

// No letter spells more letters.
const MOST_LENGTH: u64 = 1_000_000_000_000;

impl Letters {
    // No rule yet, and room for all that may come.
    pub fn new(heap: Global) -> Result<Letters, AllocError>
        ensures { IfOk result (λ l. rules_of l ≡ []) }
    {
        let rules = Reserved::new(heap)?;
        let lengths = Reserved::new(heap)?;
        Ok(Letters { rules, lengths })
    }

    // Forgets all rules.
    pub fn clear(&mut self)
        ensures { rules_of self.new ≡ [] }
    {
        self.rules.clear();
        self.lengths.clear();
    }

    // The rules, the oldest first.
    pub fn rules(&self) -> &[Rule]
        ensures { reverse result.now ≡ rules_of self.now }
    {
        self.rules.as_slice()
    }

    // How many letters there are, a to z among them; the next rule makes the letter of this number.
    pub fn known(&self) -> u16
        ensures value { result ≡ count_known (rules_of self.now) }
        ensures bound { result ≤ 538 }
    {
        26 + self.rules.len() as u16
    }

    // The rule that makes a letter.
    pub fn rule(&self, letter: u16) -> Option<Rule>
        ensures { result ≡ rule_of (rules_of self.now) letter }
    {
        let place = usize::from(letter).checked_sub(26)?;
        self.rules.get(place).copied()
    }

    // The length of what a known letter spells.
    pub fn length(&self, letter: u16) -> Option<u64>
        ensures { result ≡ length_of (rules_of self.now) letter }
    {
        match usize::from(letter).checked_sub(26) {
            None => Some(1),
            Some(place) => self.lengths.get(place).copied(),
        }
    }

    // The length of what the next letter spells, if there is room for it.
    fn room(&self, length: u64) -> Result<u64, RuleRefusal>
        ensures { result ≡ room_for (rules_of self.now) length }
    {
        if self.rules.len() >= MOST_RULES {
            Err(RuleRefusal::TooManyRules)
        } else if length > MOST_LENGTH {
            Err(RuleRefusal::TooLong)
        } else {
            Ok(length)
        }
    }

    // The length of what the next letter spells, if this rule may make it.
    fn judge(&self, rule: Rule) -> Result<u64, RuleRefusal>
        ensures { MatchResult result
            (λ n. (rule_refusal (rules_of self.now) rule ≡ None) × (n ≡ made_length (rules_of self.now) rule))
            (λ e. rule_refusal (rules_of self.now) rule ≡ Some e) }
    {
        match rule {
            Rule::Pair(a, b) => self.judge_pair(a, b),
            Rule::Block(a, count) => self.judge_block(a, count),
        }
    }

    // The same of a pair.
    fn judge_pair(&self, a: u16, b: u16) -> Result<u64, RuleRefusal>
        ensures { MatchResult result
            (λ n. (rule_refusal (rules_of self.now) (Rule.Pair a b) ≡ None) × (n ≡ made_length (rules_of self.now) (Rule.Pair a b)))
            (λ e. rule_refusal (rules_of self.now) (Rule.Pair a b) ≡ Some e) }
    {
        let first = self.length(a).ok_or(RuleRefusal::UnknownLetter)?;
        let second = self.length(b).ok_or(RuleRefusal::UnknownLetter)?;
        if a == b {
            return Err(RuleRefusal::EqualLetters);
        }
        self.room(first + second)
    }

    // The same of a block.
    fn judge_block(&self, a: u16, count: u32) -> Result<u64, RuleRefusal>
        ensures { MatchResult result
            (λ n. (rule_refusal (rules_of self.now) (Rule.Block a count) ≡ None) × (n ≡ made_length (rules_of self.now) (Rule.Block a count)))
            (λ e. rule_refusal (rules_of self.now) (Rule.Block a count) ≡ Some e) }
    {
        let one = self.length(a).ok_or(RuleRefusal::UnknownLetter)?;
        if count < LEAST_COUNT || count > MOST_COUNT {
            return Err(RuleRefusal::CountOutOfRange);
        }
        self.room(u64::from(count) * one)
    }

    // Makes the next letter by this rule, or says why not and changes nothing.
    pub fn add(&mut self, rule: Rule) -> Result<(), RuleRefusal>
        ensures outcome { MatchResult result
            (λ _. (rule_refusal (rules_of self.old) rule ≡ None) × (rules_of self.new ≡ rule ∷ rules_of self.old))
            (λ e. (rule_refusal (rules_of self.old) rule ≡ Some e) × (rules_of self.new ≡ rules_of self.old)) }
        ensures number { option_map rule_number (result_err result) ≡ option_map rule_number (rule_refusal (rules_of self.old) rule) }
    {
        let length = self.judge(rule)?;
        self.rules.push(rule).unwrap();
        self.lengths.push(length).unwrap();
        Ok(())
    }
}
