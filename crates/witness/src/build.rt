ghost use Rattle.std.specs.Prelude.{◌≡◌, IfOk, Some, None, MatchResult};
ghost use Rattle.std.specs.Option.{option_map};
ghost use Rattle.std.specs.Result.{result_err};
ghost use Rattle.model.specs.Refusals.{rule_number};
ghost use Rattle.model.specs.Witnesses.{least, rule_refusal};
ghost use Rattle.witness.specs.Answers.{letter_refusal, with_letter, with_rule, with_word, word_refusal};
ghost use Rattle.witness.specs.Holding.{contents_of, nothing};

use crate::refusals::{LetterRefusal, WordRefusal};
use crate::seats::Seat;
use crate::store::{MOST_LETTERS, VARIABLES, Witness};
use letters::Letters;
use model::{Rule, RuleRefusal};
use reserved::Reserved;
use std::alloc::{AllocError, Global};

// Making a witness: rules and letters are added one by one, and what would break it is refused and changes nothing.
impl Witness {
    // No rule and no variable, and room for all that may come: nothing after this can lack memory.
    pub fn new(heap: Global) -> Result<Witness, AllocError>
        ensures { IfOk result (λ w. contents_of w ≡ nothing) }
    {
        let made = Letters::new(heap)?;
        let letters = Reserved::new(heap)?;
        let ends = Reserved::new(heap)?;
        let seats = Reserved::new(heap)?;
        Ok(Witness {
            made,
            letters,
            ends,
            seats,
        })
    }

    // Forgets all rules and words.
    pub fn clear(&mut self)
        ensures { contents_of self.new ≡ nothing }
    {
        self.seats.clear();
        self.letters.clear();
        self.ends.clear();
        self.made.clear();
    }

    // Adds a rule, which makes the next letter.
    pub fn add_rule(&mut self, rule: Rule) -> Result<(), RuleRefusal>
        ensures outcome { MatchResult result
            (λ _. (rule_refusal (contents_of self.old).rules rule ≡ None) × (contents_of self.new ≡ with_rule rule (contents_of self.old)))
            (λ e. (rule_refusal (contents_of self.old).rules rule ≡ Some e) × (contents_of self.new ≡ contents_of self.old)) }
        ensures number { option_map rule_number (result_err result) ≡ option_map rule_number (rule_refusal (contents_of self.old).rules rule) }
    {
        self.made.add(rule)
    }

    // The first variable that may still get a word.
    fn least(&self) -> u16
        ensures { result ≡ least (contents_of self.now).entries }
    {
        match self.seats.as_slice().last() {
            Some(seat) => u16::from(seat.variable) + 1,
            None => 0,
        }
    }

    // Gives a variable the empty word; variables come in order.
    pub fn start_word(&mut self, variable: u8) -> Result<(), WordRefusal>
        ensures { MatchResult result
            (λ _. (word_refusal (contents_of self.old) variable ≡ None) × (contents_of self.new ≡ with_word variable (contents_of self.old)))
            (λ e. (word_refusal (contents_of self.old) variable ≡ Some e) × (contents_of self.new ≡ contents_of self.old)) }
    {
        if usize::from(variable) >= VARIABLES {
            return Err(WordRefusal::NoSuchVariable);
        }
        if u16::from(variable) < self.least() {
            return Err(WordRefusal::NotRising);
        }
        let start = self.letters.len();
        self.seats.push(Seat { variable, start }).unwrap();
        Ok(())
    }

    // Adds a letter to the newest word.
    pub fn push_letter(&mut self, letter: u16) -> Result<(), LetterRefusal>
        ensures { MatchResult result
            (λ _. (letter_refusal (contents_of self.old) letter ≡ None) × (contents_of self.new ≡ with_letter letter (contents_of self.old)))
            (λ e. (letter_refusal (contents_of self.old) letter ≡ Some e) × (contents_of self.new ≡ contents_of self.old)) }
    {
        if self.seats.len() == 0 {
            return Err(LetterRefusal::NoWord);
        }
        let length = self
            .made
            .length(letter)
            .ok_or(LetterRefusal::UnknownLetter)?;
        let total = self.upto(self.letters.len()) + length;
        self.letters.push(letter)?;
        self.ends.push(total).unwrap();
        Ok(())
    }
}
