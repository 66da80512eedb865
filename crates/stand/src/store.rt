ghost use Rattle.std.specs.Prelude.{◌≡◌, ◌≤◌, true, [], reverse, length, is_some, IfOk, if◌then◌else◌};
ghost use Rattle.std.specs.Option.{option_map};
ghost use Rattle.std.specs.Result.{result_err};
ghost use Rattle.model.specs.Witnesses.{rule_refusal, rules_fit};
ghost use Rattle.systems.specs.Loading.{after_load, load_refusal};
ghost use Rattle.systems.specs.Refusals.{after_choice, choice_detail, choice_number, choice_refusal, load_number, of_rule};
ghost use Rattle.systems.specs.Standings.{fresh, new as nothing_loaded};
ghost use Rattle.stand.specs.Popping.{RefusesBeforePlaces, joining, popping, with_rule};

use letters::Letters;
use model::Rule;
use reserved::Reserved;
use sides::Sides;
use std::alloc::{AllocError, Global};
use std::marker::Model;
use systems::{Choice, ChoiceRefusal, LoadRefusal, Place, Pop};

// No more letters are popped.
pub const MOST_POPS: usize = 1_024;

// The sides, the rules and at most 1,024 pops, in the order in which they came. All room is there from the start.
#[derive(Drop)]
pub struct Stand {
    sides: Sides,
    letters: Letters,
    pops: Reserved<Pop, MOST_POPS>,
}

impl Model for Stand {
    ghost use Rattle.systems.specs.Standings.{Standing};
    ghost use Rattle.letters.specs.Holding.{rules_of};

    ghost Value = { Standing };

    ghost view = { λ s. record { equations = s.sides; rules = rules_of s.letters; pops = s.pops } };
}

impl Stand {
    // No equation, rule or pop, and room for all that may come: nothing after this can lack memory.
    pub fn new(heap: Global) -> Result<Stand, AllocError>
        ensures { IfOk result (λ s. s ≡ nothing_loaded) }
    {
        Ok(Stand {
            sides: Sides::new(heap)?,
            letters: Letters::new(heap)?,
            pops: Reserved::new(heap)?,
        })
    }

    /// Forgets all equations, rules and pops.
    pub fn clear(&mut self)
        ensures { self.new ≡ nothing_loaded }
    {
        self.sides.clear();
        self.letters.clear();
        self.pops.clear();
    }

    // The sides.
    pub fn sides(&self) -> &Sides
        ensures { result.now ≡ self.now.equations }
    {
        &self.sides
    }

    // The rules, the oldest first.
    pub fn rules(&self) -> &[Rule]
        ensures value { reverse result.now ≡ self.now.rules }
        ensures fit { rules_fit self.now.rules ≡ true }
    {
        self.letters.rules()
    }

    // The pops, in the order in which they came.
    pub fn pops(&self) -> &[Pop]
        ensures value { result.now ≡ self.now.pops }
        ensures few { length result.now ≤ 1024 }
    {
        self.pops.as_slice()
    }

    // Takes one more equation, or says why not and changes nothing.
    pub fn load(&mut self, left: &[u8], right: &[u8]) -> Result<(), LoadRefusal>
        ensures refusal { result_err result ≡ load_refusal self.old left.now right.now }
        ensures number { option_map load_number (result_err result) ≡ option_map load_number (load_refusal self.old left.now right.now) }
        ensures stands { self.new ≡ after_load self.old left.now right.now }
    {
        self.sides.load(left, right)
    }

    // Whether the letter a may be popped from x, before the places are counted.
    fn may_pop(&self, x: u8, a: u16) -> Result<(), ChoiceRefusal>
        ensures { RefusesBeforePlaces self.now x a (result_err result) }
    {
        if self.sides.count(x) == 0 {
            return Err(ChoiceRefusal::NotLive(x));
        }
        if a >= self.letters.known() {
            return Err(ChoiceRefusal::UnknownLetter);
        }
        if self.pops.len() >= MOST_POPS {
            return Err(ChoiceRefusal::TooManyPops);
        }
        Ok(())
    }

    // Puts the popped letter beside each place of its variable, and notes the pop; or says why not and changes nothing.
    fn pop(&mut self, pop: Pop) -> Result<(), ChoiceRefusal>
        ensures refusal { result_err result ≡ choice_refusal self.old (popping pop) }
        ensures stands { self.new ≡ after_choice self.old (popping pop) }
    {
        let (x, a, row) = match pop {
            Pop::AtLeft(x, a) => (x, a, [Place::Letter(a), Place::Variable(x)]),
            Pop::AtRight(x, a) => (x, a, [Place::Variable(x), Place::Letter(a)]),
        };
        self.may_pop(x, a)?;
        self.sides.replace_variable(x, &row)?;
        self.pops.push(pop).unwrap();
        Ok(())
    }

    // Takes a live variable out of every side.
    fn erase(&mut self, x: u8) -> Result<(), ChoiceRefusal>
        ensures refusal { result_err result ≡ choice_refusal self.old (Choice.Erase x) }
        ensures stands { self.new ≡ after_choice self.old (Choice.Erase x) }
    {
        if self.sides.count(x) == 0 {
            return Err(ChoiceRefusal::NotLive(x));
        }
        self.sides.replace_variable(x, &[])
    }

    // Makes the next letter by a rule, and answers its number.
    fn make(&mut self, rule: Rule) -> Result<u16, ChoiceRefusal>
        ensures refusal { result_err result ≡ option_map of_rule (rule_refusal self.old.rules rule) }
        ensures letter { IfOk result (λ new. new ≡ fresh self.old) }
        ensures stands { self.new ≡ (if is_some (result_err result) then self.old else with_rule self.old rule) }
    {
        let new = self.letters.known();
        self.letters.add(rule)?;
        Ok(new)
    }

    // Makes a letter by a rule, and puts it for each place of what the rule joins.
    fn join(&mut self, rule: Rule) -> Result<(), ChoiceRefusal>
        ensures refusal { result_err result ≡ choice_refusal self.old (joining rule) }
        ensures stands { self.new ≡ after_choice self.old (joining rule) }
    {
        let new = self.make(rule)?;
        match rule {
            Rule::Pair(a, b) => self.sides.replace_pairs(a, b, new),
            Rule::Block(a, n) => self.sides.replace_blocks(a, n, new),
        }
        Ok(())
    }

    // Takes a choice, on every side of every equation, or says why not and changes nothing.
    pub fn choose(&mut self, choice: Choice) -> Result<(), ChoiceRefusal>
        ensures refusal { result_err result ≡ choice_refusal self.old choice }
        ensures number { option_map choice_number (result_err result) ≡ option_map choice_number (choice_refusal self.old choice) }
        ensures detail { option_map choice_detail (result_err result) ≡ option_map choice_detail (choice_refusal self.old choice) }
        ensures stands { self.new ≡ after_choice self.old choice }
    {
        match choice {
            Choice::Left(x, a) => self.pop(Pop::AtLeft(x, a)),
            Choice::Right(x, a) => self.pop(Pop::AtRight(x, a)),
            Choice::Erase(x) => self.erase(x),
            Choice::Pair(a, b) => self.join(Rule::Pair(a, b)),
            Choice::Block(a, n) => self.join(Rule::Block(a, n)),
        }
    }
}
