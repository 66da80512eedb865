// A kind of a buyer's own: letters of a chosen set must be used an even number of times.

ghost use Rattle.std.specs.Prelude.{◌≡◌, if◌then◌else◌};
ghost use Rattle.measure.specs.Sets.{holds};
ghost use Rattle.example_kind.specs.Parities.{both_parities, both_associative, both_neutral, is_even};
ghost use Rattle.example_kind.specs.declared.parity.Parity.TheVariants.{Even, Odd};

use measure::Measure;
use measure::letter::Letter;
use measure::sets::has;
use measure::variable::Variable;

// How often the letters of the set are used.
#[derive(Clone, Copy, PartialEq, Eq, Debug)]
pub enum Parity {
    Even,
    Odd,
}

// The set of letters that are counted: bit a for the letter a.
#[derive(Clone, Copy)]
pub struct EvenUses {
    counted: u32,
}

impl EvenUses {
    // The kind that counts these letters.
    pub fn new(counted: u32) -> EvenUses
        ensures { result.counted ≡ counted }
    {
        EvenUses { counted }
    }
}

impl Measure for EvenUses {
    type Value = Parity;

    ghost single = { λ k a. (if holds k.counted a then Odd else Even) };

    ghost nothing = { λ _. Even };

    ghost joined = { λ _. both_parities };

    ghost passed = { λ _ _ x. is_even x };

    ghost associative = { λ _. both_associative };

    ghost neutral = { λ _. both_neutral };

    fn letter(&self, letter: Letter) -> Parity {
        if has(self.counted, letter.number()) {
            Parity::Odd
        } else {
            Parity::Even
        }
    }

    fn empty(&self) -> Parity {
        Parity::Even
    }

    fn join(&self, a: Parity, b: Parity) -> Parity {
        if a == b { Parity::Even } else { Parity::Odd }
    }

    fn passes(&self, _variable: Variable, value: Parity) -> bool {
        value == Parity::Even
    }
}
