// The letters-used kind and its calls.

ghost use Rattle.std.specs.Prelude.{◌≡◌, ℕ, ◌^◌, ◌<◌, ◌≤◌, ◌⊎◌, MatchResult, slice_index};
ghost use Rattle.measure.specs.Sets.{set_number};
ghost use Rattle.letters_used.specs.LetterSets.{none, only, union, union_associative, union_neutral, between};
ghost use Rattle.letters_used.specs.Theorems.{PassingIsByLetters, ValueIsLettersUsed};

use crate::value::LetterSet;
use measure::Measure;
use measure::letter::Letter;
use measure::sets::{SetRefusal, check_set};
use measure::variable::{VARIABLES, Variable};

// The letters that a word must have and the letters that it may have, as sets, for each variable. Two arrays, since callers hand them over so and the
// contract of `new` names both.
#[derive(Clone, Copy)]
pub struct LettersUsed {
    required: [u32; VARIABLES],
    allowed: [u32; VARIABLES],
}

impl LettersUsed {
    // The kind with these sets, unless one of them is no set of letters.
    pub fn new(
        required: [u32; VARIABLES],
        allowed: [u32; VARIABLES],
    ) -> Result<LettersUsed, SetRefusal>
        ensures { MatchResult result (λ k. (k.required ≡ required) × (k.allowed ≡ allowed) × ((v : ℕ) → v < 26 → (slice_index required v < 2 ^ 26) × (slice_index allowed v < 2 ^ 26))) (λ e. (set_number e ≡ 83) × ((v : ℕ) × (v < 26) × ((2 ^ 26 ≤ slice_index required v) ⊎ (2 ^ 26 ≤ slice_index allowed v)))) }
    {
        for (must, may) in required.iter().zip(&allowed) {
            check_set(*must)?;
            check_set(*may)?;
        }
        Ok(LettersUsed { required, allowed })
    }
}

impl Measure for LettersUsed {
    type Value = LetterSet;

    ghost single = { λ _. only };

    ghost nothing = { λ _. none };

    ghost joined = { λ _. union };

    ghost passed = { λ k v x. between (slice_index k.required v) (slice_index k.allowed v) x.bits };

    ghost associative = { λ _. union_associative };

    ghost neutral = { λ _. union_neutral };

    fn letter(&self, letter: Letter) -> LetterSet {
        LetterSet {
            bits: 1u32 << letter.number(),
        }
    }

    fn empty(&self) -> LetterSet {
        LetterSet { bits: 0 }
    }

    fn join(&self, a: LetterSet, b: LetterSet) -> LetterSet {
        LetterSet {
            bits: a.bits | b.bits,
        }
    }

    fn passes(&self, variable: Variable, value: LetterSet) -> bool {
        let v = usize::from(variable.number());
        let required = self.required[v];
        let allowed = self.allowed[v];
        value.bits & required == required && allowed & value.bits == value.bits
    }
}

// The value of a word holds a letter exactly when the letter stands in the word.
pub fn value_is_letters_used()
    ensures { ValueIsLettersUsed }
{}

// A set passes exactly when it holds every required letter and only allowed ones.
pub fn passing_is_by_letters()
    ensures { PassingIsByLetters }
{}
