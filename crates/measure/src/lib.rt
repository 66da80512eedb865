// Measures: limits on words of any lawful kind. What a kind is, and what is written once for every kind.

#![tactic(auto)]

ghost use Rattle.std.specs.Prelude.{◌≡◌, ℕ, Bool};
ghost use Rattle.systems.specs.Values.{Associative, Neutral};

use crate::letter::Letter;
use crate::variable::Variable;

pub mod letter;
pub mod sets;
pub mod symbol;
pub mod values;
pub mod variable;

// A kind of limit on words. Its meaning is four functions, which may depend on the kind's own data; its calls answer by them.
pub trait Measure {
    // what a word comes to
    type Value: Copy;

    // the value of the letter of a number
    ghost single: { Self → ℕ → Self.Value };

    // the value of the empty word
    ghost nothing: { Self → Self.Value };

    // the value of two words in a row
    ghost joined: { Self → Self.Value → Self.Value → Self.Value };

    // whether a value passes for the variable of a number
    ghost passed: { Self → ℕ → Self.Value → Bool };

    // the law of joining
    ghost associative: { (k : Self) → Associative (joined k) };

    // the law of the empty value
    ghost neutral: { (k : Self) → Neutral (nothing k) (joined k) };

    // The value of a letter.
    fn letter(&self, letter: Letter) -> Self::Value
        ensures { result ≡ single self.now letter.number };

    // The value of the empty word.
    fn empty(&self) -> Self::Value
        ensures { result ≡ nothing self.now };

    // The value of a word with the value `a` and one with the value `b` in a row.
    fn join(&self, a: Self::Value, b: Self::Value) -> Self::Value
        ensures { result ≡ joined self.now a b };

    // Whether a word of this value passes for the variable.
    fn passes(&self, variable: Variable, value: Self::Value) -> bool
        ensures { result ≡ passed self.now variable.number value };
}
