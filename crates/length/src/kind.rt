// The length kind and its calls.

ghost use Rattle.std.specs.Prelude.{◌≡◌, ℕ, ◌<◌, ◌&&◌, MatchResult, nat_le, slice_index};
ghost use Rattle.length.specs.Capped.{capped, longer, longer_associative, longer_neutral};
ghost use Rattle.length.specs.Limits.{InOrder, IsOutOfOrder, length_number};
ghost use Rattle.length.specs.Theorems.{ValueIsCappedLength};

use crate::value::Capped;
use measure::Measure;
use measure::letter::Letter;
use measure::variable::{VARIABLES, Variable};
use thiserror::Error;

// Where counting stops.
const CAP: u32 = 1_000_000;

/// Why a length kind is not made.
#[derive(Clone, Copy, PartialEq, Eq, Debug, Error)]
pub enum LengthRefusal {
    /// for some variable, least is over most, or most over 1,000,000
    #[error("for some variable the least length is over the most, or the most is over 1,000,000")]
    OutOfOrder = 82,
}

impl LengthRefusal {
    /// The refusal's number.
    pub fn number(self) -> u8
        ensures { result ≡ length_number self }
    {
        self as u8
    }
}

// The least and the most letters that a word may have, for each variable. Two arrays, since callers hand them over so and the contract of `new`
// names both.
#[derive(Clone, Copy)]
pub struct Length {
    least: [u32; VARIABLES],
    most: [u32; VARIABLES],
}

impl Length {
    // The kind with these limits, unless those of some variable are out of order.
    pub fn new(least: [u32; VARIABLES], most: [u32; VARIABLES]) -> Result<Length, LengthRefusal>
        ensures { MatchResult result (λ k. (k.least ≡ least) × (k.most ≡ most) × ((v : ℕ) → v < 26 → InOrder (slice_index least v) (slice_index most v))) (λ e. (length_number e ≡ 82) × ((v : ℕ) × (v < 26) × IsOutOfOrder (slice_index least v) (slice_index most v))) }
    {
        if least
            .iter()
            .zip(&most)
            .any(|(least, most)| least > most || *most > CAP)
        {
            return Err(LengthRefusal::OutOfOrder);
        }
        Ok(Length { least, most })
    }
}

impl Measure for Length {
    type Value = Capped;

    ghost single = { λ _ _. capped 1 };

    ghost nothing = { λ _. capped 0 };

    ghost joined = { λ _. longer };

    ghost passed = { λ k v x. nat_le (slice_index k.least v) x.count && nat_le x.count (slice_index k.most v) };

    ghost associative = { λ _. longer_associative };

    ghost neutral = { λ _. longer_neutral };

    fn letter(&self, _letter: Letter) -> Capped {
        Capped { count: 1 }
    }

    fn empty(&self) -> Capped {
        Capped { count: 0 }
    }

    fn join(&self, a: Capped, b: Capped) -> Capped {
        Capped {
            count: (a.count + b.count).min(CAP),
        }
    }

    fn passes(&self, variable: Variable, value: Capped) -> bool {
        let v = usize::from(variable.number());
        self.least[v] <= value.count && value.count <= self.most[v]
    }
}

// The value of a word is its length, up to 1,000,000.
pub fn value_is_capped_length()
    ensures { ValueIsCappedLength }
{}
