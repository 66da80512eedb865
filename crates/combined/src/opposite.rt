// A kind with pass and fail changed for some variables.

ghost use Rattle.std.specs.Prelude.{◌≡◌, ◌^◌, ◌<◌, ◌≤◌, MatchResult};
ghost use Rattle.measure.specs.Sets.{set_number};
ghost use Rattle.combined.specs.Turning.{turned_for};
ghost use Rattle.combined.specs.Theorems.{PassAndFailChangePlaces};

use measure::Measure;
use measure::letter::Letter;
use measure::sets::{SetRefusal, check_set, has};
use measure::variable::Variable;

// A kind, and the set of variables for which pass and fail change places.
#[derive(Clone, Copy)]
pub struct Opposite<K> {
    kind: K,
    turned: u32,
}

impl<K: Drop> Opposite<K> {
    // The opposite of the kind for these variables, unless they are no set of variables.
    pub fn new(kind: K, turned: u32) -> Result<Opposite<K>, SetRefusal>
        ensures { MatchResult result (λ k. (k.kind ≡ kind) × (k.turned ≡ turned) × (turned < 2 ^ 26)) (λ e. (set_number e ≡ 83) × (2 ^ 26 ≤ turned)) }
    {
        check_set(turned)?;
        Ok(Opposite { kind, turned })
    }
}

impl<K: Measure> Measure for Opposite<K> {
    type Value = K::Value;

    ghost single = { λ k. K.Measure.single k.kind };

    ghost nothing = { λ k. K.Measure.nothing k.kind };

    ghost joined = { λ k. K.Measure.joined k.kind };

    ghost passed = { λ k v x. turned_for k.turned v (K.Measure.passed k.kind v x) };

    ghost associative = { λ k. K.Measure.associative k.kind };

    ghost neutral = { λ k. K.Measure.neutral k.kind };

    fn letter(&self, letter: Letter) -> K::Value {
        self.kind.letter(letter)
    }

    fn empty(&self) -> K::Value {
        self.kind.empty()
    }

    fn join(&self, a: K::Value, b: K::Value) -> K::Value {
        self.kind.join(a, b)
    }

    fn passes(&self, variable: Variable, value: K::Value) -> bool {
        self.kind.passes(variable, value) != has(self.turned, variable.number())
    }
}

// For the variables of the set the answer is the other one, for the rest it is the same.
pub fn pass_and_fail_change_places()
    ensures { PassAndFailChangePlaces }
{}
