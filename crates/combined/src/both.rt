// Two kinds of any sort at once.

ghost use Rattle.std.specs.Prelude.{◌&&◌};
ghost use Rattle.combined.specs.Pairs.{pair, pair_join, pair_associative, pair_neutral};
ghost use Rattle.combined.specs.Theorems.{ValueIsPair};

use crate::pair::Pair;
use measure::Measure;
use measure::letter::Letter;
use measure::variable::Variable;

// Both kinds must pass.
#[derive(Clone, Copy)]
pub struct Both<A, B> {
    pub first: A,
    pub second: B,
}

impl<A: Measure, B: Measure> Measure for Both<A, B> {
    type Value = Pair<A::Value, B::Value>;

    ghost single = { λ k a. pair (A.Measure.single k.first a) (B.Measure.single k.second a) };

    ghost nothing = { λ k. pair (A.Measure.nothing k.first) (B.Measure.nothing k.second) };

    ghost joined = { λ k. pair_join (A.Measure.joined k.first) (B.Measure.joined k.second) };

    ghost passed = { λ k v x. A.Measure.passed k.first v x.first && B.Measure.passed k.second v x.second };

    ghost associative = { λ k. pair_associative (A.Measure.associative k.first) (B.Measure.associative k.second) };

    ghost neutral = { λ k. pair_neutral (A.Measure.neutral k.first) (B.Measure.neutral k.second) };

    fn letter(&self, letter: Letter) -> Pair<A::Value, B::Value> {
        Pair {
            first: self.first.letter(letter),
            second: self.second.letter(letter),
        }
    }

    fn empty(&self) -> Pair<A::Value, B::Value> {
        Pair {
            first: self.first.empty(),
            second: self.second.empty(),
        }
    }

    fn join(
        &self,
        a: Pair<A::Value, B::Value>,
        b: Pair<A::Value, B::Value>,
    ) -> Pair<A::Value, B::Value> {
        Pair {
            first: self.first.join(a.first, b.first),
            second: self.second.join(a.second, b.second),
        }
    }

    fn passes(&self, variable: Variable, value: Pair<A::Value, B::Value>) -> bool {
        self.first.passes(variable, value.first) && self.second.passes(variable, value.second)
    }
}

// The value of a word is the pair of its values under the two kinds.
pub fn value_is_pair<V, W>()
    ensures { ValueIsPair V W }
{}
