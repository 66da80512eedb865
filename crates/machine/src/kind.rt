// The machine kind and its calls.

ghost use Rattle.std.specs.Prelude.{◌≡◌, ℕ, ◌<◌, ◌≤◌, MatchResult, slice_index};
ghost use Rattle.measure.specs.Sets.{holds};
ghost use Rattle.machine.specs.Refusals.{machine_number};
ghost use Rattle.machine.specs.StateMaps.{by, next_state, stay, then, then_associative, then_neutral};
ghost use Rattle.machine.specs.Theorems.{ValueIsReading};

use crate::value::StateMap;
use measure::Measure;
use measure::letter::{LETTERS, Letter};
use measure::sets::has;
use measure::variable::{VARIABLES, Variable};
use std::array;
use thiserror::Error;

// How many states there are; the first is the start.
const STATES: usize = 8;

// How many next states: one for each state and letter.
const MOVES: usize = STATES * LETTERS;

/// Why a machine is not made.
#[derive(Clone, Copy, PartialEq, Eq, Debug, Error)]
pub enum MachineRefusal {
    /// a next state over 7
    #[error("a next state is over 7")]
    NoState = 81,
}

impl MachineRefusal {
    /// The refusal's number.
    pub fn number(self) -> u8
        ensures { result ≡ machine_number self }
    {
        self as u8
    }
}

// The next state after the letter a in the state s, at 26 * s + a, as callers hand them over; and the set of states in which a word may end, for
// each variable.
#[derive(Clone, Copy)]
pub struct Machine {
    next: [u8; MOVES],
    accepting: [u8; VARIABLES],
    ghost ok: { (i : ℕ) → i < 208 → slice_index next i < 8 },
}

impl Machine {
    // The machine with these next states and accepting sets, unless some next state is none of 0 to 7.
    pub fn new(next: [u8; MOVES], accepting: [u8; VARIABLES]) -> Result<Machine, MachineRefusal>
        ensures { MatchResult result (λ k. (k.next ≡ next) × (k.accepting ≡ accepting) × ((i : ℕ) → i < 208 → slice_index next i < 8)) (λ e. (machine_number e ≡ 81) × ((i : ℕ) × (i < 208) × (8 ≤ slice_index next i))) }
    {
        if next.iter().any(|state| *state >= STATES as u8) {
            return Err(MachineRefusal::NoState);
        }
        Ok(Machine { next, accepting })
    }
}

impl Measure for Machine {
    type Value = StateMap;

    ghost single = { λ k a. by (λ s. next_state k.next s a) };

    ghost nothing = { λ _. stay };

    ghost joined = { λ _. then };

    ghost passed = { λ k v x. holds (slice_index k.accepting v) (slice_index x.to 0) };

    ghost associative = { λ _. then_associative };

    ghost neutral = { λ _. then_neutral };

    fn letter(&self, letter: Letter) -> StateMap {
        StateMap {
            to: array::from_fn(|s| self.next[LETTERS * s + usize::from(letter.number())]),
        }
    }

    fn empty(&self) -> StateMap {
        StateMap {
            to: [0, 1, 2, 3, 4, 5, 6, 7],
        }
    }

    fn join(&self, a: StateMap, b: StateMap) -> StateMap {
        StateMap {
            to: array::from_fn(|s| b.to[usize::from(a.to[s])]),
        }
    }

    fn passes(&self, variable: Variable, value: StateMap) -> bool {
        let accepting = self.accepting[usize::from(variable.number())];
        has(u32::from(accepting), value.to[0])
    }
}

// The value of a word, at each state, is the state that the machine reaches from there by reading the word letter by letter.
pub fn value_is_reading()
    ensures { ValueIsReading }
{}
