ghost use Rattle.std.specs.Prelude.{◌≡◌, true, reverse, length};
ghost use Rattle.letters.specs.Holding.{rules_of};
ghost use Rattle.model.specs.Witnesses.{entries_fit};
ghost use Rattle.witness.specs.Seats.{Counted, entries, tight};

use crate::seats::Seat;
use letters::Letters;
use reserved::Reserved;

// All words together have no more letters.
pub(crate) const MOST_LETTERS: usize = 1024;

// There are as many variables, A to Z.
pub(crate) const VARIABLES: usize = 26;

// The rules, and the letters of all words one word after another, each with how many letters it and those before it spell.
// The counts stand in a list of their own, since a word is lent as one slice of letters. What is true of every witness is said by ghost fields and
// not
// hidden in a model, so that a caller has it of any witness, and `every_witness_is_valid` is about the type.
#[derive(Drop)]
pub struct Witness {
    pub(crate) made: Letters,
    pub(crate) letters: Reserved<u16, MOST_LETTERS>,
    pub(crate) ends: Reserved<u64, MOST_LETTERS>,
    pub(crate) seats: Reserved<Seat, VARIABLES>,
    ghost level: { length ends ≡ length letters },
    ghost whole: { tight (length letters) (reverse seats) ≡ true },
    ghost fit: { entries_fit (rules_of made) (entries (reverse seats) letters) ≡ true },
    ghost counted: { Counted (rules_of made) letters ends },
}
