// The letters a to z, by their numbers from 0.

use crate::symbol::{SYMBOLS, SmallLetters, Symbol};

// How many there are.
pub const LETTERS: usize = SYMBOLS;

// One of a to z.
pub type Letter = Symbol<SmallLetters>;
