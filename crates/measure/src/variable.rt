// The variables A to Z, by their numbers from 0.

use crate::symbol::{Capitals, SYMBOLS, Symbol};

// How many there are.
pub const VARIABLES: usize = SYMBOLS;

// One of A to Z.
pub type Variable = Symbol<Capitals>;
