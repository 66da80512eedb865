// The machine kind: a machine of 8 states reads the word, and the state that it ends in decides.

#![tactic(auto)]

pub mod kind;
pub mod value;
