// Kinds made of other kinds: both of two, and the opposite of one.

#![tactic(auto)]

pub mod both;
pub mod opposite;
pub mod pair;
