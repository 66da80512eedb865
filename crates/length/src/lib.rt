// The length kind: how many letters a word has, from least to most for each variable.

#![tactic(auto)]

pub mod kind;
pub mod value;
