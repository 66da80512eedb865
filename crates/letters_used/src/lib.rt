// The letters-used kind: every required letter and only allowed ones, for each variable.

#![tactic(auto)]

pub mod kind;
pub mod value;
