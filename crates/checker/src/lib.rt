// The calls that a search drives: a system is loaded, opened, taken through choices, and closed with a witness.

#![tactic(auto)]

mod choosing;
mod closing;
mod ending;
mod loading;
mod output;
mod popped;
mod store;

pub use store::{Check, System};
