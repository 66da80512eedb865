// What stands, in memory that is reserved once: the sides, the rules and the pops; loading, and the five choices.

#![tactic(auto)]

mod store;

pub use store::{MOST_POPS, Stand};
