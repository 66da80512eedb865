// A run: from the bytes of three tables to the listing of a witness, or to a refusal.

#![tactic(auto)]

mod choices;
mod equations;
mod limits;
mod memory;
mod printing;
mod running;

pub use answers::{Refused, RunError};
pub use memory::Runner;
