// What a writer's choices leave: of the words of the live variables, and of the filled-in sides.

#![tactic(auto)]

mod beginning;
mod leaving;
mod lengths;
mod slot;
mod store;

pub use lengths::Lengths;
pub use store::{Leftover, MOST_LETTERS};
