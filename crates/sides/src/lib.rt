// The sides of all equations, in memory that is reserved once, and the passes over them.

#![tactic(auto)]

mod ends;
mod mark;
mod passes;
mod store;
mod text;

pub use mark::Mark;
pub use store::Sides;
