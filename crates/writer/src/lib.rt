// The writer: a list of choices for words that solve a system which is still loading.

#![tactic(auto)]

mod joins;
mod list;
mod parts;
mod pops;
mod store;
mod turns;

pub use list::Writer;
