// The rules of the made letters, with the length of what each letter spells: for whoever makes letters one after another.

#![tactic(auto)]

mod methods;
mod store;

pub use store::Letters;
