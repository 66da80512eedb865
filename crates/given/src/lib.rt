// The words that a caller gives to the writer, read and filled into the sides of a system; or why no list is written for them.

#![tactic(auto)]

mod filling;
mod reading;
mod words;

pub use reading::read;
pub use words::GivenWords;
