// A witness printed as a listing, and read from one.

#![tactic(auto)]

mod entries;
mod printer;
mod printing;
mod reading;
pub mod refusals;
mod rules;
mod words;

pub use printing::print;
pub use reading::Reader;
pub use refusals::{PrintRefusal, ReadRefusal};
