// A witness: the rules of made letters and the words of variables, from which the letters a to z of each word are read.

#![tactic(auto)]

mod build;
mod read;
pub mod refusals;
mod seats;
mod spelling;
mod store;

pub use read::every_witness_is_valid;
pub use refusals::{LetterRefusal, WitnessRefusal, WordRefusal};
pub use store::Witness;
