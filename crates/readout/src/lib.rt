// What is read out of a listing: a table of its words, or a stretch of one, as text.

#![tactic(auto)]

mod adding;
mod asking;
mod building;
mod replying;
mod request;

pub use asking::stretch_request;
pub use replying::{Readout, Reply, ReplyRefusal};
pub use request::{Request, Stretch};
