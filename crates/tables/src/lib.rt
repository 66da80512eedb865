// The three tables as text: how their lines are written, which row a line is, and the lines of a text taken table by table.

#![tactic(auto)]

mod choices;
mod fields;
mod limits;
mod reader;
mod sides;
mod types;

pub use choices::read_choice;
pub use limits::read_limit;
pub use reader::{NoNames, Reader, Stage, Step};
pub use sides::{Equation, read_equation};
pub use types::{Limit, LineRefusal, Table, UNLISTED_LEAST, UNLISTED_MOST};
