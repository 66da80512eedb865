// What a run answers to the text of three tables, and what is true of every answer.

#![tactic(auto)]

mod errors;

ghost use Rattle.answers.specs.Theorems.{Complete, ListedExactly, OneAnswer, RefusedRightly, Sound, TablesAreRead};

pub use errors::{Refused, RunError};

/// Tables are known from their text, with or without its last newline, and the text from its lines.
pub fn tables_are_read()
    ensures { TablesAreRead }
{}

/// There is only one answer to a text.
pub fn one_answer()
    ensures { OneAnswer }
{}

/// A listing is the answer exactly where the text is that of tables whose calls are all taken and the close accepts; and no refusal prints a listing.
pub fn listed_exactly()
    ensures { ListedExactly }
{}

/// Where a line is refused, the calls of all lines before it are taken; where none is, the text is too long or the close refuses.
pub fn refused_rightly()
    ensures { RefusedRightly }
{}

/// The words of a listing that is answered solve the equations of the first table and are within the limits of the second.
pub fn sound()
    ensures { Sound }
{}

/// Where the choices fit a solution, a listing is answered exactly if no variable is live and the solution is within the limits, and it spells the solution.
pub fn complete()
    ensures { Complete }
{}
