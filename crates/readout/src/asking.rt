ghost use Rattle.text.specs.Reading.{Reads};
ghost use Rattle.readout.specs.Asking.{Askable, three_words};

use crate::request::{Request, Stretch};
use text::{number, variable};

// No more letters may be asked for at once.
const MOST_LETTERS: u64 = 1_000_000;

/// The stretch that three words ask for: a variable, the place where it starts, and how many letters it has, at most 1,000,000.
// The count is cast, since there is no From to usize; the test before shows that it fits.
pub fn stretch_request(name: &[u8], start: &[u8], count: &[u8]) -> Option<Request>
    ensures { Reads Askable three_words (name.now, start.now, count.now) result }
{
    let variable = variable(name)?;
    let start = number(start)?;
    let count = number(count)?;
    if count > MOST_LETTERS {
        return None;
    }
    Some(Request::Stretch(Stretch {
        variable,
        start,
        count: count as usize,
    }))
}
