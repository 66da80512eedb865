ghost use Rattle.std.specs.Prelude.{◌≡◌, ◌<◌, [], ◌∷◌, ◌++◌, length};

use reserved::Reserved;
use systems::Place;

// No more places stand, over all sides.
pub(crate) const MOST_PLACES: usize = 2_048;

// No more equations are loaded.
pub(crate) const MOST_EQUATIONS: usize = 32;

// The places, and the ends of two sides of each equation.
const MOST_MARKS: usize = MOST_PLACES + 2 * MOST_EQUATIONS;

// A place of a side, or the end of one. (Not an Option of a place: an end is a mark that stands there, and nothing is missing.)
#[derive(Clone, Copy, PartialEq, Eq, Debug)]
pub enum Mark {
    End,
    At(Place),
}

// A list with room for the marks of all sides.
pub(crate) type Marks = Reserved<Mark, MOST_MARKS>;

// Writes one more mark.
pub(crate) fn put(out: &mut Marks, mark: Mark)
    requires room { length out.old < 2112 }
    ensures { out.new ≡ out.old ++ mark ∷ [] }
{
    out.push(mark).unwrap();
}
