ghost use Rattle.std.specs.Prelude.{◌≡◌, length};

use crate::slot::{Word, WordSlot};
use reserved::Reserved;
use sides::Sides;
use systems::Place;

// The filled-in sides have no more letters.
pub const MOST_LETTERS: usize = 512;

// The last variable.
pub(crate) const Z: u8 = 25;

// What is left of each live variable's word and of the filled-in sides, in memory that is reserved once.
#[derive(Drop)]
pub struct Leftover {
    pub(crate) words: [WordSlot; 26],
    // the next pass over a word fills it
    pub(crate) spare: Word,
    // a word as places, while it is filled in
    pub(crate) row: Reserved<Place, MOST_LETTERS>,
    // as equations without a variable
    pub(crate) filled: Sides,
    // the letter that the next rule makes
    pub(crate) fresh: u16,
    ghost long: { length words ≡ 26 },
}
