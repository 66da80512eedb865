// The lengths of the maximal rows of a letter.
ghost use Rattle.std.specs.Prelude.{◌≡◌, ℕ, ◌<◌, false, nat_eq, slice_index_or};
ghost use Rattle.systems.specs.Rows.{any};
ghost use Rattle.leftover.specs.Noting.{mark_rows};

use crate::store::MOST_LETTERS;
use sides::Mark;
use systems::Place;

// For each length of 1 to 512, whether a maximal row has it. (Between two other letters and at an end a row of none is noted too.)
pub type Lengths = [bool; MOST_LETTERS + 1];

// For each length, whether a maximal row of a in a side has it. (A longer row than 512 is not noted: the filled-in sides have none.)
pub(crate) fn lengths_in(marks: &[Mark], a: u16) -> Lengths
    ensures { (n : ℕ) → n < 513 → slice_index_or result n false ≡ any (nat_eq n) (mark_rows a 0 marks.now) }
{
    let mut noted = [false; MOST_LETTERS + 1];
    let mut count = 0;
    for mark in marks {
        if *mark == Mark::At(Place::Letter(a)) {
            count += 1;
        } else {
            if count <= MOST_LETTERS {
                noted[count] = true;
            }
            count = 0;
        }
    }
    noted
}
