// What is left before the first choice: the words, and the sides with them filled in.
ghost use Rattle.std.specs.Prelude.{◌≡◌, ℕ, ◌-◌, ◌<◌, ◌≤◌, ◌⊎◌, map, length, Some, None, IfOk, MatchResult, slice_index_or, slice_set};
ghost use Rattle.systems.specs.declared.Place.TheVariants.{Letter};
ghost use Rattle.systems.specs.Choices.{swap};
ghost use Rattle.systems.specs.Sides.{on_sides, places};
ghost use Rattle.leftover.specs.Left.{Nothing};

use crate::slot::{Word, WordSlot};
use crate::store::{Leftover, MOST_LETTERS, Z};
use reserved::{Full, Reserved};
use sides::Sides;
use std::alloc::{AllocError, Global};
use std::array;
use systems::Place;

// The first letter that a rule makes.
const FIRST_MADE: u16 = 26;

// Writes the letters that bytes a to z stand for, as places.
fn put_row(row: &mut Reserved<Place, MOST_LETTERS>, bytes: &[u8])
    requires { length bytes.now ≤ 512 }
    ensures { row.new ≡ map Letter (map (λ b. b - 97) bytes.now) }
{
    row.clear();
    for byte in bytes {
        row.push(Place::Letter(u16::from(byte.saturating_sub(b'a'))))
            .unwrap();
    }
}

impl Leftover {
    // No word and no side, and room for all that may come: nothing after this can lack memory.
    pub fn new(heap: Global) -> Result<Leftover, AllocError>
        ensures { IfOk result Nothing }
    {
        Ok(Leftover {
            words: array::try_from_fn(|_| WordSlot::new(heap))?,
            spare: Word::new(heap)?,
            row: Reserved::new(heap)?,
            filled: Sides::new(heap)?,
            fresh: FIRST_MADE,
        })
    }

    // No variable is live, nothing is made, and the sides are these, in which nothing is filled in yet.
    pub fn begin(&mut self, sides: &Sides)
        ensures words { (x : ℕ) → x < 26 → slice_index_or self.new.words x None ≡ None }
        ensures filled { self.new.filled ≡ sides.now }
        ensures fresh { self.new.fresh ≡ 26 }
    {
        for x in 0..26 {
            self.words[x].clear();
        }
        self.filled.copy_from(sides);
        self.fresh = FIRST_MADE;
    }

    // The variable x is live, and its word is the one that bytes a to z spell. (There is no word past Z.)
    fn set_word(&mut self, x: u8, bytes: &[u8])
        requires { length bytes.now ≤ 512 }
        ensures words { self.new.words ≡ slice_set self.old.words x (Some (map (λ b. b - 97) bytes.now)) }
        ensures filled { self.new.filled ≡ self.old.filled }
        ensures fresh { self.new.fresh ≡ self.old.fresh }
    {
        if x <= Z {
            self.words[usize::from(x)].read(bytes);
        }
    }

    // The variable x is live, and its word is the one that bytes a to z spell, which is filled in; or there is no room for so many letters, and nothing
    // changes.
    pub fn fill_in(&mut self, x: u8, bytes: &[u8]) -> Result<(), Full>
        ensures answer { MatchResult result
            (λ _. (self.new.words ≡ slice_set self.old.words x (Some (map (λ b. b - 97) bytes.now)))
            × (self.new.filled ≡ on_sides (swap x (map Letter (map (λ b. b - 97) bytes.now))) self.old.filled))
            (λ _. ((512 < length bytes.now) ⊎ (2048 < places (on_sides (swap x (map Letter (map (λ b. b - 97) bytes.now))) self.old.filled)))
            × (self.new.words ≡ self.old.words)
            × (self.new.filled ≡ self.old.filled)) }
        ensures fresh { self.new.fresh ≡ self.old.fresh }
    {
        if bytes.len() > MOST_LETTERS {
            return Err(Full);
        }
        put_row(&mut self.row, bytes);
        match self.filled.replace_variable(x, self.row.as_slice()) {
            Ok(()) => {
                self.set_word(x, bytes);
                Ok(())
            }
            Err(_) => Err(Full),
        }
    }
}
