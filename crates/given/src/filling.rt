// The words of a system, read from a caller's bytes and filled into its sides.
ghost use Rattle.std.specs.Prelude.{◌≡◌, ℕ, ◌-◌, ◌<◌, ◌≤◌, ◌⊎◌, map, length, cond, Some, None, MatchResult, slice_index_or, slice_set};
ghost use Rattle.systems.specs.declared.Place.TheVariants.{Letter};
ghost use Rattle.systems.specs.Choices.{swap};
ghost use Rattle.systems.specs.Sides.{fill, on_sides, places, stands_in};
ghost use Rattle.sides.specs.Holding.{only};
ghost use Rattle.writing.specs.declared.WriteRefusal.TheVariants.{TooManyLetters};
ghost use Rattle.writing.specs.Counts.{side_letters};
ghost use Rattle.writing.specs.Refusals.{given as words_given};
ghost use Rattle.writing.specs.Writer.{beside};
ghost use Rattle.given.specs.Reading.{Low, Marked, WordsGiven};

use crate::words::GivenWords;
use leftover::Leftover;
use sides::Sides;
use writing::WriteRefusal;

// Reads the word of x and fills it in. (No more than the 1,024 places that are loaded can be variables, so that the others are letters.)
fn fill_one(left: &mut Leftover, x: u8, bytes: &[u8]) -> Result<(), WriteRefusal>
    ensures answer { MatchResult result
        (λ _. (left.new.words ≡ slice_set left.old.words x (Some (map (λ b. b - 97) bytes.now)))
        × (left.new.filled ≡ on_sides (swap x (map Letter (map (λ b. b - 97) bytes.now))) left.old.filled))
        (λ e. (e ≡ TooManyLetters)
        × ((512 < length bytes.now) ⊎ (2048 < places (on_sides (swap x (map Letter (map (λ b. b - 97) bytes.now))) left.old.filled)))) }
    ensures fresh { left.new.fresh ≡ left.old.fresh }
{
    match left.fill_in(x, bytes) {
        Ok(()) => Ok(()),
        Err(_) => Err(WriteRefusal::TooManyLetters),
    }
}

// Reads the words of the system's variables and fills them in.
pub(crate) fn fill_all(
    left: &mut Leftover,
    sides: &Sides,
    system: &[bool; 26],
    given: &GivenWords,
) -> Result<(), WriteRefusal>
    requires few { places sides.now ≤ 1024 }
    requires low { Low sides.now }
    requires marked { Marked system.now sides.now }
    requires words { WordsGiven system.now given.now.buffer.now given.now.spans }
    ensures { let τ = words_given (only sides.now) given.now.buffer.now given.now.spans in
        MatchResult result
        (λ _. ((x : ℕ) → x < 26 → slice_index_or left.new.words x None ≡ cond (stands_in sides.now x) (Some (τ x)) None)
        × (left.new.filled ≡ on_sides (λ s. map Letter (fill τ s)) sides.now)
        × (left.new.fresh ≡ 26))
        (λ e. (e ≡ TooManyLetters) × (512 < side_letters (beside (only sides.now) τ))) }
{
    left.begin(sides);
    for x in 0..26 {
        if system[usize::from(x)] {
            fill_one(left, x, given.word(x).unwrap())?;
        }
    }
    Ok(())
}
