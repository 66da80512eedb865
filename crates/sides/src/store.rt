ghost use Rattle.std.specs.Prelude.{◌≡◌, ℕ, ◌+◌, ◌*◌, ◌<◌, ◌≤◌, false, [], ◌∷◌, ◌++◌, length, IfOk, IfSome, if◌then◌else◌, Some, None, MatchResult, nat_eq, nat_lt, slice_index_or};
ghost use Rattle.std.specs.List.{count_by};
ghost use Rattle.systems.specs.Choices.{swap};
ghost use Rattle.systems.specs.Loading.{load_refusal, loaded_too, side_of};
ghost use Rattle.systems.specs.Sides.{Side, is_variable, on_sides, places, side_blocks, side_pairs, stands_in};
ghost use Rattle.systems.specs.declared.ChoiceRefusal.TheVariants.{TooManyPlaces};
ghost use Rattle.sides.specs.Holding.{all_places, only};
ghost use Rattle.sides.specs.Marks.{marks_of};
ghost use Rattle.sides.specs.Seeking.{First, FirstUnequal};

use crate::mark::{MOST_EQUATIONS, MOST_PLACES, Mark, Marks, put};
use crate::{ends, passes, text};
use std::alloc::{AllocError, Global};
use std::marker::Model;
use std::mem;
use std::num::NonZeroU32;
use systems::{ChoiceRefusal, LoadRefusal, Place};

// No more places are loaded.
const MOST_LOADED: usize = 1_024;

// The sides of at most 32 equations, with at most 2,048 places: a list of marks, a second list that the next pass fills, and the number of the equations.
#[derive(Drop)]
pub struct Sides {
    marks: Marks,
    spare: Marks,
    // kept, since counting them would cost a pass over the marks
    number: usize,
}

impl Model for Sides {
    ghost use Rattle.std.specs.Prelude.{List};
    ghost use Rattle.systems.specs.Sides.{Equation};
    ghost use Rattle.sides.specs.Marks.{Kept, equations_in};

    ghost Value = { List Equation };

    ghost view = { λ s. equations_in s.marks };

    ghost invariant = { λ s. Kept s.marks s.number };
}

impl Sides {
    // No equation yet, and room for all that may come.
    pub fn new(heap: Global) -> Result<Sides, AllocError>
        ensures { IfOk result (λ s. s ≡ []) }
    {
        Ok(Sides {
            marks: Marks::new(heap)?,
            spare: Marks::new(heap)?,
            number: 0,
        })
    }

    /// Forgets all equations.
    pub fn clear(&mut self)
        ensures { self.new ≡ [] }
    {
        self.marks.clear();
        self.number = 0;
    }

    /// Takes the sides of another in place of its own.
    pub fn copy_from(&mut self, other: &Sides)
        ensures { self.new ≡ other.now }
    {
        self.spare.clear();
        for mark in other.marks.as_slice() {
            put(&mut self.spare, *mark);
        }
        mem::swap(&mut self.marks, &mut self.spare);
        self.number = other.number;
    }

    // The places of all sides in order, with an end behind each side.
    pub fn marks(&self) -> &[Mark]
        ensures { result.now ≡ marks_of self.now }
    {
        self.marks.as_slice()
    }

    // How many places all sides have together.
    pub fn len(&self) -> usize
        ensures value { result ≡ places self.now }
        ensures bound { result ≤ 2048 }
        ensures few { length self.now ≤ 32 }
    {
        self.marks.len() - 2 * self.number
    }

    // Takes one more equation, where there is room.
    fn add(&mut self, left: &[u8], right: &[u8])
        requires few { length self.old < 32 }
        requires room { places self.old + (length left.now + length right.now) ≤ 2048 }
        ensures { self.new ≡ self.old ++ ((side_of left.now, side_of right.now) ∷ []) }
    {
        text::put_side(&mut self.marks, left);
        text::put_side(&mut self.marks, right);
        self.number += 1;
    }

    // Takes one more equation, or says why not and changes nothing.
    pub fn load(&mut self, left: &[u8], right: &[u8]) -> Result<(), LoadRefusal>
        ensures { MatchResult result
            (λ _. (load_refusal (only self.old) left.now right.now ≡ None) × (self.new ≡ (loaded_too (only self.old) left.now right.now).equations))
            (λ e. (load_refusal (only self.old) left.now right.now ≡ Some e) × (self.new ≡ self.old)) }
    {
        if !(text::is_text(left) && text::is_text(right)) {
            return Err(LoadRefusal::NoLetter);
        }
        if self.number >= MOST_EQUATIONS {
            return Err(LoadRefusal::TooManyEquations);
        }
        let more = left.len().saturating_add(right.len());
        if self.len().saturating_add(more) > MOST_LOADED {
            return Err(LoadRefusal::TooManyPlaces);
        }
        self.add(left, right);
        Ok(())
    }

    // How many places the variable x has: it is live where this is not 0, and a row in each of them changes the places accordingly.
    pub fn count(&self, x: u8) -> usize
        ensures value { result ≡ count_by (is_variable x) (all_places self.now) }
        ensures live { stands_in self.now x ≡ nat_lt 0 result }
        ensures replaced { (row : Side) → places (on_sides (swap x row) self.now) + result ≡ places self.now + result * length row }
        ensures bound { result ≤ 2048 }
        ensures few { places self.now ≤ 2048 }
    {
        passes::count(self.marks.as_slice(), x)
    }

    // The first variable, from A, that stands in a side.
    pub fn first_live(&self) -> Option<u8>
        ensures { First result (stands_in self.now) }
    {
        ends::least_variable(self.marks.as_slice())
    }

    // For each variable from A to Z, whether it stands in a side.
    pub fn variables(&self) -> [bool; 26]
        ensures { (x : ℕ) → x < 26 → slice_index_or result x false ≡ stands_in self.now x }
    {
        ends::variables(self.marks.as_slice())
    }

    // The first equation, counted from 1, whose two sides differ.
    pub fn first_unequal(&self) -> Option<usize>
        ensures value { FirstUnequal result self.now }
        ensures bound { IfSome result (λ k. k ≤ 32) }
    {
        ends::first_unequal(self.marks.as_slice(), self.number)
    }

    // Puts a row into each place of the variable x; or refuses and changes nothing, where over 2,048 places would stand then.
    pub fn replace_variable(&mut self, x: u8, row: &[Place]) -> Result<(), ChoiceRefusal>
        ensures { MatchResult result
            (λ _. (places (on_sides (swap x row.now) self.old) ≤ 2048) × (self.new ≡ on_sides (swap x row.now) self.old))
            (λ e. (2048 < places (on_sides (swap x row.now) self.old)) × (e ≡ TooManyPlaces) × (self.new ≡ self.old)) }
    {
        let count = self.count(x);
        let kept = self.len() - count;
        if kept.saturating_add(count.saturating_mul(row.len())) > MOST_PLACES {
            return Err(ChoiceRefusal::TooManyPlaces);
        }
        passes::put_swapped(&mut self.spare, self.marks.as_slice(), x, row);
        mem::swap(&mut self.marks, &mut self.spare);
        Ok(())
    }

    // Puts the letter `new` for each ab.
    pub fn replace_pairs(&mut self, a: u16, b: u16, new: u16)
        ensures { self.new ≡ on_sides (side_pairs a b new) self.old }
    {
        rows::put_pairs(
            &mut self.spare,
            &self.marks,
            Mark::At(Place::Letter(a)),
            Mark::At(Place::Letter(b)),
            Mark::At(Place::Letter(new)),
        );
        mem::swap(&mut self.marks, &mut self.spare);
    }

    // Puts the letter `new` for each maximal row of exactly n times a; does nothing where n is 0.
    pub fn replace_blocks(&mut self, a: u16, n: u32, new: u16)
        ensures { self.new ≡ (if nat_eq n 0 then self.old else on_sides (side_blocks a n new) self.old) }
    {
        let Some(n) = NonZeroU32::new(n) else {
            return;
        };
        rows::put_blocks(
            &mut self.spare,
            &self.marks,
            Mark::At(Place::Letter(a)),
            n,
            Mark::At(Place::Letter(new)),
        );
        mem::swap(&mut self.marks, &mut self.spare);
    }
}
