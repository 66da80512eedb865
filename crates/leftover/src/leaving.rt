// What a choice leaves of the words and of the filled-in sides.
ghost use Rattle.std.specs.Prelude.{◌≡◌, ℕ, ◌+◌, ◌<◌, false, is_some, None, map, min, nat_eq, if◌then◌else◌, option_copied, slice_index_or, slice_set};
ghost use Rattle.std.specs.Option.{option_map};
ghost use Rattle.systems.specs.Rows.{any};
ghost use Rattle.systems.specs.Sides.{on_sides};
ghost use Rattle.sides.specs.Marks.{marks_of};
ghost use Rattle.writing.specs.Writer.{first, front, rest, variables};
ghost use Rattle.leftover.specs.Leaving.{begins_with, ends_with, is_emptied, joined_side, joined_word, length_of, two_of};
ghost use Rattle.leftover.specs.Noting.{mark_rows};

use crate::lengths::{Lengths, lengths_in};
use crate::store::{Leftover, Z};
use model::Rule;
use sides::Sides;

impl Leftover {
    // What is left of the word of x, where x is live.
    fn word(&self, x: u8) -> Option<&[u16]>
        ensures { option_copied result ≡ slice_index_or self.now.words x None }
    {
        self.words.get(usize::from(x))?.word()
    }

    // The sides with the words filled in, as equations without a variable.
    pub fn filled(&self) -> &Sides
        ensures { result.now ≡ self.now.filled }
    {
        &self.filled
    }

    // How many letters are left of the word of x.
    pub fn letters(&self, x: u8) -> usize
        ensures { result ≡ length_of (slice_index_or self.now.words x None) }
    {
        match self.word(x) {
            Some(word) => word.len(),
            None => 0,
        }
    }

    // For each length of 1 to 512, whether a maximal row of a in a filled-in side has it.
    pub fn lengths(&self, a: u16) -> Lengths
        ensures { (n : ℕ) → n < 513 → slice_index_or result n false ≡ any (nat_eq n) (mark_rows a 0 (marks_of self.now.filled)) }
    {
        lengths_in(self.filled.marks(), a)
    }

    // The first live variable.
    pub fn first_live(&self) -> Option<u8>
        ensures { result ≡ first (λ x. is_some (slice_index_or self.now.words x None)) variables }
    {
        for x in 0..26 {
            if self.words[usize::from(x)].word().is_some() {
                return Some(x);
            }
        }
        None
    }

    // The first letter of the word of x and the second, as far as there are such.
    pub fn first_two(&self, x: u8) -> Option<(u16, Option<u16>)>
        ensures { result ≡ two_of (slice_index_or self.now.words x None) }
    {
        match self.word(x)? {
            [] => None,
            [a] => Some((*a, None)),
            [a, b, ..] => Some((*a, Some(*b))),
        }
    }

    // Pops a first letter a of the word of x, if that begins with a; answers whether it does.
    pub fn pop_first(&mut self, x: u8, a: u16) -> bool
        ensures answer { result ≡ begins_with a (slice_index_or self.old.words x None) }
        ensures words { self.new.words ≡ (if result then slice_set self.old.words x (option_map rest (slice_index_or self.old.words x None)) else self.old.words) }
        ensures filled { self.new.filled ≡ self.old.filled }
        ensures fresh { self.new.fresh ≡ self.old.fresh }
    {
        if x > Z {
            return false;
        }
        self.words[usize::from(x)].pop_first(a)
    }

    // Pops a last letter a of the word of x, if that ends with a; answers whether it does.
    pub fn pop_last(&mut self, x: u8, a: u16) -> bool
        ensures answer { result ≡ ends_with a (slice_index_or self.old.words x None) }
        ensures words { self.new.words ≡ (if result then slice_set self.old.words x (option_map front (slice_index_or self.old.words x None)) else self.old.words) }
        ensures filled { self.new.filled ≡ self.old.filled }
        ensures fresh { self.new.fresh ≡ self.old.fresh }
    {
        if x > Z {
            return false;
        }
        self.words[usize::from(x)].pop_last(a)
    }

    // Erases x if its word is empty; answers whether it is.
    pub fn erase_empty(&mut self, x: u8) -> bool
        ensures answer { result ≡ is_emptied (slice_index_or self.old.words x None) }
        ensures words { self.new.words ≡ (if result then slice_set self.old.words x None else self.old.words) }
        ensures filled { self.new.filled ≡ self.old.filled }
        ensures fresh { self.new.fresh ≡ self.old.fresh }
    {
        if x > Z {
            return false;
        }
        self.words[usize::from(x)].erase_empty()
    }

    // Joins in what is left of the word of x.
    fn join_in_word(&mut self, x: u8, rule: Rule)
        requires { x < 26 }
        ensures words { self.new.words ≡ slice_set self.old.words x (option_map (joined_word rule self.old.fresh) (slice_index_or self.old.words x None)) }
        ensures filled { self.new.filled ≡ self.old.filled }
        ensures fresh { self.new.fresh ≡ self.old.fresh }
    {
        self.words[usize::from(x)].join(&mut self.spare, rule, self.fresh);
    }

    // Joins in the filled-in sides.
    fn join_in_sides(&mut self, rule: Rule)
        ensures words { self.new.words ≡ self.old.words }
        ensures filled { self.new.filled ≡ on_sides (joined_side rule self.old.fresh) self.old.filled }
        ensures fresh { self.new.fresh ≡ self.old.fresh }
    {
        match rule {
            Rule::Pair(a, b) => self.filled.replace_pairs(a, b, self.fresh),
            Rule::Block(a, n) => self.filled.replace_blocks(a, n, self.fresh),
        }
    }

    // Makes the next letter by a rule, and joins what is left of each word and the filled-in sides. (The last number stays the next, since no list makes
    // so many letters.)
    pub fn join(&mut self, rule: Rule)
        ensures words { self.new.words ≡ map (option_map (joined_word rule self.old.fresh)) self.old.words }
        ensures filled { self.new.filled ≡ on_sides (joined_side rule self.old.fresh) self.old.filled }
        ensures fresh { self.new.fresh ≡ min (self.old.fresh + 1) 65535 }
    {
        for x in 0..26 {
            self.join_in_word(x, rule);
        }
        self.join_in_sides(rule);
        self.fresh = self.fresh.saturating_add(1);
    }
}
