// What is left of one variable's word.
ghost use Rattle.std.specs.Prelude.{◌≡◌, ◌-◌, ◌≤◌, map, length, Some, None, IfOk, if◌then◌else◌, option_copied};
ghost use Rattle.std.specs.Option.{option_map};
ghost use Rattle.writing.specs.Writer.{begins, ends, front, rest};
ghost use Rattle.leftover.specs.Leaving.{begins_with, ends_with, is_emptied, joined_word};

use crate::store::MOST_LETTERS;
use model::Rule;
use reserved::Reserved;
use std::alloc::{AllocError, Global};
use std::marker::Model;
use std::mem;
use std::num::NonZeroU32;

// The letters of a word.
pub(crate) type Word = Reserved<u16, MOST_LETTERS>;

// What is left of a variable's word, or nothing where the variable is not live. (Not an Option of a word, whose memory would go with the word.)
#[derive(Drop)]
pub(crate) struct WordSlot {
    live: bool,
    letters: Word,
}

impl Model for WordSlot {
    ghost use Rattle.std.specs.Prelude.{ℕ, List, Option, cond, Some, None};

    ghost Value = { Option (List ℕ) };

    ghost view = { λ s. cond s.live (Some s.letters) None };
}

// Takes off a first letter a, if there is one; answers whether there is.
fn take_first(word: &mut Word, a: u16) -> bool
    ensures answer { result ≡ begins a word.old }
    ensures word { word.new ≡ (if result then rest word.old else word.old) }
{
    match word.as_slice() {
        [first, ..] if *first == a => {
            word.pop_first();
            true
        }
        _ => false,
    }
}

// Takes off a last letter a, if there is one; answers whether there is.
#[tactic(auto, using(crate::proofs::Words::ends_at, crate::proofs::Words::front_of))]
fn take_last(word: &mut Word, a: u16) -> bool
    ensures answer { result ≡ ends a word.old }
    ensures word { word.new ≡ (if result then front word.old else word.old) }
{
    match word.as_slice() {
        [.., last] if *last == a => {
            word.pop();
            true
        }
        _ => false,
    }
}

// Joins in a word; the spare one takes the letters that stood there.
fn join_in(word: &mut Word, spare: &mut Word, rule: Rule, fresh: u16)
    ensures { word.new ≡ joined_word rule fresh word.old }
{
    match rule {
        Rule::Pair(a, b) => rows::put_pairs(spare, word, a, b, fresh),
        Rule::Block(a, n) => {
            let Some(n) = NonZeroU32::new(n) else {
                return;
            };
            rows::put_blocks(spare, word, a, n, fresh);
        }
    }
    mem::swap(word, spare);
}

// Reads the word that bytes a to z spell.
fn read_in(word: &mut Word, bytes: &[u8])
    requires { length bytes.now ≤ 512 }
    ensures { word.new ≡ map (λ b. b - 97) bytes.now }
{
    word.clear();
    for byte in bytes {
        word.push(u16::from(byte.saturating_sub(b'a'))).unwrap();
    }
}

impl WordSlot {
    // Not live, and room for all letters that may come.
    pub(crate) fn new(heap: Global) -> Result<WordSlot, AllocError>
        ensures { IfOk result (λ s. s ≡ None) }
    {
        Ok(WordSlot {
            live: false,
            letters: Word::new(heap)?,
        })
    }

    // What is left of the word, where the variable is live.
    pub(crate) fn word(&self) -> Option<&[u16]>
        ensures { option_copied result ≡ self.now }
    {
        if self.live {
            Some(self.letters.as_slice())
        } else {
            None
        }
    }

    // The variable is not live.
    pub(crate) fn clear(&mut self)
        ensures { self.new ≡ None }
    {
        self.live = false;
    }

    // The variable is live, and its word is the one that bytes a to z spell.
    pub(crate) fn read(&mut self, bytes: &[u8])
        requires { length bytes.now ≤ 512 }
        ensures { self.new ≡ Some (map (λ b. b - 97) bytes.now) }
    {
        read_in(&mut self.letters, bytes);
        self.live = true;
    }

    // Takes off a first letter a, if there is one; answers whether there is.
    pub(crate) fn pop_first(&mut self, a: u16) -> bool
        ensures answer { result ≡ begins_with a self.old }
        ensures word { self.new ≡ (if result then option_map rest self.old else self.old) }
    {
        self.live && take_first(&mut self.letters, a)
    }

    // Takes off a last letter a, if there is one; answers whether there is.
    pub(crate) fn pop_last(&mut self, a: u16) -> bool
        ensures answer { result ≡ ends_with a self.old }
        ensures word { self.new ≡ (if result then option_map front self.old else self.old) }
    {
        self.live && take_last(&mut self.letters, a)
    }

    // Ends the variable's life if its word is empty; answers whether it is.
    pub(crate) fn erase_empty(&mut self) -> bool
        ensures answer { result ≡ is_emptied self.old }
        ensures word { self.new ≡ (if result then None else self.old) }
    {
        if self.live && self.letters.len() == 0 {
            self.live = false;
            return true;
        }
        false
    }

    // Joins in what is left of the word; the spare one takes the letters that stood there.
    pub(crate) fn join(&mut self, spare: &mut Word, rule: Rule, fresh: u16)
        ensures { self.new ≡ option_map (joined_word rule fresh) self.old }
    {
        if self.live {
            join_in(&mut self.letters, spare, rule, fresh);
        }
    }
}
