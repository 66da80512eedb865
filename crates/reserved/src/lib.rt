// Lists whose room is reserved once: what is added later needs no memory.

#![tactic(auto)]

ghost use Rattle.std.specs.Prelude.{◌≡◌, ◌+◌, ◌<◌, ◌≤◌, List, [], ◌∷◌, ◌++◌, length, vec_len, vec_capacity, IfOk, MatchOption, MatchResult, slice_get, option_copied};

use std::alloc::{AllocError, Global};
use std::marker::Model;
use thiserror::Error;

/// Why an item is not added: as many items are there as may be.
#[derive(Clone, Copy, PartialEq, Eq, Debug, Error)]
#[error("the list is full")]
pub struct Full;

// At most N items, in the order in which they came.
#[derive(Drop)]
pub struct Reserved<T, const N: usize> {
    items: Vec<T>,
}

impl<T, const N: usize> Model for Reserved<T, N> {
    ghost Value = { List T };

    ghost view = { λ r. r.items.items };

    ghost invariant = { λ r. (vec_len r.items ≤ N) × (N ≤ vec_capacity r.items) };
}

impl<T, const N: usize> Reserved<T, N> {
    // No item yet, and room for all that may come.
    pub fn new(heap: Global) -> Result<Reserved<T, N>, AllocError>
        ensures { IfOk result (λ r. r ≡ []) }
    {
        Ok(Reserved {
            items: Vec::with_capacity(heap, N)?,
        })
    }

    // How many items there are.
    pub fn len(&self) -> usize
        ensures value { result ≡ length self.now }
        ensures bound { result ≤ N }
    {
        self.items.len()
    }

    // The items.
    pub fn as_slice(&self) -> &[T]
        ensures value { result.now ≡ self.now }
        ensures bound { length result.now ≤ N }
    {
        self.items.as_slice()
    }

    // The item at a place, if there is one.
    pub fn get(&self, place: usize) -> Option<&T>
        ensures { option_copied result ≡ slice_get self.now place }
    {
        self.items.get(place)
    }

    // Takes the last item off, if there is one.
    pub fn pop(&mut self) -> Option<T>
        ensures { MatchOption result
            ((self.old ≡ []) × (self.new ≡ []))
            (λ x. self.old ≡ self.new ++ x ∷ []) }
    {
        self.items.pop()
    }

    // Takes the first item off, if there is one: the others move up, each to the place before its own.
    pub fn pop_first(&mut self) -> Option<T>
        ensures { MatchOption result
            ((self.old ≡ []) × (self.new ≡ []))
            (λ x. self.old ≡ x ∷ self.new) }
    {
        if self.items.is_empty() {
            return None;
        }
        Some(self.items.remove(0))
    }
}

impl<T: Drop, const N: usize> Reserved<T, N> {
    // Adds an item behind the others, or changes nothing where N are there.
    pub fn push(&mut self, item: T) -> Result<(), Full>
        ensures { MatchResult result
            (λ _. (length self.old < N) × (self.new ≡ self.old ++ item ∷ []))
            (λ _. (length self.old ≡ N) × (self.new ≡ self.old)) }
    {
        if self.items.len() >= N {
            return Err(Full);
        }
        self.items.push_reserved(item);
        Ok(())
    }

    // Forgets all items.
    pub fn clear(&mut self)
        ensures { self.new ≡ [] }
    {
        self.items.clear();
    }
}

#[cfg(test)]
mod tests;
