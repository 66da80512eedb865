// The letters a to z and the variables A to Z, by their numbers from 0.

ghost use Rattle.std.specs.Prelude.{◌≡◌, ◌<◌, ◌≤◌, map, MatchOption};
ghost use Rattle.std.specs.List.{range_with_len};

use std::alloc::AllocError;
use std::array;
use std::fmt::{self, Debug, Formatter};
use std::marker::PhantomData;

// How many symbols an alphabet has.
pub const SYMBOLS: usize = 26;

/// An alphabet, by what one of its symbols is called where it is printed for a programmer.
pub trait Alphabet {
    const NAME: &'static str;
}

// The alphabet a to z.
pub struct SmallLetters;

impl Alphabet for SmallLetters {
    const NAME: &'static str = "Letter";
}

// The alphabet A to Z.
pub struct Capitals;

impl Alphabet for Capitals {
    const NAME: &'static str = "Variable";
}

// One of the 26 symbols of an alphabet.
#[derive_where(Copy, PartialEq, Eq)]
pub struct Symbol<A> {
    number: u8,
    alphabet: PhantomData<A>,
    ghost ok: { number < 26 },
}

// Written out, since Clone cannot be derived for a struct of a type parameter that has a ghost field.
impl<A> Clone for Symbol<A> {
    ghost is_clone = { λ s t. t ≡ s };

    ghost is_infallible = { λ _. Unit {0} };

    fn clone(&self) -> Result<Symbol<A>, AllocError> {
        Ok(*self)
    }
}

// Written out, so that a symbol prints as one of its alphabet: `Letter { number: 3 }`.
impl<A: Alphabet> Debug for Symbol<A> {
    fn fmt<W: fmt::Write>(&self, f: &mut Formatter<W>) -> fmt::Result {
        f.debug_struct(A::NAME)
            .field("number", &self.number)
            .finish()
    }
}

impl<A> Symbol<A> {
    // The symbol of this number, if there is one.
    pub fn new(number: u8) -> Option<Symbol<A>>
        ensures { MatchOption result (26 ≤ number) (λ s. s.number ≡ number) }
    {
        if number < SYMBOLS as u8 {
            Some(Symbol {
                number,
                alphabet: PhantomData,
            })
        } else {
            None
        }
    }

    // All of them, in order.
    pub fn all() -> [Symbol<A>; SYMBOLS]
        ensures { map (λ s. s.number) result ≡ range_with_len 0 26 }
    {
        array::from_fn(
            |number| -> Symbol<A>
                requires { number < 26 }
            {
                Symbol {
                    number: number as u8,
                    alphabet: PhantomData,
                }
            },
        )
    }

    // Its number.
    pub fn number(self) -> u8
        ensures { (result ≡ self.number) × (result < 26) }
    {
        self.number
    }
}
