// The words that were popped.
ghost use Rattle.std.specs.Prelude.{◌≡◌, ◌+◌, ◌≤◌, ◌++◌, length};
ghost use Rattle.std.specs.Option.{option_to_list};
ghost use Rattle.systems.specs.Standings.{left_of, popped_word, right_of};
ghost use Rattle.checker.specs.Holding.{standing};
ghost use Rattle.checker.specs.Popped.{word_from};

use crate::store::Check;
use arrayvec::ArrayVec;
use stand::MOST_POPS;
use systems::Pop;

// The letters of a word. (A close lends one such list to each word in turn: a list of its own for each would be cleared and copied for each.)
pub(crate) type Letters = ArrayVec<u16, MOST_POPS>;

// The letter that this pop took at the left of x. (A function for either side, since a pattern is no value that a call could pass on.)
fn at_left(pop: Pop, x: u8) -> Option<u16>
    ensures { option_to_list result ≡ left_of x pop }
{
    match pop {
        Pop::AtLeft(y, a) if y == x => Some(a),
        _ => None,
    }
}

// And at the right.
fn at_right(pop: Pop, x: u8) -> Option<u16>
    ensures { option_to_list result ≡ right_of x pop }
{
    match pop {
        Pop::AtRight(y, a) if y == x => Some(a),
        _ => None,
    }
}

// Adds a letter, if there is one.
fn add(letters: &mut Letters, letter: Option<u16>)
    requires { length letters.old.items + length (option_to_list letter) ≤ 1024 }
    ensures { letters.new.items ≡ letters.old.items ++ option_to_list letter }
{
    if let Some(a) = letter {
        letters.push(a);
    }
}

// Puts the letters popped at the left of x in order, and behind them those popped at its right, the last first, in place of what the list held.
fn put_word(letters: &mut Letters, pops: &[Pop], x: u8)
    requires { length pops.now ≤ 1024 }
    ensures { letters.new.items ≡ word_from pops.now x }
{
    letters.clear();
    for pop in pops {
        add(letters, at_left(*pop, x));
    }
    for pop in pops.iter().rev() {
        add(letters, at_right(*pop, x));
    }
}

impl Check {
    // Puts the word of x that was popped in place of what the list held.
    pub(crate) fn put_word(&self, letters: &mut Letters, x: u8)
        ensures { letters.new.items ≡ popped_word (standing self.now) x }
    {
        put_word(letters, self.stand.pops(), x);
    }
}
