// What is asked of the marks, and the pass that puts a row in each place of a variable.
// It writes what the marks become into a second list, since no memory is asked for after `new`; the other passes do the same, in the crate `rows`.
ghost use Rattle.std.specs.Prelude.{◌≡◌, ◌+◌, ◌≤◌, ◌++◌, map, length};
ghost use Rattle.systems.specs.Sides.{is_variable};
ghost use Rattle.sides.specs.Marks.{lifted, mark_swap, count_of};

use crate::mark::{Mark, Marks, put};
use systems::Place;

// Whether the variable x stands here. (A match and no ==, which is compiled to a branch for each layer of a mark: on mixed marks none of them can be
// foreseen.)
fn is_variable(mark: Mark, x: u8) -> bool
    ensures { result ≡ lifted (is_variable x) mark }
{
    match mark {
        Mark::At(Place::Variable(y)) => x == y,
        Mark::End | Mark::At(Place::Letter(_)) => false,
    }
}

// How many places the variable x has. (A sum and no count of a filter, for the same reason.)
pub(crate) fn count(marks: &[Mark], x: u8) -> usize
    ensures value { result ≡ count_of x marks.now }
    ensures bound { result ≤ length marks.now }
{
    let mut n = 0;
    for mark in marks {
        n += usize::from(is_variable(*mark, x));
    }
    n
}

// Writes a row of places.
fn put_row(out: &mut Marks, row: &[Place])
    requires room { length out.old + length row.now ≤ 2112 }
    ensures { out.new ≡ out.old ++ map Mark.At row.now }
{
    for place in row {
        put(out, Mark::At(*place));
    }
}

// The marks, with a row in each place of the variable x.
pub(crate) fn put_swapped(out: &mut Marks, marks: &[Mark], x: u8, row: &[Place])
    requires room { length (mark_swap x row.now marks.now) ≤ 2112 }
    ensures { out.new ≡ mark_swap x row.now marks.now }
{
    out.clear();
    for mark in marks {
        if is_variable(*mark, x) {
            put_row(out, row);
        } else {
            put(out, *mark);
        }
    }
}
