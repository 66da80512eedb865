// What is sought in the marks: the first variable, and the first equation whose sides differ.
ghost use Rattle.std.specs.Prelude.{◌≡◌, ℕ, ◌<◌, min, false, length, MatchOption, slice_index_or};
ghost use Rattle.std.specs.List.{after_first, before_first, filter_map, position, position_or_len, reduce};
ghost use Rattle.systems.specs.declared.Place.TheVariants.{Variable};
ghost use Rattle.systems.specs.Rows.{any};
ghost use Rattle.systems.specs.Sides.{is_variable};
ghost use Rattle.sides.specs.declared.mark.Mark.TheVariants.{At};
ghost use Rattle.sides.specs.Marks.{lifted, Whole, equations_in};
ghost use Rattle.sides.specs.Seeking.{any_variable_at, is_end, FirstUnequal};

use crate::mark::Mark;
use systems::Place;

// The last variable.
const Z: u8 = 25;

// The variable that stands here.
fn variable(mark: Mark) -> Option<u8>
    ensures { result ≡ any_variable_at mark }
{
    match mark {
        Mark::At(Place::Variable(x)) => Some(x),
        Mark::End | Mark::At(Place::Letter(_)) => None,
    }
}

// The least variable that stands in a place.
pub(crate) fn least_variable(marks: &[Mark]) -> Option<u8>
    ensures { result ≡ reduce min (filter_map any_variable_at marks.now) }
{
    marks.iter().filter_map(|mark| variable(*mark)).min()
}

// The variable that stands here, if it is one of A to Z.
fn capital(mark: Mark) -> Option<u8>
    ensures { MatchOption result
        ((y : ℕ) → y < 26 → lifted (is_variable y) mark ≡ false)
        (λ x. (x < 26) × (mark ≡ At (Variable x))) }
{
    match mark {
        Mark::At(Place::Variable(x)) => (x <= Z).then_some(x),
        Mark::End | Mark::At(Place::Letter(_)) => None,
    }
}

// For each variable from A to Z, whether it stands in a place.
pub(crate) fn variables(marks: &[Mark]) -> [bool; 26]
    ensures { (x : ℕ) → x < 26 → slice_index_or result x false ≡ any (lifted (is_variable x)) marks.now }
{
    let mut found = [false; 26];
    for mark in marks {
        if let Some(x) = capital(*mark) {
            found[usize::from(x)] = true;
        }
    }
    found
}

// Where the first side ends.
fn end(marks: &[Mark]) -> Option<usize>
    ensures { result ≡ position is_end marks.now }
{
    marks.iter().position(|mark| *mark == Mark::End)
}

// The first side, and what comes behind its end. (The cut of a line at a byte is alike, but no crate lies below both.)
fn split(marks: &[Mark]) -> (&[Mark], &[Mark])
    requires { position_or_len is_end marks.now < length marks.now }
    ensures first { result.0.now ≡ before_first is_end marks.now }
    ensures rest { result.1.now ≡ after_first is_end marks.now }
{
    let at = end(marks).unwrap();
    (&marks[..at], &marks[at + 1..])
}

// The first equation, counted from 1, whose two sides differ.
pub(crate) fn first_unequal(marks: &[Mark], number: usize) -> Option<usize>
    requires whole { Whole marks.now }
    requires counted { number ≡ length (equations_in marks.now) }
    ensures { FirstUnequal result (equations_in marks.now) }
{
    // no iterator of equations: it would be a type with laws of its own, for this loop alone
    let mut rest = marks;
    for k in 0..number {
        let (left, after) = split(rest);
        let (right, more) = split(after);
        if left != right {
            return Some(k + 1);
        }
        rest = more;
    }
    None
}
