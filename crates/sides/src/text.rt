// Sides as text.
ghost use Rattle.std.specs.Prelude.{◌≡◌, ◌+◌, ◌<◌, ◌≤◌, [], ◌∷◌, ◌++◌, map, length, is_some};
ghost use Rattle.systems.specs.Loading.{place_of, readable, side_of};

use crate::mark::{Mark, Marks, put};
use systems::Place;

// The place that a byte stands for.
fn read(b: u8) -> Option<Place>
    ensures { result ≡ place_of b }
{
    match char::from(b) {
        'a'..='z' => Some(Place::Letter(u16::from(b - b'a'))),
        'A'..='Z' => Some(Place::Variable(b - b'A')),
        _ => None,
    }
}

// Whether the byte stands for a place. (Asked of the byte alone: no place is made for the answer.)
fn is_readable(b: u8) -> bool
    ensures { result ≡ is_some (place_of b) }
{
    matches!(char::from(b), 'a'..='z' | 'A'..='Z')
}

// Whether every byte stands for a place.
pub(crate) fn is_text(bytes: &[u8]) -> bool
    ensures { result ≡ readable bytes.now }
{
    bytes.iter().all(|b| is_readable(*b))
}

// Writes the side that the bytes stand for, and its end.
pub(crate) fn put_side(out: &mut Marks, bytes: &[u8])
    requires room { length out.old + length bytes.now < 2112 }
    ensures items { out.new ≡ out.old ++ (map Mark.At (side_of bytes.now) ++ (Mark.End ∷ [])) }
    ensures bound { length out.new ≤ length out.old + length bytes.now + 1 }
{
    for b in bytes {
        if let Some(place) = read(*b) {
            put(out, Mark::At(place));
        }
    }
    put(out, Mark::End);
}
