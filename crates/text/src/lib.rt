// Fields of a line, tokens that hold their part of the input, numbers and names.

#![tactic(auto)]

mod part;

ghost use Rattle.std.specs.Prelude.{◌≡◌, ◌+◌, ◌^◌, true, [], ◌∷◌, ◌++◌, decimal, MatchOption};
ghost use Rattle.text.specs.Digits.{Shaped, value_on};
ghost use Rattle.text.specs.Names.{letter_name, variable_name};
ghost use Rattle.text.specs.Pieces.{free};
ghost use Rattle.text.specs.Reading.{Below, Reads};
ghost use Rattle.text.specs.Parts.{Cuts};
ghost use Rattle.text.specs.Tokens.{Holds};

pub use part::{Part, Token};

// What stands before the first `end` and after it, if there is one.
pub fn take_field(line: &[u8], end: u8) -> Option<(&[u8], &[u8])>
    ensures { MatchOption result
        (free end line.now ≡ true)
        (λ p. (free end p.0.now ≡ true) × (line.now ≡ p.0.now ++ end ∷ p.1.now)) }
{
    let at = line.iter().position(|b| *b == end)?;
    Some((&line[..at], &line[at + 1..]))
}

impl<'a> Part<'a> {
    /// The whole of a line, at the place 0.
    pub fn whole(line: &'a [u8]) -> Part<'a>
        ensures bytes { result.bytes.now ≡ line.now }
        ensures place { result.place ≡ 0 }
    {
        Part {
            bytes: line,
            place: 0,
        }
    }

    /// One field off a line: what stands before the first `end`, and what stands behind it, if there is one. Both have their places in the line.
    pub fn take_field(self, end: u8) -> Option<(Part<'a>, Part<'a>)>
        ensures { MatchOption result (free end self.entry.bytes.now ≡ true) (Cuts end self.entry) }
    {
        let (field, rest) = take_field(self.bytes, end)?;
        let behind = self.place + field.len() + 1;
        Some((
            Part {
                bytes: field,
                place: self.place,
            },
            Part {
                bytes: rest,
                place: behind,
            },
        ))
    }
}

/// The token that a field is.
pub fn token_of(field: Part<'_>) -> Token<'_>
    ensures { Holds result field.entry }
{
    match field.bytes {
        [b'#', digits @ ..] => Token::LetterName(Part {
            bytes: digits,
            place: field.place + 1,
        }),
        [b'0'..=b'9', ..] => Token::Number(field),
        _ => Token::Word(field),
    }
}

// The number that digits write, at most sixteen and with no zero in front of others. (Digit by digit: `parse` takes digits of any number, and a + in
// front.)
fn value_of(digits: &[u8]) -> Option<u64>
    ensures { MatchOption result (Shaped digits.now → ⊥) (λ n. Shaped digits.now × (n ≡ value_on 0 digits.now)) }
{
    if digits.len() > 16 || matches!(digits, [b'0', _, ..]) {
        return None;
    }
    let mut n: u64 = 0;
    for d in digits {
        match *d {
            b'0'..=b'9' => n = n * 10 + u64::from(*d - b'0'),
            _ => return None,
        }
    }
    Some(n)
}

// The number below 10^16 whose decimal the field is.
pub fn number(field: &[u8]) -> Option<u64>
    ensures { Reads (Below (10 ^ 16)) decimal field.now result }
{
    match token_of(Part::whole(field)) {
        Token::Number(digits) => value_of(digits.bytes),
        _ => None,
    }
}

// How far behind `first` the only byte of a field stands, if that is below 26.
fn alphabet_place(field: &[u8], first: u8) -> Option<u8>
    ensures { Reads (Below 26) (λ place. (first + place) ∷ []) field.now result }
{
    let [byte] = field else {
        return None;
    };
    byte.checked_sub(first).filter(|place| *place < 26)
}

// The letter a to z that a field without # names.
fn basic(field: &[u8]) -> Option<u16>
    ensures { Reads (Below 26) letter_name field.now result }
{
    alphabet_place(field, b'a').map(u16::from)
}

// The made letter that the digits after a # name.
fn made(digits: &[u8]) -> Option<u16>
    ensures { Reads (Below 538) letter_name (35 ∷ digits.now) result }
{
    let a = u16::try_from(number(digits)?).ok()?;
    (26..538).contains(&a).then_some(a)
}

// The letter below 538 whose name the field is.
pub fn letter(field: &[u8]) -> Option<u16>
    ensures { Reads (Below 538) letter_name field.now result }
{
    match token_of(Part::whole(field)) {
        Token::LetterName(digits) => made(digits.bytes),
        Token::Word(name) => basic(name.bytes),
        Token::Number(_) => None,
    }
}

// The variable whose name the field is.
pub fn variable(field: &[u8]) -> Option<u8>
    ensures { Reads (Below 26) variable_name field.now result }
{
    alphabet_place(field, b'A')
}
