// A line of the first table.
ghost use Rattle.std.specs.Prelude.{◌≡◌, [], codes, MatchOption, MatchResult, ◌≢◌};
ghost use Rattle.tables.specs.Reading.{IsRow, NoRow};
ghost use Rattle.tables.specs.Rows.{IsEquation, equation_fields, side_text};

use crate::fields::in_two;
use crate::types::LineRefusal;
use text::Part;

/// A row of the first table: the bytes of the two sides of an equation.
#[derive(Clone, Copy, PartialEq, Eq, Debug)]
pub struct Equation<'a> {
    pub left: &'a [u8],
    pub right: &'a [u8],
}

// The side that a field is, none where the field is empty.
fn side_of(field: Part<'_>) -> Option<&[u8]>
    ensures { MatchOption result
        (field.entry.bytes.now ≡ [])
        (λ side. (field.entry.bytes.now ≡ side_text side.now) × (side.now ≢ codes "-")) }
{
    match field.bytes {
        [] => None,
        [b'-'] => Some(&field.bytes[1..]),
        bytes => Some(bytes),
    }
}

// The side that a field is, or where the field stands that is none.
fn read_side(field: Part<'_>) -> Result<&[u8], LineRefusal>
    ensures { MatchResult result
        (λ side. (field.entry.bytes.now ≡ side_text side.now) × (side.now ≢ codes "-"))
        (λ why. (field.entry.bytes.now ≡ []) × (why ≡ LineRefusal.Unreadable field.entry.place)) }
{
    side_of(field).ok_or(LineRefusal::Unreadable { place: field.place })
}

/// The row of the first table that a line is, or why it is none: it has not two fields, or one of them is empty.
pub fn read_equation(line: &[u8]) -> Result<Equation<'_>, LineRefusal>
    ensures { MatchResult result
        (λ e. IsRow IsEquation equation_fields line.now (e.left.now, e.right.now))
        (NoRow 2 IsEquation equation_fields line.now) }
{
    let (first, second) = in_two(line)?;
    let left = read_side(first)?;
    let right = read_side(second)?;
    Ok(Equation { left, right })
}
