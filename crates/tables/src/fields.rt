// A line cut into two or three fields.
ghost use Rattle.std.specs.Prelude.{◌≡◌, length, MatchOption, MatchResult, ◌≢◌};
ghost use Rattle.tables.specs.Fields.{InThree, InTwo, Three, Two, fields_of};

use crate::types::LineRefusal;
use text::Part;

// The byte that parts fields.
const SPACE: u8 = b' ';

// The two fields that a part is.
fn two_fields(whole: Part<'_>) -> Option<(Part<'_>, Part<'_>)>
    ensures { MatchOption result
        (length (fields_of whole.entry.bytes.now) ≢ 2)
        (λ p. Two whole.entry p.0 p.1) }
{
    let (first, second) = whole.take_field(SPACE)?;
    match second.take_field(SPACE) {
        Some(_) => None,
        None => Some((first, second)),
    }
}

// The fields of a line that must have two.
pub(crate) fn in_two(line: &[u8]) -> Result<(Part<'_>, Part<'_>), LineRefusal>
    ensures { MatchResult result (λ p. InTwo line.now p.0 p.1) (λ why. (why ≡ LineRefusal.FieldCount 2) × (length (fields_of line.now) ≢ 2)) }
{
    two_fields(Part::whole(line)).ok_or(LineRefusal::FieldCount { wanted: 2 })
}

// The fields of a line that must have three.
pub(crate) fn in_three(line: &[u8]) -> Result<(Part<'_>, Part<'_>, Part<'_>), LineRefusal>
    ensures { MatchResult result (λ p. InThree line.now p.0 p.1 p.2) (λ why. (why ≡ LineRefusal.FieldCount 3) × (length (fields_of line.now) ≢ 3)) }
{
    three_fields(Part::whole(line)).ok_or(LineRefusal::FieldCount { wanted: 3 })
}

// The three fields that a part is.
fn three_fields(whole: Part<'_>) -> Option<(Part<'_>, Part<'_>, Part<'_>)>
    ensures { MatchOption result
        (length (fields_of whole.entry.bytes.now) ≢ 3)
        (λ p. Three whole.entry p.0 p.1 p.2) }
{
    let (first, rest) = whole.take_field(SPACE)?;
    let (second, third) = two_fields(rest)?;
    Some((first, second, third))
}
