// A line of the second table.
ghost use Rattle.std.specs.Prelude.{◌≡◌, ◌^◌, decimal, None, Some, MatchResult};
ghost use Rattle.text.specs.Reading.{Below, Reads};
ghost use Rattle.tables.specs.Reading.{IsRow, NoRow};
ghost use Rattle.tables.specs.Rows.{IsLimit, limit_fields};

use crate::fields::in_three;
use crate::types::{Limit, LineRefusal};
use text::{Part, Token, number, token_of, variable};

// Numbers have fewer than eight digits.
const SEVEN_DIGITS: u64 = 10_000_000;

// The number below 10^7 whose decimal a field is.
pub(crate) fn small_number(field: Part<'_>) -> Option<u32>
    ensures { Reads (Below (10 ^ 7)) decimal field.entry.bytes.now result }
{
    let Token::Number(digits) = token_of(field) else {
        return None;
    };
    let n = number(digits.bytes)?;
    if n < SEVEN_DIGITS {
        Some(n as u32)
    } else {
        None
    }
}

// What is read from a field, or where the field stands from which nothing is read.
pub(crate) fn readable<T: Drop>(read: Option<T>, field: Part<'_>) -> Result<T, LineRefusal>
    ensures { MatchResult result (λ x. read ≡ Some x) (λ why. (read ≡ None) × (why ≡ LineRefusal.Unreadable field.entry.place)) }
{
    read.ok_or(LineRefusal::Unreadable { place: field.place })
}

/// The row of the second table that a line is, or why it is none: it has not three fields, or one of them cannot be read.
pub fn read_limit(line: &[u8]) -> Result<Limit, LineRefusal>
    ensures { MatchResult result
        (IsRow IsLimit limit_fields line.now)
        (NoRow 3 IsLimit limit_fields line.now) }
{
    let (first, second, third) = in_three(line)?;
    let variable = readable(variable(first.bytes), first)?;
    let least = readable(small_number(second), second)?;
    let most = readable(small_number(third), third)?;
    Ok(Limit {
        variable,
        least,
        most,
    })
}
