ghost use Rattle.std.specs.Prelude.{◌≡◌};
ghost use Rattle.tables.specs.Names.{names as names_of, next_table};
ghost use Rattle.tables.specs.Numbers.{line_number};

use model::name::VariableName;
use thiserror::Error;

/// The fewest letters that a variable's word may have where the second table does not list the variable.
pub const UNLISTED_LEAST: u32 = 0;

/// The most letters that a variable's word may have where the second table does not list the variable.
pub const UNLISTED_MOST: u32 = 1_000_000;

/// One of the three tables, in the order in which they stand.
#[derive(Clone, Copy, PartialEq, Eq, Debug)]
pub enum Table {
    /// the two sides of each equation
    Equations,
    /// the least and the most letters of variables
    Limits,
    /// the choices
    Choices,
}

impl Table {
    /// The line of names with which the table begins.
    pub fn names(self) -> &'static [u8]
        ensures { result.now ≡ names_of self }
    {
        match self {
            Table::Equations => b"left right",
            Table::Limits => b"variable least most",
            Table::Choices => b"do name with",
        }
    }

    /// The table that comes behind it, with an empty line between them.
    pub fn next(self) -> Option<Table>
        ensures { result ≡ next_table self }
    {
        match self {
            Table::Equations => Some(Table::Limits),
            Table::Limits => Some(Table::Choices),
            Table::Choices => None,
        }
    }
}

/// A row of the second table: the least and the most letters that the word of a variable, from A as 0, may have.
#[derive(Clone, Copy, PartialEq, Eq, Debug)]
pub struct Limit {
    pub variable: u8,
    pub least: u32,
    pub most: u32,
}

/// Why a line is not read.
#[derive(Clone, Copy, PartialEq, Eq, Debug, Error)]
pub enum LineRefusal {
    /// the line is not the names line of this table, or is missing
    #[error("the line must be `{table}`", table = title(.0))]
    Names(Table),
    /// the line has not so many fields
    #[error("the line must have {wanted} fields, parted by one space each")]
    FieldCount { wanted: usize },
    /// the field that begins behind so many bytes of the line is empty or cannot be read
    #[error("the field behind {place} bytes of the line is empty or cannot be read")]
    Unreadable { place: usize },
    /// the variable is listed in a line before
    #[error("the variable {} is listed in a line before", VariableName(*.0))]
    ListedTwice(u8),
}

impl LineRefusal {
    /// The refusal's number.
    pub fn number(self) -> u8
        ensures { result ≡ line_number self }
    {
        match self {
            LineRefusal::Names(_) => 41,
            LineRefusal::FieldCount { .. } => 42,
            LineRefusal::Unreadable { .. } | LineRefusal::ListedTwice(_) => 43,
        }
    }
}

// The names line of a table, for a message.
fn title(table: &Table) -> &'static str {
    match table {
        Table::Equations => "left right",
        Table::Limits => "variable least most",
        Table::Choices => "do name with",
    }
}
