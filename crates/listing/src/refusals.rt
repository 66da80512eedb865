ghost use Rattle.std.specs.Prelude.{◌≡◌};
ghost use Rattle.listing.specs.Refusals.{print_number, read_number};

use thiserror::Error;

/// Why a witness is not printed, by its number.
#[derive(Clone, Copy, PartialEq, Eq, Debug, Error)]
pub enum PrintRefusal {
    /// under 20,000 bytes
    #[error("the buffer has fewer than 20,000 bytes")]
    BufferTooShort = 71,
}

/// Why a text is not read.
#[derive(Clone, Copy, PartialEq, Eq, Debug, Error)]
pub enum ReadRefusal {
    /// the first line, from 1, that no listing has there
    #[error("line {line} is none that a listing has there")]
    NotListing { line: usize },
}

impl PrintRefusal {
    /// The refusal's number.
    pub fn number(self) -> u8
        ensures { result ≡ print_number self }
    {
        self as u8
    }
}

impl ReadRefusal {
    /// The refusal's number.
    // A match, since an enum with a field in a case has no numbers to cast.
    pub fn number(self) -> u8
        ensures { result ≡ read_number self }
    {
        match self {
            ReadRefusal::NotListing { .. } => 72,
        }
    }
}
