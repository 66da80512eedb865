// Sets of letters or of variables, as numbers whose bit n stands for the number n.

ghost use Rattle.std.specs.Prelude.{◌≡◌, ◌^◌, ◌<◌, ◌≤◌, MatchResult};
ghost use Rattle.measure.specs.Sets.{holds, set_number};

use thiserror::Error;

// The first number that is no such set, having a bit past the first 26.
pub const SETS: u32 = 0x400_0000;

/// Why a number is not taken for a set.
#[derive(Clone, Copy, PartialEq, Eq, Debug, Error)]
pub enum SetRefusal {
    /// it has a bit past the first 26
    #[error("the set has a bit past the first 26")]
    Beyond26Bits = 83,
}

impl SetRefusal {
    /// The refusal's number.
    pub fn number(self) -> u8
        ensures { result ≡ set_number self }
    {
        self as u8
    }
}

// Refuses what is no set. (A type of sets would be taken apart again: callers hand over numbers, and the contracts of kinds name them.)
pub fn check_set(set: u32) -> Result<(), SetRefusal>
    ensures { MatchResult result (λ _. set < 2 ^ 26) (λ e. (set_number e ≡ 83) × (2 ^ 26 ≤ set)) }
{
    if set < SETS {
        Ok(())
    } else {
        Err(SetRefusal::Beyond26Bits)
    }
}

// Whether the number is in the set.
pub fn has(set: u32, number: u8) -> bool
    ensures { result ≡ holds set number }
{
    set.checked_shr(u32::from(number))
        .is_some_and(|rest| rest % 2 == 1)
}
