ghost use Rattle.std.specs.Prelude.{◌≡◌, ℕ, ◌+◌, ◌<◌, true, reverse, length, slice_index};
ghost use Rattle.model.specs.Spelling.{spell};
ghost use Rattle.model.specs.Witnesses.{rules_fit};

use model::Rule;
use reserved::Reserved;

// No more rules are made.
pub(crate) const MOST_RULES: usize = 512;

// The rules, the oldest first, and the length of what each rule's letter spells.
// The lengths stand in a list of their own, since the rules are lent as one slice. That the rules fit is said by a ghost field and not hidden in a
// model,
// so that whoever holds letters has it.
#[derive(Drop)]
pub struct Letters {
    pub(crate) rules: Reserved<Rule, MOST_RULES>,
    pub(crate) lengths: Reserved<u64, MOST_RULES>,
    ghost level: { length lengths ≡ length rules },
    ghost fit: { rules_fit (reverse rules) ≡ true },
    ghost measured: { (i : ℕ) → i < length rules → slice_index lengths i ≡ length (spell (reverse rules) (26 + i)) },
}
