// What a word comes to under the machine kind.

ghost use Rattle.std.specs.Prelude.{◌≡◌, ℕ, ◌<◌, length, slice_index};

// A state map: the state that a word leads to from each state.
#[derive(Clone, Copy, PartialEq, Eq, Debug)]
pub struct StateMap {
    pub to: [u8; 8],
    ghost ok: { (length to ≡ 8) × ((s : ℕ) → s < 8 → slice_index to s < 8) },
}
