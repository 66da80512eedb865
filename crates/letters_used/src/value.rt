// What a word comes to under the letters-used kind.

ghost use Rattle.std.specs.Prelude.{◌^◌, ◌<◌};

// A letter set: bit a stands for the letter a.
#[derive(Clone, Copy, PartialEq, Eq, Debug)]
pub struct LetterSet {
    pub bits: u32,
    ghost ok: { bits < 2 ^ 26 },
}
