// What a word comes to under the length kind.

ghost use Rattle.std.specs.Prelude.{◌≤◌};

// A capped number: how many letters a word has, or 1,000,000 where it has more.
#[derive(Clone, Copy, PartialEq, Eq, Debug)]
pub struct Capped {
    pub count: u32,
    ghost ok: { count ≤ 1000000 },
}
