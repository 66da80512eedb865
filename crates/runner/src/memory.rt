ghost use Rattle.std.specs.Prelude.{◌≡◌, true, is_some, vec_len};

use checker::System;
use length::value::Capped;
use witness::Witness;

// As many letters can be known, a to z among them.
pub(crate) const LETTERS: usize = 538;

/// The memory of runs, reserved once: a system, a witness and a value table. It can be used again and again, and each run is as on a new one.
// (The system is taken out during a run, since opening it consumes it.)
#[derive(Drop)]
pub struct Runner {
    pub(crate) system: Option<System>,
    pub(crate) witness: Witness,
    pub(crate) table: Vec<Capped>,
    ghost held: { is_some system ≡ true },
    ghost room: { vec_len table ≡ 538 },
}
