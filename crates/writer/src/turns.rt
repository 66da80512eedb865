// The rounds.
ghost use Rattle.std.specs.Prelude.{◌≡◌, ◌<◌, ◌≤◌, length, is_some, true, None, slice_index_or};
ghost use Rattle.model.specs.Buffers.{Put};
ghost use Rattle.systems.specs.Sides.{Words};
ghost use Rattle.writing.specs.Records.{records_of};
ghost use Rattle.writing.specs.Writer.{State};
ghost use Rattle.writing.specs.Turns.{list_of, turn_of, turns_enough};
ghost use Rattle.writer.specs.Following.{Starts, Does, Ready};

use crate::store::Draft;
use leftover::Leftover;
use writing::ChoiceRecord;

impl<'a> Draft<'a> {
    // Nothing is put into the list yet.
    fn new(list: &'a mut [ChoiceRecord], left: &'a mut Leftover) -> Draft<'a>
        ensures same { result.list.ghost_name ≡ list.entry.ghost_name }
        ensures kept { result.list.now ≡ list.old }
        ensures none { result.count ≡ 0 }
        ensures left { result.left.now ≡ left.old }
    {
        Draft {
            list,
            count: 0,
            left,
        }
    }

    // The turn of x, which is live: what its word begins with decides the round.
    fn turn(&mut self, x: u8)
        requires variable { x < 26 }
        requires live { is_some (slice_index_or self.old.left.now.words x None) ≡ true }
        requires ready { Ready (turn_of x) self.old }
        ensures { Does (turn_of x) self.old self.new }
    {
        match self.left.first_two(x) {
            None => {}
            Some((a, None)) => self.pop_first(x, a),
            Some((a, Some(b))) if a == b => self.join_blocks(a),
            Some((a, Some(b))) => self.join_pair(a, b),
        }
    }

    // Writes round after round, until no variable is live.
    fn write(&mut self)
        requires { Ready (list_of turns_enough) self.old }
        ensures { Does (list_of turns_enough) self.old self.new }
    {
        self.erase_all();
        while let Some(x) = self.left.first_live() {
            self.turn(x);
            self.erase_all();
        }
    }
}

// Puts the choices of all rounds at the front of the list, leaves what stands behind them, and answers how many they are.
pub(crate) fn write_rounds(list: &mut [ChoiceRecord], left: &mut Leftover) -> usize
    requires room { 1050 ≤ length list.old }
    requires starts { ∥ ((σ : Words) × (st : State) × Starts σ left.old st) ∥₁ }
    ensures long { length list.new ≡ length list.old }
    ensures put { (σ : Words) (st : State) → Starts σ left.old st → Put list.old 0 (records_of (list_of turns_enough st)) list.new result }
{
    let mut draft = Draft::new(list, left);
    draft.write();
    draft.count
}
