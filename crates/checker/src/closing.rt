ghost use Rattle.std.specs.Prelude.{◌≡◌, List, length};
ghost use Rattle.std.specs.Option.{option_map};
ghost use Rattle.std.specs.Result.{result_err};
ghost use Rattle.systems.specs.Runs.{Load};
ghost use Rattle.guarantee.specs.Closing.{close as what_closes, close_detail, close_number, close_refusal};
ghost use Rattle.guarantee.specs.Guarantee.{Promised};
ghost use Rattle.witness.specs.Holding.{contents_of};
ghost use Rattle.checker.specs.Ending.{closed, meaning};
ghost use Rattle.checker.specs.Holding.{CameBy, standing, system_of};

use crate::store::Check;
use guarantee::CloseRefusal;
use measure::{Measure, values};
use systems::Choice;
use witness::Witness;

impl Check {
    // Accepts where no variable is live, the two sides of every equation are the same, and every variable of the system passes on its word; then the
    // witness holds the rules and the words. Or says why not.
    pub fn close<K: Measure>(
        &self,
        kind: &K,
        table: &mut [K::Value],
        witness: &mut Witness,
    ) -> Result<(), CloseRefusal>
        ensures answer { let k = kind.now in closed (result_err result) table.new (contents_of witness.new) ≡ what_closes (meaning (K.single k) (K.nothing k) (K.joined k) (K.passed k)) (system_of self.now) (standing self.now) table.old (contents_of witness.old) }
        ensures number { let k = kind.now in option_map close_number (result_err result) ≡ option_map close_number (close_refusal (meaning (K.single k) (K.nothing k) (K.joined k) (K.passed k)) (system_of self.now) (standing self.now) (length table.old)) }
        ensures detail { let k = kind.now in option_map close_detail (result_err result) ≡ option_map close_detail (close_refusal (meaning (K.single k) (K.nothing k) (K.joined k) (K.passed k)) (system_of self.now) (standing self.now) (length table.old)) }
        ensures guarantee { let k = kind.now in (loads : List Load) (choices : List Choice) → CameBy loads choices self.now → Promised (meaning (K.single k) (K.nothing k) (K.joined k) (K.passed k)) loads choices (standing self.now) table.old (closed (result_err result) table.new (contents_of witness.new)) }
    {
        self.finished(table.len())?;
        values::fill_values(kind, self.stand.rules(), table).unwrap();
        if let Some(x) = self.first_failing(kind, table) {
            return Err(CloseRefusal::Fails(x));
        }
        self.write(witness);
        Ok(())
    }
}
