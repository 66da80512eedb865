// The reasons why a close does not accept. (A kind and its table are passed as the caller lends them: a struct of both would be made and taken apart
// again at each call of measure.)
ghost use Rattle.std.specs.Prelude.{◌≡◌, ◌≤◌, false, IfErr, IsOk, Option, Some};
ghost use Rattle.std.specs.Result.{result_err};
ghost use Rattle.measure.specs.Tables.{Filled};
ghost use Rattle.systems.specs.Standings.{fresh};
ghost use Rattle.writing.specs.Writer.{first, variables};
ghost use Rattle.guarantee.specs.Closing.{fails as does_fail, fills, or_else};
ghost use Rattle.checker.specs.Ending.{meaning, reasons};
ghost use Rattle.checker.specs.Holding.{standing, system_of};

use crate::popped::Letters;
use crate::store::Check;
use guarantee::CloseRefusal;
use measure::letter::LETTERS;
use measure::variable::Variable;
use measure::{Measure, values};

impl Check {
    // The first reason, before a measure is asked, why a close with so many entries in its table does not accept.
    pub(crate) fn finished(&self, room: usize) -> Result<(), CloseRefusal>
        ensures reason { (later : Option CloseRefusal) → reasons (standing self.now) room later ≡ or_else (result_err result) later }
        ensures untouched { IfErr result (λ why. fills (Some why) ≡ false) }
        ensures suffices { IsOk result → fresh (standing self.now) ≤ room }
    {
        if room < LETTERS + self.stand.rules().len() {
            return Err(CloseRefusal::SmallTable);
        }
        let sides = self.stand.sides();
        if let Some(x) = sides.first_live() {
            return Err(CloseRefusal::StillLive(x));
        }
        if let Some(i) = sides.first_unequal() {
            return Err(CloseRefusal::SidesDiffer(i as u8));
        }
        Ok(())
    }

    // Whether this is a variable of the system whose word does not pass. (The list is lent for the word.)
    fn fails<K: Measure>(
        &self,
        kind: &K,
        table: &[K::Value],
        variable: Variable,
        letters: &mut Letters,
    ) -> bool
        requires { let k = kind.now in Filled (K.single k) (K.nothing k) (K.joined k) (standing self.now).rules table.now }
        ensures { let k = kind.now in result ≡ does_fail (meaning (K.single k) (K.nothing k) (K.joined k) (K.passed k)) (system_of self.now) (standing self.now) variable.number }
    {
        let x = variable.number();
        if !self.system[usize::from(x)] {
            return false;
        }
        self.put_word(letters, x);
        let value = values::word_value(kind, table, letters.as_slice());
        !kind.passes(variable, value)
    }

    // The first variable of the system, from A, whose word does not pass.
    // (A `for` that stops: the closure of a `find` would have to be told what the table holds.)
    pub(crate) fn first_failing<K: Measure>(&self, kind: &K, table: &[K::Value]) -> Option<u8>
        requires { let k = kind.now in Filled (K.single k) (K.nothing k) (K.joined k) (standing self.now).rules table.now }
        ensures { let k = kind.now in result ≡ first (does_fail (meaning (K.single k) (K.nothing k) (K.joined k) (K.passed k)) (system_of self.now) (standing self.now)) variables }
    {
        let mut letters = Letters::new();
        for variable in Variable::all() {
            if self.fails(kind, table, variable, &mut letters) {
                return Some(variable.number());
            }
        }
        None
    }
}
