ghost use Rattle.std.specs.Prelude.{◌≡◌, List, [], ◌∷◌, ◌++◌, IfOk};
ghost use Rattle.std.specs.Option.{option_map};
ghost use Rattle.std.specs.Result.{result_err};
ghost use Rattle.systems.specs.Loading.{after_load, load_refusal};
ghost use Rattle.systems.specs.Refusals.{load_number};
ghost use Rattle.systems.specs.Runs.{Load};
ghost use Rattle.systems.specs.Standings.{new as nothing_loaded};
ghost use Rattle.checker.specs.Holding.{CameBy, loading, standing};
ghost use Rattle.checker.specs.Running.{AfterLoads};

use crate::store::{Check, System};
use sides::Sides;
use stand::Stand;
use std::alloc::{AllocError, Global};
use systems::LoadRefusal;

impl System {
    // No equation, and room for all that a system and its check can ever hold: nothing after this can lack memory.
    pub fn new(heap: Global) -> Result<System, AllocError>
        ensures stands { IfOk result (λ s. loading s ≡ nothing_loaded) }
        ensures run { IfOk result (λ s. AfterLoads [] (loading s)) }
    {
        let stand = Stand::new(heap)?;
        Ok(System { stand })
    }

    // The sides that are loaded.
    pub fn sides(&self) -> &Sides
        ensures { result.now ≡ (loading self.now).equations }
    {
        self.stand.sides()
    }

    // Takes one more equation, its two sides as text with a to z for letters and A to Z for variables; or says why not and changes nothing.
    // (The sides stay two parameters, here and below, as a caller has them.)
    pub fn load(&mut self, left: &[u8], right: &[u8]) -> Result<(), LoadRefusal>
        ensures refusal { result_err result ≡ load_refusal (loading self.old) left.now right.now }
        ensures number { option_map load_number (result_err result) ≡ option_map load_number (load_refusal (loading self.old) left.now right.now) }
        ensures stands { loading self.new ≡ after_load (loading self.old) left.now right.now }
        ensures run { (loads : List Load) → AfterLoads loads (loading self.old) → AfterLoads (loads ++ ((left.now, right.now) ∷ [])) (loading self.new) }
    {
        self.stand.load(left, right)
    }

    /// A new system, with no equation, in the memory of this one.
    pub fn cleared(self) -> System
        ensures stands { loading result ≡ nothing_loaded }
        ensures run { AfterLoads [] (loading result) }
    {
        let System { mut stand } = self;
        stand.clear();
        System { stand }
    }

    // Ends the loading.
    pub fn open(self) -> Check
        ensures stands { standing result ≡ loading self }
        ensures run { (loads : List Load) → AfterLoads loads (loading self) → CameBy loads [] result }
    {
        let System { stand } = self;
        let system = stand.sides().variables();
        Check { stand, system }
    }
}
