ghost use Rattle.std.specs.Prelude.{◌≡◌, List, [], ◌∷◌, ◌++◌};
ghost use Rattle.std.specs.Option.{option_map};
ghost use Rattle.std.specs.Result.{result_err};
ghost use Rattle.systems.specs.Refusals.{after_choice, choice_detail, choice_number, choice_refusal};
ghost use Rattle.systems.specs.Runs.{Load};
ghost use Rattle.systems.specs.Standings.{new as nothing_loaded};
ghost use Rattle.checker.specs.Holding.{CameBy, loading, standing, system_of};
ghost use Rattle.checker.specs.Running.{AfterLoads};

use crate::store::{Check, System};
use systems::{Choice, ChoiceRefusal};

impl Check {
    // Takes a choice, on every side of every equation, or says why not and changes nothing.
    pub fn choose(&mut self, choice: Choice) -> Result<(), ChoiceRefusal>
        ensures refusal { result_err result ≡ choice_refusal (standing self.old) choice }
        ensures number { option_map choice_number (result_err result) ≡ option_map choice_number (choice_refusal (standing self.old) choice) }
        ensures detail { option_map choice_detail (result_err result) ≡ option_map choice_detail (choice_refusal (standing self.old) choice) }
        ensures stands { standing self.new ≡ after_choice (standing self.old) choice }
        ensures system { system_of self.new ≡ system_of self.old }
        ensures run { (loads : List Load) (choices : List Choice) → CameBy loads choices self.old → CameBy loads (choices ++ (choice ∷ [])) self.new }
    {
        self.stand.choose(choice)
    }

    /// A new system, with no equation, in the memory of this check.
    pub fn cleared(self) -> System
        ensures stands { loading result ≡ nothing_loaded }
        ensures run { AfterLoads [] (loading result) }
    {
        let Check {
            mut stand,
            system: _,
        } = self;
        stand.clear();
        System { stand }
    }
}
