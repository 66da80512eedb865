// Worked systems, shown together, against the definitions.

#![tactic(auto)]

ghost use Rattle.worked.specs.Worked.{WorkedSystems};

/// The worked tables have their answer and their listing, the worked solutions have their lists, and rows and pairs are replaced as shown.
pub fn worked_systems()
    ensures { WorkedSystems }
{}
