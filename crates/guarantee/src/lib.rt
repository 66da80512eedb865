// What a close answers, and the whole guarantee: sound, complete and writable.

#![tactic(auto)]

ghost use Rattle.std.specs.Prelude.{◌≡◌};
ghost use Rattle.guarantee.specs.Closing.{close_detail, close_number};
ghost use Rattle.guarantee.specs.Guarantee.{Guarantee};
ghost use Rattle.guarantee.specs.Worked.{WorkedCloses};

use model::name::VariableName;
use systems::Detail;
use thiserror::Error;

/// Why a close does not accept.
#[derive(Clone, Copy, PartialEq, Eq, Debug, Error)]
pub enum CloseRefusal {
    /// the value table has no room for every known letter
    #[error("the value table has fewer entries than there are known letters, which are 26 and one for each rule")]
    SmallTable,
    /// this variable is live
    #[error("variable {} still stands in an equation", VariableName(*.0))]
    StillLive(u8),
    /// the two sides of this equation, counted from 1, differ
    #[error("the two sides of equation {0} differ")]
    SidesDiffer(u8),
    /// this variable does not pass
    #[error("variable {} does not pass on its word", VariableName(*.0))]
    Fails(u8),
}

impl CloseRefusal {
    /// The refusal's number.
    // A match, since an enum with a field in a case has no numbers to cast.
    pub fn number(self) -> u8
        ensures { result ≡ close_number self }
    {
        match self {
            CloseRefusal::SmallTable => 30,
            CloseRefusal::StillLive(_) => 31,
            CloseRefusal::SidesDiffer(_) => 32,
            CloseRefusal::Fails(_) => 33,
        }
    }

    /// The variable or the equation that the refusal names, if it names one.
    pub fn detail(self) -> Option<Detail>
        ensures { result ≡ close_detail self }
    {
        match self {
            CloseRefusal::SmallTable => None,
            CloseRefusal::StillLive(x) => Some(Detail::Variable(x)),
            CloseRefusal::SidesDiffer(i) => Some(Detail::Equation(i)),
            CloseRefusal::Fails(x) => Some(Detail::Variable(x)),
        }
    }
}

// Whatever is loaded and chosen, and whatever measure is asked: what is accepted solves and passes, what fits a solution finds it, and every small solution is written.
pub fn guarantee_holds<V>()
    ensures { Guarantee V }
{}

// What a close answers on small systems.
pub fn worked_closes()
    ensures { WorkedCloses }
{}
