// How messages name a variable.
ghost use Rattle.std.specs.Prelude.{◌≡◌};
ghost use Rattle.model.specs.Names.{capital_of};

use std::fmt;

/// The capital of a variable, from A as 0; none for a number past 25.
pub fn capital(variable: u8) -> Option<char>
    ensures { result ≡ capital_of variable }
{
    if variable < 26 {
        Some(char::from(b'A' + variable))
    } else {
        None
    }
}

/// A variable, from A as 0, printed as its capital; a number past 25 is printed as it is.
#[derive(Clone, Copy, PartialEq, Eq, Debug)]
pub struct VariableName(pub u8);

impl fmt::Display for VariableName {
    fn fmt<W: fmt::Write>(&self, f: &mut fmt::Formatter<W>) -> fmt::Result {
        match capital(self.0) {
            Some(name) => write!(f, "{name}"),
            None => write!(f, "{}", self.0),
        }
    }
}
