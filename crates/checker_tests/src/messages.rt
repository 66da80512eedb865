// What refusals say to a person.
use crate::tools::X;
use guarantee::CloseRefusal;
use std::test::Fail;
use systems::{ChoiceRefusal, LoadRefusal};

#[test]
fn limits_are_said(rt: HostRuntime) -> Result<(), Fail> {
    let text = format!(in rt.alloc(); "{}", LoadRefusal::TooManyPlaces)?;
    assert_eq!(rt;
        text.as_str(),
        "all sides together would have more than 1,024 places"
    );
    Ok(())
}

#[test]
fn variables_are_named_by_their_capitals(rt: HostRuntime) -> Result<(), Fail> {
    let heap = rt.alloc();
    let absent = format!(in heap; "{}", ChoiceRefusal::NotLive(X))?;
    assert_eq!(rt; absent.as_str(), "variable X stands in no equation");
    let none = format!(in heap; "{}", ChoiceRefusal::NotLive(26))?;
    assert_eq!(rt; none.as_str(), "variable 26 stands in no equation");
    let live = format!(in heap; "{}", CloseRefusal::StillLive(0))?;
    assert_eq!(rt; live.as_str(), "variable A still stands in an equation");
    let failing = format!(in heap; "{}", CloseRefusal::Fails(25))?;
    assert_eq!(rt; failing.as_str(), "variable Z does not pass on its word");
    Ok(())
}

#[test]
fn equations_are_named_by_their_numbers(rt: HostRuntime) -> Result<(), Fail> {
    let text = format!(in rt.alloc(); "{}", CloseRefusal::SidesDiffer(1))?;
    assert_eq!(rt; text.as_str(), "the two sides of equation 1 differ");
    Ok(())
}
