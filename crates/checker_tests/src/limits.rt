// The limits of a check, met and not yet met.
use crate::tools::{FIRST, X, answers, chosen, close};
use checker::Check;
use std::test::Fail;
use systems::{Choice, ChoiceRefusal};
use witness::Witness;

// The choice is taken so many times.
fn taken(opened: &mut Check, choice: Choice, times: u32) -> Result<(), Fail> {
    for _ in 0..times {
        opened.choose(choice)?;
    }
    Ok(())
}

#[test]
fn places(rt: HostRuntime) -> Result<(), Fail> {
    let heap = rt.alloc();
    let row = vec![in heap; b'A'; 512]?;
    let mut opened = chosen(heap, row.as_slice(), row.as_slice(), &[])?;
    // nothing is noted of the two that are refused
    answers(
        &mut opened,
        &[
            (Choice::Left(0, 0), None),
            (Choice::Left(0, 0), Some(ChoiceRefusal::TooManyPlaces)),
            (Choice::Right(0, 0), Some(ChoiceRefusal::TooManyPlaces)),
            (Choice::Erase(0), None),
        ],
    )?;
    let mut witness = Witness::new(heap)?;
    assert_eq!(rt; close(heap, &opened, &mut witness)?, None);
    assert_eq!(rt; witness.word(0), Some(&[0][..]));
    Ok(())
}

#[test]
fn pops(rt: HostRuntime) -> Result<(), Fail> {
    let mut opened = chosen(rt.alloc(), b"X", b"a", &[])?;
    taken(&mut opened, Choice::Left(X, 0), 1_024)?;
    answers(
        &mut opened,
        &[
            (Choice::Left(X, 0), Some(ChoiceRefusal::TooManyPops)),
            (Choice::Right(X, 0), Some(ChoiceRefusal::TooManyPops)),
            (Choice::Right(X, FIRST), Some(ChoiceRefusal::UnknownLetter)),
        ],
    )?;
    Ok(())
}

#[test]
fn rules(rt: HostRuntime) -> Result<(), Fail> {
    let mut opened = chosen(rt.alloc(), b"", b"", &[])?;
    taken(&mut opened, Choice::Pair(0, 1), 512)?;
    answers(
        &mut opened,
        &[
            (Choice::Pair(0, 1), Some(ChoiceRefusal::TooManyRules)),
            (Choice::Block(537, 2), Some(ChoiceRefusal::TooManyRules)),
            (Choice::Block(537, 1), Some(ChoiceRefusal::CountOutOfRange)),
        ],
    )?;
    Ok(())
}

#[test]
fn lengths(rt: HostRuntime) -> Result<(), Fail> {
    let heap = rt.alloc();
    let mut opened = chosen(heap, b"X", b"X", &[Choice::Block(0, 2)])?;
    for i in 0..38 {
        taken(&mut opened, Choice::Block(FIRST + i, 2), 1)?;
    }
    answers(
        &mut opened,
        &[
            (Choice::Block(FIRST + 38, 2), Some(ChoiceRefusal::TooLong)),
            (Choice::Pair(FIRST + 38, FIRST + 37), None),
            (Choice::Left(X, FIRST + 38), None),
            (Choice::Right(X, 1), None),
            (Choice::Erase(X), None),
        ],
    )?;
    let mut witness = Witness::new(heap)?;
    assert_eq!(rt; close(heap, &opened, &mut witness)?, None);
    assert_eq!(rt; witness.length(X), Ok(549_755_813_889));
    assert_eq!(rt; witness.letter(X, 549_755_813_887), Ok(0));
    assert_eq!(rt; witness.letter(X, 549_755_813_888), Ok(1));
    Ok(())
}
