// Choices that are refused, in the order of their reasons, and what is left then.
use crate::tools::{FIRST, X, Y, answers, chosen, close};
use std::test::Fail;
use systems::{Choice, ChoiceRefusal, Detail};
use witness::Witness;

#[test]
fn a_variable_that_stands_nowhere(rt: HostRuntime) -> Result<(), Fail> {
    let mut opened = chosen(rt.alloc(), b"X", b"a", &[])?;
    answers(
        &mut opened,
        &[
            // also before an unknown letter
            (Choice::Left(Y, 999), Some(ChoiceRefusal::NotLive(Y))),
            (Choice::Right(Y, 0), Some(ChoiceRefusal::NotLive(Y))),
            (Choice::Erase(Y), Some(ChoiceRefusal::NotLive(Y))),
            (Choice::Left(200, 0), Some(ChoiceRefusal::NotLive(200))),
            (Choice::Erase(X), None),
            (Choice::Erase(X), Some(ChoiceRefusal::NotLive(X))),
        ],
    )?;
    Ok(())
}

#[test]
fn letters_that_are_not_known(rt: HostRuntime) -> Result<(), Fail> {
    let mut opened = chosen(rt.alloc(), b"X", b"a", &[])?;
    let unknown = Some(ChoiceRefusal::UnknownLetter);
    answers(
        &mut opened,
        &[
            (Choice::Left(X, FIRST), unknown),
            (Choice::Right(X, FIRST), unknown),
            // before equal letters, and before a count out of range
            (Choice::Pair(FIRST, FIRST), unknown),
            (Choice::Pair(0, FIRST), unknown),
            (Choice::Block(FIRST, 0), unknown),
            // 25 is z
            (Choice::Pair(0, 25), None),
            (Choice::Left(X, FIRST), None),
            (Choice::Left(X, FIRST + 1), unknown),
        ],
    )?;
    Ok(())
}

#[test]
fn equal_letters_and_counts_out_of_range(rt: HostRuntime) -> Result<(), Fail> {
    let mut opened = chosen(rt.alloc(), b"aa", b"aa", &[])?;
    let out_of_range = Some(ChoiceRefusal::CountOutOfRange);
    answers(
        &mut opened,
        &[
            (Choice::Pair(0, 0), Some(ChoiceRefusal::EqualLetters)),
            (Choice::Block(0, 0), out_of_range),
            (Choice::Block(0, 1), out_of_range),
            (Choice::Block(0, 1_000_001), out_of_range),
            (Choice::Block(0, 1_000_000), None),
            (Choice::Block(0, 2), None),
        ],
    )?;
    Ok(())
}

#[test]
fn a_refused_choice_changes_nothing(rt: HostRuntime) -> Result<(), Fail> {
    let heap = rt.alloc();
    let mut opened = chosen(heap, b"X", b"ab", &[])?;
    answers(
        &mut opened,
        &[
            (Choice::Left(Y, 0), Some(ChoiceRefusal::NotLive(Y))),
            (Choice::Left(X, FIRST), Some(ChoiceRefusal::UnknownLetter)),
            (Choice::Pair(1, 1), Some(ChoiceRefusal::EqualLetters)),
            (Choice::Block(0, 1), Some(ChoiceRefusal::CountOutOfRange)),
            (Choice::Erase(Y), Some(ChoiceRefusal::NotLive(Y))),
            (Choice::Right(X, 1), None),
            (Choice::Right(X, 0), None),
            (Choice::Erase(X), None),
        ],
    )?;
    let mut witness = Witness::new(heap)?;
    assert_eq!(rt; close(heap, &opened, &mut witness)?, None);
    assert_eq!(rt; witness.rules().len(), 0);
    assert_eq!(rt; witness.word(X), Some(&[0, 1][..]));
    Ok(())
}

#[test]
fn numbers_and_details_of_choice_refusals(rt: HostRuntime) {
    let expected = [
        (ChoiceRefusal::NotLive(X), 11, Some(Detail::Variable(X))),
        (ChoiceRefusal::UnknownLetter, 12, None),
        (ChoiceRefusal::EqualLetters, 13, None),
        (ChoiceRefusal::CountOutOfRange, 14, None),
        (ChoiceRefusal::TooManyPlaces, 21, None),
        (ChoiceRefusal::TooManyRules, 22, None),
        (ChoiceRefusal::TooManyPops, 23, None),
        (ChoiceRefusal::TooLong, 24, None),
    ];
    for (refusal, number, detail) in expected {
        assert_eq!(rt; refusal.number(), number);
        assert_eq!(rt; refusal.detail(), detail);
    }
}
