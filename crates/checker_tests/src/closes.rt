// What a close answers, and what it leaves in the value table and the witness.
use crate::tools::{FIRST, X, Y, any_length, chosen, close, table};
use checker::{Check, System};
use guarantee::CloseRefusal;
use length::kind::Length;
use model::Rule;
use std::alloc::Global;
use std::test::Fail;
use systems::{Choice, Detail};
use witness::Witness;

// Choices that find X = ab and Y = a for Xa = abY.
const FOUND: [Choice; 5] = [
    Choice::Pair(0, 1),
    Choice::Left(X, FIRST),
    Choice::Erase(X),
    Choice::Left(Y, 0),
    Choice::Erase(Y),
];

// A witness that holds one rule and the empty word of Z.
fn held(heap: Global) -> Result<Witness, Fail> {
    let mut witness = Witness::new(heap)?;
    witness.add_rule(Rule::Block(2, 7))?;
    witness.start_word(25)?;
    Ok(witness)
}

// A close is refused so, and leaves the witness as it was.
fn refused(heap: Global, opened: &Check, why: CloseRefusal) -> Result<(), Fail> {
    let mut witness = held(heap)?;
    if close(heap, opened, &mut witness)? != Some(why) {
        return Err(Fail::new("the close is answered otherwise"));
    }
    if !still_held(&witness) {
        return Err(Fail::new("the witness has changed"));
    }
    Ok(())
}

// Whether the witness is still what it was.
fn still_held(witness: &Witness) -> bool {
    witness.rules() == &[Rule::Block(2, 7)][..]
        && witness.word(25).is_some()
        && witness.word(X).is_none()
}

#[test]
fn no_equations(rt: HostRuntime) -> Result<(), Fail> {
    let heap = rt.alloc();
    let mut witness = held(heap)?;
    assert_eq!(rt;
        close(heap, &System::new(heap)?.open(), &mut witness)?,
        None
    );
    assert_eq!(rt; witness.rules().len(), 0);
    for variable in 0..26 {
        assert!(rt; witness.word(variable).is_none());
    }
    Ok(())
}

#[test]
fn an_empty_word(rt: HostRuntime) -> Result<(), Fail> {
    let heap = rt.alloc();
    let mut witness = held(heap)?;
    let opened = chosen(heap, b"X", b"", &[Choice::Erase(X)])?;
    assert_eq!(rt; close(heap, &opened, &mut witness)?, None);
    assert!(rt; witness.length(X).ok() == Some(0));
    assert!(rt; witness.word(25).is_none());
    Ok(())
}

#[test]
fn sides_that_differ(rt: HostRuntime) -> Result<(), Fail> {
    let heap = rt.alloc();
    let choices = [Choice::Pair(0, 1), Choice::Left(X, 0), Choice::Erase(X)];
    let opened = chosen(heap, b"Xb", b"ab", &choices)?;
    refused(heap, &opened, CloseRefusal::SidesDiffer(1))
}

#[test]
fn the_first_equation_that_differs(rt: HostRuntime) -> Result<(), Fail> {
    let heap = rt.alloc();
    let mut system = System::new(heap)?;
    let sides: [(&[u8], &[u8]); 4] = [(b"ab", b"ab"), (b"", b""), (b"a", b"aa"), (b"b", b"a")];
    for (left, right) in sides {
        assert!(rt; system.load(left, right).is_ok());
    }
    refused(heap, &system.open(), CloseRefusal::SidesDiffer(3))
}

#[test]
fn the_first_live_variable(rt: HostRuntime) -> Result<(), Fail> {
    let heap = rt.alloc();
    let opened = chosen(heap, b"BA", b"AB", &[])?;
    refused(heap, &opened, CloseRefusal::StillLive(0))
}

// What stands at three places of a table of 28: a letter a to z, the letter that is made, one that is not.
fn filled(heap: Global, kind: &Length, witness: &mut Witness) -> Result<[u32; 3], Fail> {
    let opened = chosen(heap, b"Xa", b"abY", &FOUND)?;
    let mut values = table(heap, kind, 28)?;
    let _ = opened.close(kind, values.as_mut_slice(), witness);
    match values.as_slice() {
        [.., last, made, behind] if values.len() == 28 => Ok([
            last.count,
            made.count,
            behind.count,
        ]),
        _ => Err(Fail::new("the table has another length")),
    }
}

#[test]
fn words_found(rt: HostRuntime) -> Result<(), Fail> {
    let heap = rt.alloc();
    let mut witness = held(heap)?;
    assert_eq!(rt; filled(heap, &any_length()?, &mut witness)?, [1, 2, 0]);
    assert_eq!(rt; witness.rules(), &[Rule::Pair(0, 1)][..]);
    assert_eq!(rt; witness.word(X), Some(&[FIRST][..]));
    assert_eq!(rt; witness.word(Y), Some(&[0][..]));
    assert!(rt; witness.word(25).is_none());
    let mut letters = [0u8; 2];
    assert!(rt; witness.fill(X, 0, &mut letters).is_ok());
    assert_eq!(rt; letters, *b"ab");
    Ok(())
}

// Lengths that pass for X only from `least` on, and for all others if they are at most 1,000,000.
fn at_least(least: u32) -> Result<Length, Fail> {
    let mut all = [0; 26];
    all[usize::from(X)] = least;
    Ok(Length::new(all, [1_000_000; 26])?)
}

#[test]
fn a_word_that_fails(rt: HostRuntime) -> Result<(), Fail> {
    let heap = rt.alloc();
    let kind = at_least(3)?;
    let mut witness = held(heap)?;
    // the table is filled all the same
    assert_eq!(rt; filled(heap, &kind, &mut witness)?, [1, 2, 0]);
    assert!(rt; still_held(&witness));
    let opened = chosen(heap, b"Xa", b"abY", &FOUND)?;
    let mut values = table(heap, &kind, 27)?;
    let answer = opened.close(&kind, values.as_mut_slice(), &mut witness);
    assert_eq!(rt; answer.err(), Some(CloseRefusal::Fails(X)));
    Ok(())
}

#[test]
fn a_table_that_is_too_small(rt: HostRuntime) -> Result<(), Fail> {
    let heap = rt.alloc();
    let kind = any_length()?;
    let mut witness = held(heap)?;
    let opened = chosen(heap, b"Xa", b"abY", &FOUND)?;
    let mut values = table(heap, &kind, 26)?;
    let answer = opened.close(&kind, values.as_mut_slice(), &mut witness);
    assert_eq!(rt; answer.err(), Some(CloseRefusal::SmallTable));
    assert!(rt; values.len() == 26);
    assert_eq!(rt; values[0].count, 0);
    assert!(rt; still_held(&witness));
    Ok(())
}

#[test]
fn a_small_table_comes_before_a_live_variable(rt: HostRuntime) -> Result<(), Fail> {
    let heap = rt.alloc();
    let kind = any_length()?;
    let mut witness = held(heap)?;
    let mut values = table(heap, &kind, 25)?;
    let opened = chosen(heap, b"X", b"X", &[])?;
    let answer = opened.close(&kind, values.as_mut_slice(), &mut witness);
    assert_eq!(rt; answer.err(), Some(CloseRefusal::SmallTable));
    Ok(())
}

#[test]
fn limits_of_other_variables_do_not_count(rt: HostRuntime) -> Result<(), Fail> {
    let heap = rt.alloc();
    let opened = chosen(
        heap,
        b"Y",
        b"ab",
        &[Choice::Right(Y, 1), Choice::Right(Y, 0), Choice::Erase(Y)],
    )?;
    let kind = at_least(9)?;
    let mut values = table(heap, &kind, 26)?;
    let mut witness = held(heap)?;
    assert!(rt;
        opened
            .close(&kind, values.as_mut_slice(), &mut witness)
            .is_ok()
    );
    assert_eq!(rt; witness.word(Y), Some(&[0, 1][..]));
    Ok(())
}

#[test]
fn numbers_and_details_of_close_refusals(rt: HostRuntime) {
    let expected = [
        (CloseRefusal::SmallTable, 30, None),
        (CloseRefusal::StillLive(X), 31, Some(Detail::Variable(X))),
        (CloseRefusal::SidesDiffer(2), 32, Some(Detail::Equation(2))),
        (CloseRefusal::Fails(X), 33, Some(Detail::Variable(X))),
    ];
    for (refusal, number, detail) in expected {
        assert_eq!(rt; refusal.number(), number);
        assert_eq!(rt; refusal.detail(), detail);
    }
}
