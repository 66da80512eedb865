// Lists that are written.
use crate::tools::{FIRST, X, Y, one_equation, refuses, two_words, writes};
use checker::System;
use std::test::Fail;
use systems::Choice;
use writer::Writer;
use writing::WriteRefusal;

#[test]
fn a_pair(rt: HostRuntime) -> Result<(), Fail> {
    let heap = rt.alloc();
    writes(
        heap,
        &mut Writer::new(heap)?,
        &one_equation(heap, b"Xa", b"abY")?,
        &two_words(b"aba", (0, 2), (2, 1)),
        &[
            Choice::Right(Y, 0),
            Choice::Erase(Y),
            Choice::Pair(0, 1),
            Choice::Left(X, FIRST),
            Choice::Erase(X),
        ],
    )
}

#[test]
fn one_pop_at_each_end(rt: HostRuntime) -> Result<(), Fail> {
    let heap = rt.alloc();
    // Y's word still begins with b when the pair is joined
    writes(
        heap,
        &mut Writer::new(heap)?,
        &one_equation(heap, b"Xb", b"aY")?,
        &two_words(b"abbb", (0, 2), (2, 2)),
        &[
            Choice::Left(Y, 1),
            Choice::Pair(0, 1),
            Choice::Left(X, FIRST),
            Choice::Erase(X),
            Choice::Left(Y, 1),
            Choice::Erase(Y),
        ],
    )
}

#[test]
fn a_block(rt: HostRuntime) -> Result<(), Fail> {
    let heap = rt.alloc();
    writes(
        heap,
        &mut Writer::new(heap)?,
        &one_equation(heap, b"aX", b"Xa")?,
        &two_words(b"aa", (0, 2), (0, 0)),
        &[
            Choice::Left(X, 0),
            Choice::Left(X, 0),
            Choice::Erase(X),
            Choice::Block(0, 3),
        ],
    )
}

#[test]
fn block_lengths_rise(rt: HostRuntime) -> Result<(), Fail> {
    let heap = rt.alloc();
    // the rows of a have 4, 3, 1 and 2 letters
    writes(
        heap,
        &mut Writer::new(heap)?,
        &one_equation(heap, b"aaaabXbaa", b"aaaabXbaa")?,
        &two_words(b"aaaba", (0, 5), (0, 0)),
        &[
            Choice::Left(X, 0),
            Choice::Left(X, 0),
            Choice::Left(X, 0),
            Choice::Right(X, 0),
            Choice::Block(0, 2),
            Choice::Block(0, 3),
            Choice::Block(0, 4),
            Choice::Left(X, 1),
            Choice::Erase(X),
        ],
    )
}

#[test]
fn variables_in_their_order(rt: HostRuntime) -> Result<(), Fail> {
    let heap = rt.alloc();
    // both words are empty, and X comes before Y
    writes(
        heap,
        &mut Writer::new(heap)?,
        &one_equation(heap, b"YX", b"")?,
        &two_words(b"", (0, 0), (0, 0)),
        &[Choice::Erase(X), Choice::Erase(Y)],
    )
}

#[test]
fn no_variable(rt: HostRuntime) -> Result<(), Fail> {
    let heap = rt.alloc();
    let given = two_words(b"", (0, 0), (0, 0));
    let mut writer = Writer::new(heap)?;
    writes(heap, &mut writer, &System::new(heap)?, &given, &[])?;
    let letters = one_equation(heap, b"ab", b"ab")?;
    writes(heap, &mut writer, &letters, &given, &[])
}

#[test]
fn the_system_still_loads(rt: HostRuntime) -> Result<(), Fail> {
    let heap = rt.alloc();
    let mut system = one_equation(heap, b"X", b"a")?;
    let expected = [Choice::Left(X, 0), Choice::Erase(X)];
    let given = two_words(b"a", (0, 1), (0, 0));
    let mut writer = Writer::new(heap)?;
    writes(heap, &mut writer, &system, &given, &expected)?;
    assert!(rt; system.load(b"X", b"b").is_ok());
    refuses(
        heap,
        &mut writer,
        &system,
        &given,
        1_050,
        WriteRefusal::NoSolution,
    )
}

#[test]
fn one_writer_for_several_lists(rt: HostRuntime) -> Result<(), Fail> {
    let heap = rt.alloc();
    let mut writer = Writer::new(heap)?;
    let pair = one_equation(heap, b"Xa", b"abY")?;
    let block = one_equation(heap, b"aX", b"Xa")?;
    let letters = vec![in heap; b'a'; 600]?;
    for _ in 0..2 {
        writes(
            heap,
            &mut writer,
            &pair,
            &two_words(b"aba", (0, 2), (2, 1)),
            &[
                Choice::Right(Y, 0),
                Choice::Erase(Y),
                Choice::Pair(0, 1),
                Choice::Left(X, FIRST),
                Choice::Erase(X),
            ],
        )?;
        // refused in its midst, with a word filled in
        let long = two_words(letters.as_slice(), (0, 9), (0, 600));
        refuses(
            heap,
            &mut writer,
            &pair,
            &long,
            1_050,
            WriteRefusal::TooManyLetters,
        )?;
        writes(
            heap,
            &mut writer,
            &block,
            &two_words(b"aa", (0, 2), (0, 0)),
            &[
                Choice::Left(X, 0),
                Choice::Left(X, 0),
                Choice::Erase(X),
                Choice::Block(0, 3),
            ],
        )?;
    }
    Ok(())
}
