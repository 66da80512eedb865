// What the writer refuses.
use crate::tools::{X, Y, one_equation, puts, refuses, two_words};
use checker::System;
use std::test::Fail;
use writer::Writer;
use writing::WriteRefusal;

const SHORT: WriteRefusal = WriteRefusal::ShortList;

const LONG: WriteRefusal = WriteRefusal::TooManyLetters;

const NO_SOLUTION: WriteRefusal = WriteRefusal::NoSolution;

#[test]
fn a_short_list(rt: HostRuntime) -> Result<(), Fail> {
    let heap = rt.alloc();
    let mut writer = Writer::new(heap)?;
    let system = one_equation(heap, b"Xa", b"abY")?;
    let given = two_words(b"aba", (0, 2), (2, 1));
    refuses(heap, &mut writer, &system, &given, 1_049, SHORT)?;
    refuses(heap, &mut writer, &system, &given, 0, SHORT)?;
    // it comes before words that are not given
    refuses(
        heap,
        &mut writer,
        &system,
        &two_words(b"", (0, 2), (2, 1)),
        1_049,
        SHORT,
    )?;
    // also where no choice would be written
    refuses(heap, &mut writer, &System::new(heap)?, &given, 1_049, SHORT)?;
    puts(heap, &mut writer, &system, &given, 5)
}

#[test]
fn words_that_are_not_given(rt: HostRuntime) -> Result<(), Fail> {
    let heap = rt.alloc();
    let mut writer = Writer::new(heap)?;
    let system = one_equation(heap, b"Xa", b"abY")?;
    // the words, and the first variable whose word is not given
    let words: [(&[u8], (usize, usize), (usize, usize), u8); 8] = [
        // bytes that are none of a to z
        (b"abA", (0, 2), (2, 1), Y),
        (b"a{a", (0, 2), (2, 1), X),
        (b"`ba", (0, 2), (2, 1), X),
        // outside the buffer
        (b"aba", (0, 2), (2, 2), Y),
        (b"aba", (0, 2), (4, 0), Y),
        // past the largest number
        (b"aba", (usize::MAX, 2), (2, 1), X),
        (b"aba", (1, usize::MAX), (2, 1), X),
        // both
        (b"aba", (4, 0), (4, 0), X),
    ];
    for (buffer, x, y, variable) in words {
        let given = two_words(buffer, x, y);
        refuses(
            heap,
            &mut writer,
            &system,
            &given,
            1_050,
            WriteRefusal::NoWord(variable),
        )?;
    }
    Ok(())
}

#[test]
fn an_empty_word_at_the_end(rt: HostRuntime) -> Result<(), Fail> {
    let heap = rt.alloc();
    let mut writer = Writer::new(heap)?;
    let system = one_equation(heap, b"Xa", b"abY")?;
    // it is given, and solves nothing
    refuses(
        heap,
        &mut writer,
        &system,
        &two_words(b"aba", (0, 2), (3, 0)),
        1_050,
        NO_SOLUTION,
    )
}

#[test]
fn words_of_other_variables(rt: HostRuntime) -> Result<(), Fail> {
    let heap = rt.alloc();
    let mut writer = Writer::new(heap)?;
    // every other variable has its word nowhere
    let given = two_words(b"a!", (0, 1), (1, 1));
    let system = one_equation(heap, b"X", b"a")?;
    puts(heap, &mut writer, &system, &given, 2)?;
    refuses(
        heap,
        &mut writer,
        &one_equation(heap, b"XY", b"a")?,
        &given,
        1_050,
        WriteRefusal::NoWord(Y),
    )
}

#[test]
fn five_hundred_and_twelve_letters(rt: HostRuntime) -> Result<(), Fail> {
    let heap = rt.alloc();
    let mut writer = Writer::new(heap)?;
    let system = one_equation(heap, b"X", b"X")?;
    let letters = vec![in heap; b'a'; 2_000]?;
    let buffer = letters.as_slice();
    // 256 pops, an erasure and a block
    let fits = two_words(buffer, (0, 256), (0, 0));
    puts(heap, &mut writer, &system, &fits, 258)?;
    for length in [257, 512, 513, 1_100, 2_000] {
        refuses(
            heap,
            &mut writer,
            &system,
            &two_words(buffer, (0, length), (0, 0)),
            1_050,
            LONG,
        )?;
    }
    // a word that is not given comes first
    let two = one_equation(heap, b"XY", b"XY")?;
    refuses(
        heap,
        &mut writer,
        &two,
        &two_words(buffer, (0, 2_000), (2_001, 0)),
        1_050,
        WriteRefusal::NoWord(Y),
    )?;
    // too many letters come before words that solve nothing
    let other = one_equation(heap, b"X", b"XXb")?;
    refuses(
        heap,
        &mut writer,
        &other,
        &two_words(buffer, (0, 200), (0, 0)),
        1_050,
        LONG,
    )
}

#[test]
fn words_that_solve_nothing(rt: HostRuntime) -> Result<(), Fail> {
    let heap = rt.alloc();
    let mut writer = Writer::new(heap)?;
    let mut system = one_equation(heap, b"X", b"ab")?;
    assert!(rt; system.load(b"XY", b"abc").is_ok());
    // the second equation counts too
    refuses(
        heap,
        &mut writer,
        &system,
        &two_words(b"abd", (0, 2), (2, 1)),
        1_050,
        NO_SOLUTION,
    )?;
    refuses(
        heap,
        &mut writer,
        &system,
        &two_words(b"abc", (1, 2), (0, 1)),
        1_050,
        NO_SOLUTION,
    )?;
    let letters = one_equation(heap, b"a", b"b")?;
    refuses(
        heap,
        &mut writer,
        &letters,
        &two_words(b"", (0, 0), (0, 0)),
        1_050,
        NO_SOLUTION,
    )
}

#[test]
fn numbers(rt: HostRuntime) {
    assert_eq!(rt; SHORT.number(), 51);
    assert_eq!(rt; WriteRefusal::NoWord(X).number(), 52);
    assert_eq!(rt; LONG.number(), 53);
    assert_eq!(rt; NO_SOLUTION.number(), 54);
}
