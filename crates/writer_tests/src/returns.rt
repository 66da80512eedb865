// Written lists put to the opened check: each choice is taken, the close accepts, and the words come back.
use crate::tools::{X, Y, list, one_equation, two_words};
use checker::{Check, System};
use given::GivenWords;
use length::kind::Length;
use measure::Measure;
use std::alloc::Global;
use std::test::Fail;
use witness::Witness;
use writer::Writer;
use writing::ChoiceRecord;

// The witness spells this word for the variable.
fn spells(heap: Global, witness: &Witness, variable: u8, word: &[u8]) -> Result<(), Fail> {
    let mut spelled = vec![in heap; 0; word.len()]?;
    witness.fill(variable, 0, spelled.as_mut_slice())?;
    if spelled.as_slice() != word || witness.length(variable) != Ok(word.len() as u64) {
        return Err(Fail::new("another word comes back"));
    }
    Ok(())
}

// A word of so many letters, up to the letter `last` from a as 0, with rows and pairs of many kinds.
fn mixed(heap: Global, length: usize, last: u8) -> Result<Vec<u8>, Fail> {
    let mut word = Vec::with_capacity(heap, length)?;
    let mut state: u32 = 1;
    for _ in 0..length {
        state = state.wrapping_mul(1_103_515_245).wrapping_add(12_345);
        word.push(b'a' + ((state >> 16 & 7) as u8).min(last))?;
    }
    Ok(word)
}

// How many choices the writer puts at the front of this list.
fn put(
    heap: Global,
    system: &System,
    given: &GivenWords,
    list: &mut [ChoiceRecord],
) -> Result<usize, Fail> {
    Ok(Writer::new(heap)?.write(system, given, list)?)
}

// The check takes all of these choices.
fn choose_all(check: &mut Check, records: &[ChoiceRecord]) -> Result<(), Fail> {
    for record in records {
        check.choose(record.choice)?;
    }
    Ok(())
}

// The witness that the close gives, with no word limited.
fn closed(heap: Global, check: &Check) -> Result<Witness, Fail> {
    let kind = Length::new([0; 26], [1_000_000; 26])?;
    let mut values = vec![in heap; kind.empty(); 538]?;
    let mut witness = Witness::new(heap)?;
    check.close(&kind, values.as_mut_slice(), &mut witness)?;
    Ok(witness)
}

// The list that is written for these words leads to a witness; answers it, and how many choices were put.
fn found(heap: Global, system: System, given: &GivenWords) -> Result<(Witness, usize), Fail> {
    let mut list = list(heap, 1_050)?;
    let count = put(heap, &system, given, list.as_mut_slice())?;
    let Some(records) = list.as_slice().get(..count) else {
        return Err(Fail::new("more choices are answered than there is room for"));
    };
    let mut check = system.open();
    choose_all(&mut check, records)?;
    Ok((closed(heap, &check)?, count))
}

#[test]
fn two_words_of_a_pair(rt: HostRuntime) -> Result<(), Fail> {
    let heap = rt.alloc();
    let system = one_equation(heap, b"Xa", b"abY")?;
    let (witness, count) = found(heap, system, &two_words(b"aba", (0, 2), (2, 1)))?;
    assert_eq!(rt; count, 5);
    assert_eq!(rt; witness.rules().len(), 1);
    spells(heap, &witness, X, b"ab")?;
    spells(heap, &witness, Y, b"a")
}

#[test]
fn an_empty_word(rt: HostRuntime) -> Result<(), Fail> {
    let heap = rt.alloc();
    let system = one_equation(heap, b"XY", b"aX")?;
    let (witness, _) = found(heap, system, &two_words(b"a", (0, 0), (0, 1)))?;
    spells(heap, &witness, X, b"")?;
    spells(heap, &witness, Y, b"a")
}

#[test]
fn long_words(rt: HostRuntime) -> Result<(), Fail> {
    let heap = rt.alloc();
    for last in 0..5 {
        let word = mixed(heap, 256, last)?;
        let system = one_equation(heap, b"X", b"Y")?;
        let given = two_words(word.as_slice(), (0, 256), (0, 256));
        let (witness, count) = found(heap, system, &given)?;
        assert!(rt; count <= 512 + 512 + 2);
        spells(heap, &witness, X, word.as_slice())?;
        spells(heap, &witness, Y, word.as_slice())?;
    }
    Ok(())
}

#[test]
fn words_in_several_places(rt: HostRuntime) -> Result<(), Fail> {
    let heap = rt.alloc();
    for last in 0..4 {
        let word = mixed(heap, 60, last)?;
        let mut system = one_equation(heap, b"XYX", b"XYX")?;
        system.load(b"YbX", b"YbX")?;
        let given = two_words(word.as_slice(), (0, 25), (25, 35));
        let (witness, _) = found(heap, system, &given)?;
        let Some((x, y)) = word.as_slice().split_at_checked(25) else {
            return Err(Fail::new("the word is too short"));
        };
        spells(heap, &witness, X, x)?;
        spells(heap, &witness, Y, y)?;
    }
    Ok(())
}
