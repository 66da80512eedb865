// What the tests share.
use checker::System;
use given::GivenWords;
use std::alloc::Global;
use std::test::Fail;
use systems::Choice;
use writer::Writer;
use writing::{ChoiceRecord, Span, WriteRefusal};

// Two variables, and the first letter that is made.
pub(crate) const X: u8 = 23;

pub(crate) const Y: u8 = 24;

pub(crate) const FIRST: u16 = 26;

// A choice that no list of the tests has.
pub(crate) const FILLING: Choice = Choice::Block(25, 999_999);

// A span that lies in no buffer of the tests.
const NOWHERE: Span = Span {
    start: 9_999,
    length: 9,
};

// A system with one equation.
pub(crate) fn one_equation(heap: Global, left: &[u8], right: &[u8]) -> Result<System, Fail> {
    let mut system = System::new(heap)?;
    system.load(left, right)?;
    Ok(system)
}

// The words of X and Y, each where it begins and its length; those of the other variables lie nowhere.
pub(crate) fn two_words(buffer: &[u8], x: (usize, usize), y: (usize, usize)) -> GivenWords<'_> {
    let mut spans = [NOWHERE; 26];
    spans[23] = Span {
        start: x.0,
        length: x.1,
    };
    spans[24] = Span {
        start: y.0,
        length: y.1,
    };
    GivenWords { buffer, spans }
}

// A list with room for so many choices, all of them the same.
pub(crate) fn list(heap: Global, room: usize) -> Result<Vec<ChoiceRecord>, Fail> {
    Ok(vec![in heap; ChoiceRecord::from(FILLING); room]?)
}

// Whether all of the list is still what it was.
fn untouched(list: &[ChoiceRecord]) -> bool {
    list.iter().all(|record| record.choice == FILLING)
}

// Whether these are the choices of the records.
fn are_choices(records: &[ChoiceRecord], choices: &[Choice]) -> bool {
    records.len() == choices.len()
        && records
            .iter()
            .zip(choices)
            .all(|(record, choice)| record.choice == *choice)
}

// These choices stand at the front of the list, so many as are answered, and behind them the list is what it was.
fn shows(list: &[ChoiceRecord], count: usize, expected: &[Choice]) -> Result<(), Fail> {
    let Some((front, tail)) = list.split_at_checked(count) else {
        return Err(Fail::new("more choices are answered than there is room for"));
    };
    if !are_choices(front, expected) {
        return Err(Fail::new("another list is written"));
    }
    if !untouched(tail) {
        return Err(Fail::new("what stands behind the list has changed"));
    }
    Ok(())
}

// The writer puts these choices at the front of a list, and leaves the others.
pub(crate) fn writes(
    heap: Global,
    writer: &mut Writer,
    system: &System,
    given: &GivenWords,
    expected: &[Choice],
) -> Result<(), Fail> {
    let mut list = list(heap, 1_100)?;
    let Ok(count) = writer.write(system, given, list.as_mut_slice()) else {
        return Err(Fail::new("the words are refused"));
    };
    shows(list.as_slice(), count, expected)
}

// The writer answers that it put so many choices.
pub(crate) fn puts(
    heap: Global,
    writer: &mut Writer,
    system: &System,
    given: &GivenWords,
    count: usize,
) -> Result<(), Fail> {
    let mut list = list(heap, 1_050)?;
    if writer.write(system, given, list.as_mut_slice()) != Ok(count) {
        return Err(Fail::new("another number of choices is answered"));
    }
    Ok(())
}

// The writer refuses so, and leaves a list with so much room as it was.
pub(crate) fn refuses(
    heap: Global,
    writer: &mut Writer,
    system: &System,
    given: &GivenWords,
    room: usize,
    why: WriteRefusal,
) -> Result<(), Fail> {
    let mut list = list(heap, room)?;
    if writer.write(system, given, list.as_mut_slice()) != Err(why) {
        return Err(Fail::new("the words are answered otherwise"));
    }
    if !untouched(list.as_slice()) {
        return Err(Fail::new("the list has changed"));
    }
    Ok(())
}
