// The edges of each kind's limits, and of what its constructor takes.

use crate::tools::{passes, value_of};
use combined::opposite::Opposite;
use length::kind::Length;
use letters_used::kind::LettersUsed;
use machine::kind::Machine;
use measure::letter::Letter;
use measure::sets::has;
use measure::variable::Variable;
use model::Rule;
use std::array;
use std::test::Fail;

#[test]
fn length_stops_at_a_million(rt: HostRuntime) -> Result<(), Fail> {
    let heap = rt.alloc();
    let kind = Length::new([0; 26], [1_000_000; 26])?;
    // 999,999 times a, a million times a, and a million times the latter
    let rules = [
        Rule::Block(0, 999_999),
        Rule::Block(0, 1_000_000),
        Rule::Block(27, 1_000_000),
    ];
    assert_eq!(rt; value_of(heap, &kind, &rules, &[])?.count, 0);
    assert_eq!(rt; value_of(heap, &kind, &rules, &[26])?.count, 999_999);
    assert_eq!(rt; value_of(heap, &kind, &rules, &[26, 1])?.count, 1_000_000);
    assert_eq!(rt; value_of(heap, &kind, &rules, &[27])?.count, 1_000_000);
    assert_eq!(rt;
        value_of(heap, &kind, &rules, &[26, 1, 1])?.count,
        1_000_000
    );
    assert_eq!(rt; value_of(heap, &kind, &rules, &[28, 28])?.count, 1_000_000);
    Ok(())
}

#[test]
fn length_passes_from_least_to_most(rt: HostRuntime) -> Result<(), Fail> {
    let heap = rt.alloc();
    let mut least = [0; 26];
    let mut most = [1_000_000; 26];
    least[25] = 2;
    most[25] = 3;
    let kind = Length::new(least, most)?;
    assert_eq!(rt; passes(heap, &kind, &[], 0)?, true);
    assert_eq!(rt; passes(heap, &kind, &[], 25)?, false);
    assert_eq!(rt; passes(heap, &kind, &[0], 25)?, false);
    assert_eq!(rt; passes(heap, &kind, &[0, 1], 25)?, true);
    assert_eq!(rt; passes(heap, &kind, &[0, 1, 2], 25)?, true);
    assert_eq!(rt; passes(heap, &kind, &[0, 1, 2, 3], 25)?, false);
    Ok(())
}

// This number for Z, and 0 for each other variable.
fn for_z(number: u32) -> [u32; 26] {
    let mut all = [0; 26];
    all[25] = number;
    all
}

// The number of the refusal of these limits for Z, or 0.
fn length_refusal(least: u32, most: u32) -> u8 {
    Length::new(for_z(least), for_z(most))
        .err()
        .map_or(0, |refusal| refusal.number())
}

#[test]
fn length_limits_are_in_order(rt: HostRuntime) {
    assert_eq!(rt; length_refusal(0, 0), 0);
    assert_eq!(rt; length_refusal(5, 5), 0);
    assert_eq!(rt; length_refusal(6, 5), 82);
    assert_eq!(rt; length_refusal(1_000_000, 1_000_000), 0);
    assert_eq!(rt; length_refusal(0, 1_000_001), 82);
}

#[test]
fn letters_required_and_allowed(rt: HostRuntime) -> Result<(), Fail> {
    let heap = rt.alloc();
    // b is required, a, b and c are allowed
    let kind = LettersUsed::new([2; 26], [7; 26])?;
    assert_eq!(rt; passes(heap, &kind, &[], 0)?, false);
    assert_eq!(rt; passes(heap, &kind, &[0, 2], 0)?, false);
    assert_eq!(rt; passes(heap, &kind, &[0, 1, 2], 0)?, true);
    assert_eq!(rt; passes(heap, &kind, &[1, 3], 0)?, false);
    let free = LettersUsed::new([0; 26], [0x3FF_FFFF; 26])?;
    assert_eq!(rt; passes(heap, &free, &[], 25)?, true);
    assert_eq!(rt; passes(heap, &free, &[25], 25)?, true);
    Ok(())
}

// The number of the refusal of these sets for Z, or 0.
fn set_refusal(required: u32, allowed: u32) -> u8 {
    LettersUsed::new(for_z(required), for_z(allowed))
        .err()
        .map_or(0, |refusal| refusal.number())
}

#[test]
fn sets_have_26_bits(rt: HostRuntime) -> Result<(), Fail> {
    assert_eq!(rt; set_refusal(0x3FF_FFFF, 0x3FF_FFFF), 0);
    assert_eq!(rt; set_refusal(0x400_0000, 0), 83);
    assert_eq!(rt; set_refusal(0, 0x7FF_FFFF), 83);
    let kind = Length::new([0; 26], [0; 26])?;
    assert!(rt; Opposite::new(kind, 0x3FF_FFFF).is_ok());
    assert!(rt; Opposite::new(kind, 0x400_0000).is_err());
    Ok(())
}

#[test]
fn machine_accepts_by_its_last_state(rt: HostRuntime) -> Result<(), Fail> {
    let heap = rt.alloc();
    // every letter leads to the next state, from the last one back to the first
    let next = array::from_fn(|i| ((i / 26 + 1) % 8) as u8);
    let kind = Machine::new(next, [0b1000_0001; 26])?;
    assert_eq!(rt; passes(heap, &kind, &[], 0)?, true);
    assert_eq!(rt; passes(heap, &kind, &[0], 0)?, false);
    assert_eq!(rt; passes(heap, &kind, &[0, 1, 2, 3, 4, 5, 6], 0)?, true);
    assert_eq!(rt; passes(heap, &kind, &[0, 1, 2, 3, 4, 5, 6, 7], 0)?, true);
    assert_eq!(rt;
        passes(heap, &kind, &[0, 1, 2, 3, 4, 5, 6, 7, 8], 0)?,
        false
    );
    Ok(())
}

// The number of the refusal of a machine whose last next state is this, or 0.
fn machine_refusal(state: u8) -> u8 {
    let mut next = [0; 208];
    next[207] = state;
    Machine::new(next, [0; 26])
        .err()
        .map_or(0, |refusal| refusal.number())
}

#[test]
fn states_are_0_to_7(rt: HostRuntime) {
    assert_eq!(rt; machine_refusal(7), 0);
    assert_eq!(rt; machine_refusal(8), 81);
}

#[test]
fn letters_and_variables_are_26(rt: HostRuntime) {
    for number in 0..=255 {
        let letter = Letter::new(number).map_or(255, |letter| letter.number());
        let variable = Variable::new(number).map_or(255, |variable| variable.number());
        let expected = if number < 26 { number } else { 255 };
        assert_eq!(rt; letter, expected);
        assert_eq!(rt; variable, expected);
    }
}

#[test]
fn all_letters_are_a_to_z(rt: HostRuntime) {
    let letters: [Letter; 26] = Letter::all();
    for (number, letter) in letters.iter().enumerate() {
        assert_eq!(rt; usize::from(letter.number()), number);
    }
}

#[test]
fn symbols_print_as_those_of_their_alphabet(rt: HostRuntime) -> Result<(), Fail> {
    let letter = format!(in rt.alloc(); "{:?}", Letter::all()[3])?;
    assert_eq!(rt; letter.as_str(), "Letter { number: 3 }");
    let variable = format!(in rt.alloc(); "{:?}", Variable::all()[25])?;
    assert_eq!(rt; variable.as_str(), "Variable { number: 25 }");
    Ok(())
}

#[test]
fn sets_hold_their_bits_alone(rt: HostRuntime) {
    for number in 0..=255 {
        assert_eq!(rt;
            has(0b1_0000_0101, number),
            number == 0 || number == 2 || number == 8
        );
        assert_eq!(rt; has(u32::MAX, number), number < 32);
        assert_eq!(rt; has(0, number), false);
    }
}
