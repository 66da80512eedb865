// Loading, and what it refuses.
use crate::tools::{FIRST, X, Y, one_equation};
use checker::System;
use std::test::Fail;
use systems::{Choice, ChoiceRefusal, LoadRefusal};

// Each load is refused so, or taken where there is no refusal beside it.
fn loads(
    system: &mut System,
    expected: &[(&[u8], &[u8], Option<LoadRefusal>)],
) -> Result<(), Fail> {
    for (left, right, refusal) in expected {
        if system.load(left, right).err() != *refusal {
            return Err(Fail::new("a load is answered otherwise"));
        }
    }
    Ok(())
}

#[test]
fn places_are_counted_over_all_sides(rt: HostRuntime) -> Result<(), Fail> {
    let heap = rt.alloc();
    let row = vec![in heap; b'a'; 512]?;
    let mut system = one_equation(heap, row.as_slice(), &row.as_slice()[1..])?;
    assert_eq!(rt; system.sides().len(), 1_023);
    let full = Some(LoadRefusal::TooManyPlaces);
    loads(
        &mut system,
        &[
            (b"aa", b"", full),
            (b"", b"aa", full),
            (b"a", b"a", full),
            (b"X", b"", None),
            (b"", b"X", full),
            (b"", b"", None),
        ],
    )?;
    assert_eq!(rt; system.sides().len(), 1_024);
    Ok(())
}

#[test]
fn thirty_two_equations(rt: HostRuntime) -> Result<(), Fail> {
    let mut system = System::new(rt.alloc())?;
    for _ in 0..32 {
        assert!(rt; system.load(b"", b"").is_ok());
    }
    // a byte that is no letter comes first
    loads(
        &mut system,
        &[
            (b"", b"", Some(LoadRefusal::TooManyEquations)),
            (b"1", b"", Some(LoadRefusal::NoLetter)),
            (b"", b"#26", Some(LoadRefusal::NoLetter)),
        ],
    )?;
    Ok(())
}

#[test]
fn letters_are_a_to_z_and_capitals(rt: HostRuntime) -> Result<(), Fail> {
    let mut system = one_equation(rt.alloc(), b"azAZ", b"mM")?;
    for other in [b'1', b'@', b'[', b'`', b'{', b' ', b'-', 0, 255] {
        assert_eq!(rt;
            system.load(&[b'a', other], b"a").err(),
            Some(LoadRefusal::NoLetter)
        );
        assert_eq!(rt;
            system.load(b"a", &[other, b'a']).err(),
            Some(LoadRefusal::NoLetter)
        );
    }
    assert_eq!(rt; system.sides().len(), 6);
    Ok(())
}

#[test]
fn a_system_and_a_check_give_their_memory_back(rt: HostRuntime) -> Result<(), Fail> {
    let heap = rt.alloc();
    let mut system = one_equation(heap, b"Xa", b"aX")?.cleared();
    assert_eq!(rt; system.sides().len(), 0);
    system.load(b"X", b"a")?;
    let mut opened = system.open();
    opened.choose(Choice::Left(X, 0))?;
    opened.choose(Choice::Pair(0, 1))?;
    let mut again = opened.cleared();
    assert_eq!(rt; again.sides().len(), 0);
    again.load(b"Y", b"")?;
    assert_eq!(rt; again.sides().len(), 1);
    // no rule is left: the next letter is the first again
    let mut opened = again.open();
    assert_eq!(rt;
        opened.choose(Choice::Left(Y, FIRST)).err(),
        Some(ChoiceRefusal::UnknownLetter)
    );
    Ok(())
}

#[test]
fn numbers_of_load_refusals(rt: HostRuntime) {
    let expected = [
        (LoadRefusal::NoLetter, 1),
        (LoadRefusal::TooManyEquations, 2),
        (LoadRefusal::TooManyPlaces, 3),
    ];
    for (refusal, number) in expected {
        assert_eq!(rt; refusal.number(), number);
    }
}
