// What witnesses spell.
use listing::Reader;
use model::Rule;
use std::alloc::Global;
use std::test::Fail;
use witness::{Witness, WitnessRefusal};

// X as 23 in `variable` numbers.
const X: u8 = 23;

fn read_or_fail(heap: Global, text: &[u8]) -> Result<Witness, Fail> {
    let mut witness = Witness::new(heap)?;
    Reader::new(heap)?.read(&mut witness, text)?;
    Ok(witness)
}

#[test]
fn a_pair_spells_its_two_letters(rt: HostRuntime) -> Result<(), Fail> {
    let witness = read_or_fail(
        rt.alloc(),
        b"letter make first second\n#26 pair a b\n\nvariable length word\nX 2 #26\n",
    )?;
    assert_eq!(rt; witness.length(X), Ok(2));
    assert_eq!(rt; witness.letter(X, 0), Ok(0));
    assert_eq!(rt; witness.letter(X, 1), Ok(1));
    assert_eq!(rt; witness.letter(X, 2), Err(WitnessRefusal::PastWord));
    assert_eq!(rt; witness.letter(0, 0), Err(WitnessRefusal::Absent));
    let mut both = [0u8; 2];
    assert_eq!(rt; witness.fill(X, 0, &mut both), Ok(()));
    assert_eq!(rt; both, *b"ab");
    Ok(())
}

#[test]
fn a_buffer_at_the_end(rt: HostRuntime) -> Result<(), Fail> {
    let witness = read_or_fail(
        rt.alloc(),
        b"letter make first second\n#26 pair a b\n\nvariable length word\nX 2 #26\n",
    )?;
    let mut none = [0u8; 0];
    assert_eq!(rt; witness.fill(X, 2, &mut none), Ok(()));
    assert_eq!(rt;
        witness.fill(X, 3, &mut none),
        Err(WitnessRefusal::PastWord)
    );
    let mut two = [7u8; 2];
    assert_eq!(rt; witness.fill(X, 1, &mut two), Err(WitnessRefusal::PastWord));
    assert_eq!(rt; witness.fill(1, 0, &mut two), Err(WitnessRefusal::Absent));
    assert_eq!(rt; two, [7, 7]);
    Ok(())
}

// Thirty-nine doublings of a, and b behind them.
fn doublings(heap: Global) -> Result<Witness, Fail> {
    let mut witness = Witness::new(heap)?;
    witness.add_rule(Rule::Block(0, 2))?;
    for letter in 26..64 {
        witness.add_rule(Rule::Block(letter, 2))?;
    }
    witness.start_word(X)?;
    witness.push_letter(64)?;
    Ok(witness)
}

#[test]
fn thirty_nine_doublings(rt: HostRuntime) -> Result<(), Fail> {
    let mut witness = doublings(rt.alloc())?;
    assert_eq!(rt; witness.length(X), Ok(549_755_813_888));
    assert_eq!(rt; witness.letter(X, 549_755_813_887), Ok(0));
    assert_eq!(rt;
        witness.letter(X, 549_755_813_888),
        Err(WitnessRefusal::PastWord)
    );
    assert_eq!(rt; witness.push_letter(1), Ok(()));
    assert_eq!(rt; witness.letter(X, 549_755_813_888), Ok(1));
    let mut last = [0u8; 4];
    assert_eq!(rt; witness.fill(X, 549_755_813_885, &mut last), Ok(()));
    assert_eq!(rt; last, *b"aaab");
    Ok(())
}
