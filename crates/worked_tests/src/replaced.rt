// What rows and pairs become, as a close tells that compares them with popped letters.
use checker::{Check, System};
use guarantee::CloseRefusal;
use length::kind::Length;
use measure::Measure;
use std::alloc::Global;
use std::test::Fail;
use systems::Choice;
use witness::Witness;

const A: u16 = 0;

const B: u16 = 1;

const X: u8 = 23;

const Y: u8 = 24;

// The first letter that is made.
const FIRST: u16 = 26;

const DIFFERS: Option<CloseRefusal> = Some(CloseRefusal::SidesDiffer(1));

// A check of side = Y after these choices, which are all taken.
fn chosen(heap: Global, side: &[u8], choices: &[Choice]) -> Result<Check, Fail> {
    let mut system = System::new(heap)?;
    system.load(side, b"Y")?;
    let mut opened = system.open();
    for choice in choices {
        opened.choose(*choice)?;
    }
    Ok(opened)
}

// Why the close then does not accept, where any length passes.
fn closes(heap: Global, side: &[u8], choices: &[Choice]) -> Result<Option<CloseRefusal>, Fail> {
    let opened = chosen(heap, side, choices)?;
    let kind = Length::new([0; 26], [1_000_000; 26])?;
    let mut values = vec![in heap; kind.empty(); 538]?;
    let mut witness = Witness::new(heap)?;
    Ok(
        opened
            .close(&kind, values.as_mut_slice(), &mut witness)
            .err(),
    )
}

#[test]
fn a_block_of_two_leaves_a_row_of_three(rt: HostRuntime) -> Result<(), Fail> {
    let heap = rt.alloc();
    let as_it_was = [
        Choice::Block(A, 2),
        Choice::Left(Y, A),
        Choice::Left(Y, A),
        Choice::Left(Y, A),
        Choice::Erase(Y),
    ];
    assert_eq!(rt; closes(heap, b"aaa", &as_it_was)?, None);
    let with_a_block = [
        Choice::Block(A, 2),
        Choice::Left(Y, FIRST),
        Choice::Left(Y, A),
        Choice::Erase(Y),
    ];
    assert_eq!(rt; closes(heap, b"aaa", &with_a_block)?, DIFFERS);
    Ok(())
}

#[test]
fn both_pairs_are_joined(rt: HostRuntime) -> Result<(), Fail> {
    let heap = rt.alloc();
    let joined = [
        Choice::Pair(A, B),
        Choice::Left(Y, FIRST),
        Choice::Left(Y, FIRST),
        Choice::Erase(Y),
    ];
    assert_eq!(rt; closes(heap, b"abab", &joined)?, None);
    let one_joined = [
        Choice::Pair(A, B),
        Choice::Left(Y, FIRST),
        Choice::Left(Y, A),
        Choice::Left(Y, B),
        Choice::Erase(Y),
    ];
    assert_eq!(rt; closes(heap, b"abab", &one_joined)?, DIFFERS);
    Ok(())
}

#[test]
fn no_pair_is_joined_across_a_variable(rt: HostRuntime) -> Result<(), Fail> {
    let heap = rt.alloc();
    let apart = [
        Choice::Pair(A, B),
        Choice::Left(Y, A),
        Choice::Left(Y, B),
        Choice::Erase(X),
        Choice::Erase(Y),
    ];
    assert_eq!(rt; closes(heap, b"aXb", &apart)?, None);
    let joined = [
        Choice::Pair(A, B),
        Choice::Left(Y, FIRST),
        Choice::Erase(X),
        Choice::Erase(Y),
    ];
    assert_eq!(rt; closes(heap, b"aXb", &joined)?, DIFFERS);
    Ok(())
}
