// What the tests share.
use checker::{Check, System};
use guarantee::CloseRefusal;
use length::kind::Length;
use length::value::Capped;
use measure::Measure;
use std::alloc::Global;
use std::test::Fail;
use systems::{Choice, ChoiceRefusal};
use witness::Witness;

// Two variables, and the first letter that is made.
pub(crate) const X: u8 = 23;

pub(crate) const Y: u8 = 24;

pub(crate) const FIRST: u16 = 26;

// A system with one equation.
pub(crate) fn one_equation(heap: Global, left: &[u8], right: &[u8]) -> Result<System, Fail> {
    let mut system = System::new(heap)?;
    system.load(left, right)?;
    Ok(system)
}

// A check of one equation after choices that are all taken.
pub(crate) fn chosen(
    heap: Global,
    left: &[u8],
    right: &[u8],
    choices: &[Choice],
) -> Result<Check, Fail> {
    let mut opened = one_equation(heap, left, right)?.open();
    for choice in choices {
        opened.choose(*choice)?;
    }
    Ok(opened)
}

// Each choice is refused so, or taken where there is no refusal beside it.
pub(crate) fn answers(
    opened: &mut Check,
    expected: &[(Choice, Option<ChoiceRefusal>)],
) -> Result<(), Fail> {
    for (choice, refusal) in expected {
        if opened.choose(*choice).err() != *refusal {
            return Err(Fail::new("a choice is answered otherwise"));
        }
    }
    Ok(())
}

// Any length passes.
pub(crate) fn any_length() -> Result<Length, Fail> {
    Ok(Length::new([0; 26], [1_000_000; 26])?)
}

// A table with room for so many letters.
pub(crate) fn table(heap: Global, kind: &Length, room: usize) -> Result<Vec<Capped>, Fail> {
    Ok(vec![in heap; kind.empty(); room]?)
}

// Why a close does not accept, where any length passes and the table has room.
pub(crate) fn close(
    heap: Global,
    opened: &Check,
    witness: &mut Witness,
) -> Result<Option<CloseRefusal>, Fail> {
    let kind = any_length()?;
    let mut values = table(heap, &kind, 538)?;
    Ok(opened.close(&kind, values.as_mut_slice(), witness).err())
}
