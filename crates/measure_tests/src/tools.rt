// What the tests share.

use measure::Measure;
use measure::values::{fill_values, word_value};
use measure::variable::Variable;
use model::Rule;
use std::alloc::Global;
use std::test::Fail;

// A word of so many letters a to z, in no simple order.
pub(crate) fn mixed_word(heap: Global, count: usize) -> Result<Vec<u16>, Fail> {
    let mut word = Vec::new(heap);
    let mut seed: u32 = 7;
    for _ in 0..count {
        seed = (seed % 4093 * 131 + 17) % 4093;
        word.push((seed % 26) as u16)?;
    }
    Ok(word)
}

// A table with room for so many letters.
pub(crate) fn table_for<K: Measure>(
    heap: Global,
    kind: &K,
    room: usize,
) -> Result<Vec<K::Value>, Fail> {
    Ok(vec![in heap; kind.empty(); room]?)
}

// The value of what the word spells by these rules.
pub(crate) fn value_of<K: Measure>(
    heap: Global,
    kind: &K,
    rules: &[Rule],
    word: &[u16],
) -> Result<K::Value, Fail> {
    let mut table = table_for(heap, kind, 64)?;
    fill_values(kind, rules, table.as_mut_slice())?;
    Ok(word_value(kind, table.as_slice(), word))
}

// Whether it passes for the variable.
pub(crate) fn passes<K: Measure>(
    heap: Global,
    kind: &K,
    word: &[u16],
    variable: u8,
) -> Result<bool, Fail> {
    let variable = Variable::new(variable).ok_or_else(|| Fail::new("no variable"))?;
    Ok(kind.passes(variable, value_of(heap, kind, &[], word)?))
}
