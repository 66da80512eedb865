// An example: a kind of a buyer's own, run over a word with rules, alone and together with the length kind.

#![tactic(auto)]

mod parity;

use crate::parity::EvenUses;
use anyhow::{Context, anyhow};
use combined::both::Both;
use length::kind::Length;
use measure::Measure;
use measure::values::{fill_values, word_value};
use measure::variable::{VARIABLES, Variable};
use model::Rule;
use std::alloc::Global;

// The letters a, e, i, o and u.
const VOWELS: u32 = 1 | 1 << 4 | 1 << 8 | 1 << 14 | 1 << 20;

// Whether what the word spells passes for the variable A. (The program says in its own words what failed.)
fn answer<K: Measure>(heap: Global, kind: &K, word: &[u16]) -> anyhow::Result<bool> {
    // ab, a million times ab, and cab
    let rules = [
        Rule::Pair(0, 1),
        Rule::Block(26, 1_000_000),
        Rule::Pair(2, 26),
    ];
    let mut table = vec![in heap; kind.empty(); 32]?;
    fill_values(kind, &rules, table.as_mut_slice()).map_err(|_| anyhow!(
        "the rules are not made in turn"
    ))?;
    let variable = Variable::new(0).context("no variable")?;
    Ok(kind.passes(variable, word_value(kind, table.as_slice(), word)))
}

fn run(rt: &HostRuntime) -> anyhow::Result<()> {
    let vowels = EvenUses::new(VOWELS);
    let short = Length::new([0; VARIABLES], [100; VARIABLES]).map_err(|_| anyhow!(
        "the limits are out of order"
    ))?;
    let both = Both {
        first: vowels,
        second: short,
    };
    let words: [&[u16]; 4] = [&[], &[28], &[28, 28], &[27]];
    for word in words {
        let even = answer(rt.alloc(), &vowels, word)?;
        let even_and_short = answer(rt.alloc(), &both, word)?;
        rt.println(format_args!("{even} {even_and_short}"))?;
    }
    Ok(())
}

fn main(rt: HostRuntime) -> anyhow::Result<()> {
    run(&rt)
}
