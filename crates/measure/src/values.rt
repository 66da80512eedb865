// Values of words and of what letters spell, for every kind.

ghost use Rattle.std.specs.Prelude.{◌≡◌, ℕ, ◌+◌, ◌^◌, ◌<◌, ◌≤◌, IsErr, IsOk, List, reverse, length, get_or, drop, slice_index_or};
ghost use Rattle.std.specs.List.{AllByRecursion};
ghost use Rattle.std.specs.Result.{is_ok, result_err};
ghost use Rattle.model.specs.Spelling.{known, spell_word};
ghost use Rattle.model.specs.Witnesses.{lower};
ghost use Rattle.systems.specs.Values.{rule_value, times, word_value};
ghost use Rattle.measure.specs.Tables.{Filled, fillable, fill_refusal, in_turn, table_value};

use crate::Measure;
use crate::letter::{LETTERS, Letter};
use model::Rule;
use thiserror::Error;

/// Why a table is not filled.
#[derive(Clone, Copy, PartialEq, Eq, Debug, Error)]
pub enum FillRefusal {
    /// it has no room for every known letter
    #[error("the value table has fewer entries than there are known letters, which are 26 and one for each rule")]
    SmallTable,
    /// a rule is made of letters that are not known before it
    #[error("a rule is made of letters that are not known before it")]
    OutOfTurn,
}

// A kind, and a table of values of letters under it.
#[derive(Drop)]
struct Values<'a, K: Measure> {
    kind: &'a K,
    table: &'a [K::Value],
}

impl<K: Measure> Values<'_, K> {
    // The value of a letter, or the empty value past the table.
    fn of_letter(&self, letter: u16) -> K::Value
        ensures { result ≡ slice_index_or self.now.table.now letter (K.nothing self.now.kind.now) }
    {
        self.table
            .get(usize::from(letter))
            .copied()
            .unwrap_or_else(|| self.kind.empty())
    }

    // The value of what a rule makes.
    fn of_rule(&self, rule: Rule) -> K::Value
        ensures { let k = self.now.kind.now in result ≡ rule_value (λ a. get_or self.now.table.now a (K.nothing k)) (K.nothing k) (K.joined k) rule }
    {
        match rule {
            Rule::Pair(a, b) => self.kind.join(self.of_letter(a), self.of_letter(b)),
            Rule::Block(a, count) => power(self.kind, self.of_letter(a), count),
        }
    }
}

// The value of a word, where the table has the values of its letters. Over a filled table it is the value of what the word spells.
pub fn word_value<K: Measure>(kind: &K, table: &[K::Value], word: &[u16]) -> K::Value
    ensures by_table { result ≡ table_value (K.nothing kind.now) (K.joined kind.now) table.now word.now }
    ensures by_spelling { let k = kind.now in (rules : List Rule) → Filled (K.single k) (K.nothing k) (K.joined k) rules table.now → AllByRecursion (λ a. a < known rules) word.now → result ≡ word_value (K.single k) (K.nothing k) (K.joined k) (spell_word rules word.now) }
{
    // a `for` and no `fold`: the closure of a fold takes a value apart and puts it together again at each letter
    let values = Values { kind, table };
    let mut value = kind.empty();
    for letter in word {
        value = kind.join(value, values.of_letter(*letter));
    }
    value
}

// A value joined `count` times, by repeated squaring: a count of 1,000,000 takes fewer than 30 joins. (A while, since the count is halved
// and no list is gone through.)
pub fn power<K: Measure>(kind: &K, value: K::Value, count: u32) -> K::Value
    ensures { result ≡ times (K.nothing kind.now) (K.joined kind.now) count value }
{
    let mut done = kind.empty();
    let mut square = value;
    let mut left = count;
    while left > 0 {
        if left % 2 == 1 {
            done = kind.join(done, square);
        }
        square = kind.join(square, square);
        left /= 2;
    }
    done
}

// Whether the letters of the rule are below the bound.
fn is_lower(bound: usize, rule: Rule) -> bool
    ensures { result ≡ lower bound rule }
{
    match rule {
        Rule::Pair(a, b) => usize::from(a) < bound && usize::from(b) < bound,
        Rule::Block(a, _) => usize::from(a) < bound,
    }
}

// Whether each rule, given oldest first, is made of letters known before it.
fn all_in_turn(rules: &[Rule]) -> bool
    requires { 26 + length rules.now < 2 ^ 64 }
    ensures { result ≡ in_turn (reverse rules.now) }
{
    rules
        .iter()
        .enumerate()
        .all(|(i, rule)| is_lower(LETTERS + i, *rule))
}

// Whether a table of this size can be filled by these rules, or why not.
fn check_fill(rules: &[Rule], size: usize) -> Result<(), FillRefusal>
    ensures { result_err result ≡ fill_refusal (reverse rules.now) size }
{
    if size < LETTERS || size - LETTERS < rules.len() {
        return Err(FillRefusal::SmallTable);
    }
    if !all_in_turn(rules) {
        return Err(FillRefusal::OutOfTurn);
    }
    Ok(())
}

// Puts the value of each of a to z into the table.
fn fill_letters<K: Measure>(kind: &K, table: &mut [K::Value])
    requires { 26 ≤ length table.old }
    ensures letters { (a : ℕ) → a < 26 → slice_index_or table.new a (K.nothing kind.now) ≡ K.single kind.now a }
    ensures rest { drop 26 table.new ≡ drop 26 table.old }
{
    for letter in Letter::all() {
        table[usize::from(letter.number())] = kind.letter(letter);
    }
}

// Fills the table with the value of what each known letter spells: a to z, and then each rule in turn, oldest first. Where the table has no room
// for them, or else a rule is made of letters that are not known before it, nothing is touched.
pub fn fill_values<K: Measure>(
    kind: &K,
    rules: &[Rule],
    table: &mut [K::Value],
) -> Result<(), FillRefusal>
    ensures taken { is_ok result ≡ fillable (reverse rules.now) (length table.old) }
    ensures refusal { result_err result ≡ fill_refusal (reverse rules.now) (length table.old) }
    ensures filled { let k = kind.now in IsOk result → Filled (K.single k) (K.nothing k) (K.joined k) (reverse rules.now) table.new }
    ensures rest { drop (26 + length rules.now) table.new ≡ drop (26 + length rules.now) table.old }
    ensures refused { IsErr result → table.new ≡ table.old }
{
    check_fill(rules, table.len())?;
    fill_letters(kind, table);
    for (i, rule) in rules.iter().enumerate() {
        table[LETTERS + i] = Values { kind, table }.of_rule(*rule);
    }
    Ok(())
}
