ghost use Rattle.std.specs.Prelude.{◌≡◌, ◌-◌, ◌<◌, ◌≤◌, true, length, take, drop, slice_index};
ghost use Rattle.letters.specs.Holding.{rules_of};
ghost use Rattle.model.specs.Buffers.{Put};
ghost use Rattle.model.specs.Spelling.{known, spell, spell_word};
ghost use Rattle.model.specs.Witnesses.{all_below};
ghost use Rattle.witness.specs.Answers.{as_text};
ghost use Rattle.witness.specs.Rows.{Found, parts};

use letters::Letters;
use model::Rule;

// One of several letters in a row, by its index, and a place in what it spells.
#[derive(Clone, Copy)]
pub(crate) struct Spot {
    pub(crate) index: usize,
    pub(crate) skip: u64,
}

// How many letters a rule puts in a row.
// (Here and below a cast to usize, since there is no From for it; the proof shows that the number fits.)
fn count(rule: Rule) -> usize
    ensures { result ≡ length (parts rule) }
{
    match rule {
        Rule::Pair(_, _) => 2,
        Rule::Block(_, count) => count as usize,
    }
}

// One of the letters that a rule puts in a row.
fn part(rule: Rule, i: usize) -> u16
    requires { i < length (parts rule) }
    ensures { result ≡ slice_index (parts rule) i }
{
    match rule {
        Rule::Pair(first, second) => { if i == 0 { first } else { second } }
        Rule::Block(letter, _) => letter,
    }
}

// Where a place of what the letters spell is found, letter by letter.
fn scan(letters: &Letters, word: &[u16], place: u64) -> Spot
    requires { all_below (known (rules_of letters.now)) word.now ≡ true }
    ensures { Found (rules_of letters.now) word.now place result.index result.skip }
{
    let mut skip = place;
    for (index, letter) in word.iter().enumerate() {
        let length = letters.length(*letter).unwrap();
        if skip < length {
            return Spot { index, skip };
        }
        skip -= length;
    }
    Spot {
        index: word.len(),
        skip,
    }
}

// Where a place of what a rule stands for is found; in a block by a division.
fn locate(letters: &Letters, rule: Rule, place: u64) -> Spot
    requires known { all_below (known (rules_of letters.now)) (parts rule) ≡ true }
    requires within { place ≤ length (spell_word (rules_of letters.now) (parts rule)) }
    ensures { Found (rules_of letters.now) (parts rule) place result.index result.skip }
{
    match rule {
        Rule::Pair(first, second) => scan(letters, &[first, second], place),
        Rule::Block(letter, _) => {
            // 1 for a block of no letter, of whose letter nothing is asked
            let length = letters.length(letter).unwrap_or(1);
            Spot {
                index: (place / length) as usize,
                skip: place % length,
            }
        }
    }
}

// The letter of a to z at a place of what a letter spells.
pub(crate) fn letter_at(letters: &Letters, letter: u16, place: u64) -> u8
    requires known { letter < known (rules_of letters.now) }
    requires within { place < length (spell (rules_of letters.now) letter) }
    ensures { result ≡ slice_index (spell (rules_of letters.now) letter) place }
{
    match letters.rule(letter) {
        Some(rule) => {
            let spot = locate(letters, rule, place);
            letter_at(letters, part(rule, spot.index), spot.skip)
        }
        None => letter as u8,
    }
}

// Writes what a letter spells, from the place `start` on, into `out` from `at` on, as far as both go, and answers the place behind it.
// It goes into a letter only where it has something to write, so its steps are those of what it writes and of how deep the rules go.
fn fill_letter(letters: &Letters, letter: u16, start: u64, out: &mut [u8], at: usize) -> usize
    requires known { letter < known (rules_of letters.now) }
    requires within { start < length (spell (rules_of letters.now) letter) }
    requires room { at < length out.old }
    ensures { Put out.old at (as_text (take (length out.old - at) (drop start (spell (rules_of letters.now) letter)))) out.new result }
{
    match letters.rule(letter) {
        Some(rule) => {
            let spot = locate(letters, rule, start);
            let mut skip = spot.skip;
            let mut end = at;
            // by number, since a block is up to a million times one letter
            for i in spot.index..count(rule) {
                if end >= out.len() {
                    break;
                }
                end = fill_letter(letters, part(rule, i), skip, out, end);
                skip = 0;
            }
            end
        }
        None => {
            out[at] = b'a' + letter as u8;
            at + 1
        }
    }
}

// Writes what a word spells, from the place `start` on, which is at `spot`, as far as it and `out` go, and answers how much that is.
pub(crate) fn fill_word(
    letters: &Letters,
    word: &[u16],
    start: u64,
    spot: Spot,
    out: &mut [u8],
) -> usize
    requires known { all_below (known (rules_of letters.now)) word.now ≡ true }
    requires at { Found (rules_of letters.now) word.now start spot.index spot.skip }
    ensures { Put out.old 0 (as_text (take (length out.old) (drop start (spell_word (rules_of letters.now) word.now)))) out.new result }
{
    let mut skip = spot.skip;
    let mut end = 0;
    for letter in &word[spot.index..] {
        if end >= out.len() {
            break;
        }
        end = fill_letter(letters, *letter, skip, out, end);
        skip = 0;
    }
    end
}
