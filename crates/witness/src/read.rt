ghost use Rattle.std.specs.Prelude.{◌≡◌, ◌≤◌, true, reverse, length, take, IfSome, IfErr};
ghost use Rattle.std.specs.Option.{option_map};
ghost use Rattle.letters.specs.Holding.{rules_of};
ghost use Rattle.model.specs.Spelling.{spell_word};
ghost use Rattle.model.specs.Witnesses.{spelled, word_of};
ghost use Rattle.witness.specs.Answers.{fill_answer, filled, length_answer, letter_answer};
ghost use Rattle.witness.specs.Holding.{contents_of};
ghost use Rattle.witness.specs.Laws.{EveryWitnessIsValid};
ghost use Rattle.witness.specs.Refusals.{refusal_number, witness_number};
ghost use Rattle.witness.specs.Rows.{Found};
ghost use Rattle.witness.specs.Seats.{cut_out, entries, tight};

use crate::refusals::WitnessRefusal;
use crate::seats::Seat;
use crate::spelling::{Spot, fill_word, letter_at};
use crate::store::Witness;
use model::Rule;
use std::ops::Range;

// Whatever calls led to it, a witness keeps its limits, its letters are known and its variables rise.
pub fn every_witness_is_valid()
    ensures { EveryWitnessIsValid }
{}

impl WitnessRefusal {
    // The refusal's number.
    pub fn number(self) -> u8
        ensures { result ≡ witness_number self }
    {
        self as u8
    }
}

// Where the word of a variable stands, among the letters that the seats cut into words.
// (From the newest seat on, and by no binary search: of at most 26 seats it would need two by index, and that their variables rise.)
fn find(seats: &[Seat], letters: &[u16], variable: u8) -> Option<Range<usize>>
    requires { tight (length letters.now) (reverse seats.now) ≡ true }
    ensures word { option_map (λ span. cut_out span letters.now) result ≡ word_of (entries (reverse seats.now) letters.now) variable }
    ensures within { IfSome result (λ span. (span.start ≤ span.end) × (span.end ≤ length letters.now)) }
{
    let mut end = letters.len();
    let mut before = seats;
    while let Some((seat, older)) = before.split_last() {
        if seat.variable == variable {
            return Some(seat.start..end);
        }
        end = seat.start;
        before = older;
    }
    None
}

// Reading a witness. Each refusal of length, letter and fill is promised by its number too.
impl Witness {
    // The rules, the oldest first.
    pub fn rules(&self) -> &[Rule]
        ensures { reverse result.now ≡ (contents_of self.now).rules }
    {
        self.made.rules()
    }

    // Where the word of a variable stands.
    fn span(&self, variable: u8) -> Option<Range<usize>>
        ensures word { option_map (λ span. cut_out span self.now.letters) result ≡ word_of (contents_of self.now).entries variable }
        ensures within { IfSome result (λ span. (span.start ≤ span.end) × (span.end ≤ length self.now.letters)) }
    {
        find(self.seats.as_slice(), self.letters.as_slice(), variable)
    }

    // How many letters a to z the first i letters spell.
    pub(crate) fn upto(&self, i: usize) -> u64
        requires { i ≤ length self.now.letters }
        ensures { result ≡ length (spell_word (rules_of self.now.made) (take i self.now.letters)) }
    {
        if i == 0 {
            0
        } else {
            self.ends.as_slice()[i - 1]
        }
    }

    // The word of a variable, if it has one.
    pub fn word(&self, variable: u8) -> Option<&[u16]>
        ensures { option_map (λ x. x.now) result ≡ word_of (contents_of self.now).entries variable }
    {
        let span = self.span(variable)?;
        Some(&self.letters.as_slice()[span])
    }

    // The length of what a variable's word spells: at most 1,024 times 1,000,000,000,000, so it fits.
    pub fn length(&self, variable: u8) -> Result<u64, WitnessRefusal>
        ensures answer { result ≡ length_answer (spelled (contents_of self.now) variable) }
        ensures number { IfErr result (λ e. witness_number e ≡ refusal_number (spelled (contents_of self.now) variable)) }
    {
        let Range { start, end } = self.span(variable).ok_or(WitnessRefusal::Absent)?;
        Ok(self.upto(end) - self.upto(start))
    }

    // Where a place of what the letters before `end` spell is found, by halves.
    fn search(&self, end: usize, place: u64) -> Spot
        requires { end ≤ length self.now.letters }
        ensures { Found (rules_of self.now.made) (take end self.now.letters) place result.index result.skip }
    {
        let index = self.ends.as_slice()[..end].partition_point(|upto| *upto <= place);
        Spot {
            index,
            skip: place - self.upto(index),
        }
    }

    // The letter, from a as 0, at a place of what a variable's word spells.
    pub fn letter(&self, variable: u8, place: u64) -> Result<u8, WitnessRefusal>
        ensures answer { result ≡ letter_answer (spelled (contents_of self.now) variable) place }
        ensures number { IfErr result (λ e. witness_number e ≡ refusal_number (spelled (contents_of self.now) variable)) }
    {
        let Range { start, end } = self.span(variable).ok_or(WitnessRefusal::Absent)?;
        let before = self.upto(start);
        if place >= self.upto(end) - before {
            return Err(WitnessRefusal::PastWord);
        }
        let spot = self.search(end, before + place);
        Ok(letter_at(&self.made, self.letters.as_slice()[spot.index], spot.skip))
    }

    // Fills a buffer with the letters a to z of what a variable's word spells, from a place on.
    // (A cast of its length, since there is no From to u64.)
    pub fn fill(&self, variable: u8, start: u64, buffer: &mut [u8]) -> Result<(), WitnessRefusal>
        ensures answer { result ≡ fill_answer (spelled (contents_of self.now) variable) start (length buffer.old) }
        ensures number { IfErr result (λ e. witness_number e ≡ refusal_number (spelled (contents_of self.now) variable)) }
        ensures holds { buffer.new ≡ filled (spelled (contents_of self.now) variable) start buffer.old }
    {
        let span = self.span(variable).ok_or(WitnessRefusal::Absent)?;
        let end = span.end;
        let before = self.upto(span.start);
        let length = self.upto(end) - before;
        if start > length || buffer.len() as u64 > length - start {
            return Err(WitnessRefusal::PastWord);
        }
        let spot = self.search(end, before + start);
        fill_word(
            &self.made,
            &self.letters.as_slice()[..end],
            before + start,
            spot,
            buffer,
        );
        Ok(())
    }
}
