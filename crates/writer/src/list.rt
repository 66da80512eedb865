ghost use Rattle.std.specs.Prelude.{◌≡◌, ◌≤◌, List, drop, length, take, IfErr, IfOk};
ghost use Rattle.std.specs.Option.{option_map};
ghost use Rattle.std.specs.Result.{result_err};
ghost use Rattle.systems.specs.Runs.{Load};
ghost use Rattle.writing.specs.Records.{choices_of};
ghost use Rattle.writing.specs.Refusals.{given as words_given, write_number, write_refusal};
ghost use Rattle.writing.specs.Theorems.{RefusedRightly, Written};
ghost use Rattle.writing.specs.Writer.{Writes};
ghost use Rattle.checker.specs.Holding.{loading};
ghost use Rattle.checker.specs.Running.{AfterLoads};
ghost use Rattle.writer.specs.Solutions.{EverySolutionWritten};

use crate::store::MOST_CHOICES;
use crate::turns::write_rounds;
use checker::System;
use given::{GivenWords, read};
use leftover::Leftover;
use std::alloc::{AllocError, Global};
use writing::{ChoiceRecord, WriteRefusal};

// A writer of lists, one after another, in memory that is reserved once: `new` alone can lack memory.
#[derive(Drop)]
pub struct Writer {
    left: Leftover,
}

impl Writer {
    // Room for all that the writing of a list can need. (What is left of earlier words counts for nothing, so nothing is told of it.)
    pub fn new(heap: Global) -> Result<Writer, AllocError> {
        Ok(Writer {
            left: Leftover::new(heap)?,
        })
    }

    // Puts at the front of `list` the choices that the given words lead to, leaves what stands behind them, and answers how many they are; or says why
    // not and changes nothing there. Put in turn to the opened check, each of them fits and is taken, and after the last no variable is live.
    pub fn write(
        &mut self,
        system: &System,
        words: &GivenWords,
        list: &mut [ChoiceRecord],
    ) -> Result<usize, WriteRefusal>
        ensures refusal { result_err result ≡ write_refusal (loading system.now) words.now.buffer.now words.now.spans (length list.old) }
        ensures number { option_map write_number (result_err result) ≡ option_map write_number (write_refusal (loading system.now) words.now.buffer.now words.now.spans (length list.old)) }
        ensures list { IfOk result (λ n. Writes (loading system.now) (words_given (loading system.now) words.now.buffer.now words.now.spans) (choices_of (take n list.new))) }
        ensures count { IfOk result (λ n. n ≤ 1050) }
        ensures tail { IfOk result (λ n. drop n list.new ≡ drop n list.old) }
        ensures long { length list.new ≡ length list.old }
        ensures untouched { IfErr result (λ _. list.new ≡ list.old) }
        ensures writable { IfOk result (λ n. (loads : List Load) → AfterLoads loads (loading system.now) → Written loads (words_given (loading system.now) words.now.buffer.now words.now.spans) (choices_of (take n list.new))) }
        ensures every_solution { EverySolutionWritten (loading system.now) words.now.buffer.now words.now.spans (length list.old) result list.new }
        ensures rightly { (loads : List Load) → AfterLoads loads (loading system.now) → RefusedRightly loads words.now.buffer.now words.now.spans (length list.old) }
    {
        if list.len() < MOST_CHOICES {
            return Err(WriteRefusal::ShortList);
        }
        read(&mut self.left, system, words)?;
        Ok(write_rounds(list, &mut self.left))
    }
}
