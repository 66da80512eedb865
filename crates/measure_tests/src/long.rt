// Words of several hundred letters against straightforward loops.

use crate::tools::{mixed_word, value_of};
use length::kind::Length;
use letters_used::kind::LettersUsed;
use machine::kind::Machine;
use std::array;
use std::test::Fail;

// How long the words are.
const LONG: [usize; 4] = [1, 26, 300, 900];

#[test]
fn counts_every_letter(rt: HostRuntime) -> Result<(), Fail> {
    let heap = rt.alloc();
    let kind = Length::new([0; 26], [1_000_000; 26])?;
    for n in LONG {
        let word = mixed_word(heap, n)?;
        // a cast, since there is no From of a u32 to usize
        assert_eq!(rt;
            value_of(heap, &kind, &[], word.as_slice())?.count as usize,
            n
        );
    }
    Ok(())
}

#[test]
fn collects_every_letter(rt: HostRuntime) -> Result<(), Fail> {
    let heap = rt.alloc();
    let kind = LettersUsed::new([0; 26], [0; 26])?;
    for n in LONG {
        let word = mixed_word(heap, n)?;
        let mut bits = 0u32;
        for letter in word.as_slice() {
            bits |= 1u32 << (*letter % 26);
        }
        assert_eq!(rt; value_of(heap, &kind, &[], word.as_slice())?.bits, bits);
    }
    Ok(())
}

#[test]
fn reads_letter_by_letter(rt: HostRuntime) -> Result<(), Fail> {
    let heap = rt.alloc();
    let next = array::from_fn(|i| (i * i % 13 % 8) as u8);
    let kind = Machine::new(next, [0; 26])?;
    for n in LONG {
        let word = mixed_word(heap, n)?;
        let value = value_of(heap, &kind, &[], word.as_slice())?;
        for (start, reached) in value.to.iter().enumerate() {
            let mut state = start;
            for letter in word.as_slice() {
                // 26 next states for each state, as a machine is handed over
                state = usize::from(next[state % 8 * 26 + usize::from(*letter) % 26]);
            }
            assert_eq!(rt; usize::from(*reached), state);
        }
    }
    Ok(())
}
