// Both and Opposite within each other.

use crate::tools::passes;
use combined::both::Both;
use combined::opposite::Opposite;
use length::kind::Length;
use letters_used::kind::LettersUsed;
use std::test::Fail;

#[test]
fn both_parts_and_their_opposite(rt: HostRuntime) -> Result<(), Fail> {
    let heap = rt.alloc();
    let short = Length::new([0; 26], [2; 26])?;
    let with_a = LettersUsed::new([1; 26], [0x3FF_FFFF; 26])?;
    // for B: no a in it
    let turned = Opposite::new(with_a, 0b10)?;
    let both = Both {
        first: short,
        second: turned,
    };
    // for B and C: not both
    let outer = Opposite::new(both, 0b110)?;
    let words: [&[u16]; 4] = [&[0], &[1], &[0, 0, 0], &[1, 1, 1]];
    let by_both = [
        [true, false, false, false],
        [false, true, false, false],
        [true, false, false, false],
    ];
    for (variable, row) in by_both.iter().enumerate() {
        let variable = variable as u8;
        for (word, expected) in words.iter().zip(row) {
            assert_eq!(rt; passes(heap, &both, word, variable)?, *expected);
            assert_eq!(rt;
                passes(heap, &outer, word, variable)?,
                *expected != (variable > 0)
            );
        }
    }
    Ok(())
}

#[test]
fn opposite_twice_is_the_kind(rt: HostRuntime) -> Result<(), Fail> {
    let heap = rt.alloc();
    let short = Length::new([1; 26], [2; 26])?;
    let twice = Opposite::new(Opposite::new(short, 0x3FF_FFFF)?, 0x3FF_FFFF)?;
    let words: [&[u16]; 4] = [&[], &[0], &[0, 1], &[0, 1, 2]];
    for word in words {
        assert_eq!(rt;
            passes(heap, &twice, word, 25)?,
            passes(heap, &short, word, 25)?
        );
    }
    Ok(())
}
