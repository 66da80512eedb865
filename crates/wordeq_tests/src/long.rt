// Long texts, from both sides of each limit.
use crate::tools::{Desk, EMPTY_LISTING, joined, refused_behind, times};
use std::alloc::Global;
use std::test::Fail;

// Tables with these equations, no limits and these choices. With one equation the first choice is line 7.
fn tables(heap: Global, equations: &[u8], choices: &[u8]) -> Result<Vec<u8>, Fail> {
    joined(
        heap,
        &[
            b"left right\n",
            equations,
            b"\nvariable least most\n\ndo name with\n",
            choices,
        ],
    )
}

// The listing with these lines of rules and of words.
fn listing(heap: Global, rules: &[u8], words: &[u8]) -> Result<Vec<u8>, Fail> {
    joined(
        heap,
        &[
            b"letter make first second\n",
            rules,
            b"\nvariable length word\n",
            words,
        ],
    )
}

// The names of the first table, and an equation of two sides, each of so many of these bytes.
fn equation(heap: Global, byte: u8, left: usize, right: usize) -> Result<Vec<u8>, Fail> {
    let left = vec![in heap; byte; left]?;
    let right = vec![in heap; byte; right]?;
    joined(
        heap,
        &[
            b"left right\n",
            left.as_slice(),
            b" ",
            right.as_slice(),
            b"\n",
        ],
    )
}

// What follows an equation: no limits, and choices from line 7 on.
const AND_CHOICES: &[u8] = b"\nvariable least most\n\ndo name with\n";

#[test]
fn bytes_of_a_text(rt: HostRuntime) -> Result<(), Fail> {
    let heap = rt.alloc();
    // 11 bytes for the names, and the 32,768th byte decides
    let side = times(heap, b"a", 32_756)?;
    let head = joined(heap, &[b"left right\n", side.as_slice()])?;
    refused_behind(
        heap,
        head.as_slice(),
        &[
            (b"a", b"42 2 -"),
            (b" ", b"43 2 -"),
            (b" a", b"44 0 -"),
            (b"\n\n", b"44 0 -"),
        ],
    )?;
    let newlines = times(heap, b"\n", 32_768)?;
    refused_behind(
        heap,
        newlines.as_slice(),
        &[(b"", b"41 1 -"), (b"\n", b"44 0 -")],
    )
}

#[test]
fn places_of_equations(rt: HostRuntime) -> Result<(), Fail> {
    let heap = rt.alloc();
    let full = equation(heap, b'a', 512, 512)?;
    let accepted = joined(heap, &[full.as_slice(), AND_CHOICES])?;
    Desk::new(heap)?.prints(accepted.as_slice(), EMPTY_LISTING)?;
    refused_behind(
        heap,
        full.as_slice(),
        &[(b"- a\n", b"3 3 -"), (b"- -\n", b"41 4 -")],
    )?;
    let one_less = equation(heap, b'a', 512, 511)?;
    refused_behind(
        heap,
        one_less.as_slice(),
        &[
            (b"a -\n", b"41 4 -"),
            (b"X -\n- Y\n", b"3 4 -"),
            (b"aa -\n", b"3 3 -"),
        ],
    )
}

#[test]
fn the_thirty_third_equation(rt: HostRuntime) -> Result<(), Fail> {
    let heap = rt.alloc();
    let all = times(heap, b"a a\n", 32)?;
    let accepted = tables(heap, all.as_slice(), b"")?;
    Desk::new(heap)?.prints(accepted.as_slice(), EMPTY_LISTING)?;
    let head = joined(heap, &[b"left right\n", all.as_slice()])?;
    let long = times(heap, b"a", 1_024)?;
    let long = joined(heap, &[long.as_slice(), b" a\n"])?;
    refused_behind(
        heap,
        head.as_slice(),
        &[
            (b"- -\n", b"2 34 -"),
            // a byte that is no letter comes before, too many places behind
            (b"a1 a\n", b"1 34 -"),
            (long.as_slice(), b"2 34 -"),
        ],
    )
}

#[test]
fn the_thirty_second_equation(rt: HostRuntime) -> Result<(), Fail> {
    let heap = rt.alloc();
    let before = times(heap, b"a a\n", 31)?;
    let head = joined(heap, &[b"left right\n", before.as_slice()])?;
    let last = joined(heap, &[b"a b\n", AND_CHOICES])?;
    refused_behind(heap, head.as_slice(), &[(last.as_slice(), b"32 0 32")])
}

#[test]
fn places_of_choices(rt: HostRuntime) -> Result<(), Fail> {
    let heap = rt.alloc();
    // 1,024 times A
    let only = equation(heap, b'A', 512, 512)?;
    let only = joined(heap, &[only.as_slice(), AND_CHOICES])?;
    refused_behind(
        heap,
        only.as_slice(),
        &[
            (b"left A a\n", b"31 0 A"),
            (b"left A a\nleft A a\n", b"21 8 -"),
            (b"right A a\nleft A a\n", b"21 8 -"),
            (b"left A a\nright A a\n", b"21 8 -"),
            // a letter that is not known comes before
            (b"left A a\nleft A #26\n", b"12 8 -"),
        ],
    )?;
    let accepted = joined(heap, &[only.as_slice(), b"left A a\nerase A -\n"])?;
    Desk::new(heap)?.prints(
        accepted.as_slice(),
        b"letter make first second\n\nvariable length word\nA 1 a\n",
    )
}

#[test]
fn the_last_place(rt: HostRuntime) -> Result<(), Fail> {
    let heap = rt.alloc();
    // 1,022 times A, and B twice: after the first choice there is room for four places
    let with_b = equation(heap, b'A', 511, 511)?;
    let with_b = joined(heap, &[with_b.as_slice(), b"B B\n", AND_CHOICES])?;
    refused_behind(
        heap,
        with_b.as_slice(),
        &[
            (b"left A a\nleft B a\n", b"31 0 A"),
            (b"left A a\nleft A a\n", b"21 9 -"),
            (b"left A a\nleft B a\nright B a\n", b"21 10 -"),
            (b"left A a\nright B a\nleft A a\n", b"21 10 -"),
        ],
    )
}

#[test]
fn rules(rt: HostRuntime) -> Result<(), Fail> {
    let heap = rt.alloc();
    let choices = times(heap, b"pair a b\n", 512)?;
    let text = tables(heap, b"", choices.as_slice())?;
    let mut lines = Vec::new(heap);
    for letter in 26..=537u16 {
        let line = format!(in heap; "#{letter} pair a b\n")?;
        lines.extend_from_slice(line.as_bytes())?;
    }
    let listed = listing(heap, lines.as_slice(), b"")?;
    Desk::new(heap)?.prints(text.as_slice(), listed.as_slice())?;
    // with no equation the first choice is line 6
    refused_behind(
        heap,
        text.as_slice(),
        &[
            (b"pair a b\n", b"22 518 -"),
            (b"block #537 1000000\n", b"22 518 -"),
            (b"block #537 1\n", b"14 518 -"),
            (b"pair #537 #537\n", b"13 518 -"),
            (b"pair #538 a\n", b"43 518 -"),
        ],
    )
}

#[test]
fn rules_before_lengths(rt: HostRuntime) -> Result<(), Fail> {
    let heap = rt.alloc();
    // #27 spells ten to the twelfth letters
    let others = times(heap, b"pair a b\n", 510)?;
    let choices = joined(
        heap,
        &[b"block a 1000000\nblock #26 1000000\n", others.as_slice()],
    )?;
    let text = tables(heap, b"", choices.as_slice())?;
    refused_behind(heap, text.as_slice(), &[(b"block #27 2\n", b"22 518 -")])
}

#[test]
fn pops(rt: HostRuntime) -> Result<(), Fail> {
    let heap = rt.alloc();
    let choices = times(heap, b"left X a\n", 1_024)?;
    let text = tables(heap, b"X Y\n", choices.as_slice())?;
    refused_behind(
        heap,
        text.as_slice(),
        &[
            (b"left X a\n", b"23 1031 -"),
            (b"right X a\n", b"23 1031 -"),
            (b"right X #26\n", b"12 1031 -"),
            (b"left Q a\n", b"11 1031 Q"),
            (b"erase X -\nerase Y -\n", b"32 0 1"),
            // pops of a variable that is erased count too
            (b"erase X -\nleft Y a\n", b"23 1032 -"),
        ],
    )
}

#[test]
fn pops_before_places(rt: HostRuntime) -> Result<(), Fail> {
    let heap = rt.alloc();
    // 1,001 places at first; there would be 3,025
    let many = times(heap, b"Y", 1_000)?;
    let equation = joined(heap, &[b"X ", many.as_slice(), b"\n"])?;
    let choices = times(heap, b"left X a\n", 1_024)?;
    let text = tables(heap, equation.as_slice(), choices.as_slice())?;
    refused_behind(heap, text.as_slice(), &[(b"left Y a\n", b"23 1031 -")])
}

#[test]
fn the_longest_word(rt: HostRuntime) -> Result<(), Fail> {
    let heap = rt.alloc();
    // with X there are 2,048 places
    let choices = times(heap, b"right X a\n", 1_023)?;
    let text = tables(heap, b"X X\n", choices.as_slice())?;
    refused_behind(heap, text.as_slice(), &[(b"right X a\n", b"21 1030 -")])?;
    let found = joined(heap, &[text.as_slice(), b"erase X -\n"])?;
    let letters = times(heap, b",a", 1_022)?;
    let word = joined(heap, &[b"X 1023 a", letters.as_slice(), b"\n"])?;
    let listed = listing(heap, b"", word.as_slice())?;
    Desk::new(heap)?.prints(found.as_slice(), listed.as_slice())
}

#[test]
fn a_word_of_all_pops(rt: HostRuntime) -> Result<(), Fail> {
    let heap = rt.alloc();
    // the block makes room for more places
    let first = times(heap, b"left X a\n", 1_000)?;
    let last = times(heap, b"right X a\n", 24)?;
    let choices = joined(
        heap,
        &[first.as_slice(), b"block a 1000\n", last.as_slice()],
    )?;
    let text = tables(heap, b"X X\n", choices.as_slice())?;
    refused_behind(heap, text.as_slice(), &[(b"right X a\n", b"23 1032 -")])?;
    let found = joined(heap, &[text.as_slice(), b"erase X -\n"])?;
    let letters = times(heap, b",a", 1_023)?;
    let word = joined(heap, &[b"X 1024 a", letters.as_slice(), b"\n"])?;
    let listed = listing(heap, b"#26 block a 1000\n", word.as_slice())?;
    Desk::new(heap)?.prints(found.as_slice(), listed.as_slice())
}

// So many lines that double a letter, from a on.
fn doublings(heap: Global, count: u8) -> Result<Vec<u8>, Fail> {
    let mut all = Vec::new(heap);
    for made in 0..u16::from(count) {
        let line = match made {
            0 => format!(in heap; "block a 2\n")?,
            _ => format!(in heap; "block #{} 2\n", 25 + made)?,
        };
        all.extend_from_slice(line.as_bytes())?;
    }
    Ok(all)
}

// The lines of their rules in a listing.
fn doublings_listed(heap: Global, count: u8) -> Result<Vec<u8>, Fail> {
    let mut all = Vec::new(heap);
    for made in 0..u16::from(count) {
        let line = match made {
            0 => format!(in heap; "#26 block a 2\n")?,
            _ => format!(in heap; "#{} block #{} 2\n", 26 + made, 25 + made)?,
        };
        all.extend_from_slice(line.as_bytes())?;
    }
    Ok(all)
}

#[test]
fn thirty_nine_doublings(rt: HostRuntime) -> Result<(), Fail> {
    let heap = rt.alloc();
    let choices = doublings(heap, 39)?;
    let text = tables(heap, b"X X\n", choices.as_slice())?;
    refused_behind(heap, text.as_slice(), &[(b"block #64 2\n", b"24 46 -")])?;
    let found = joined(
        heap,
        &[text.as_slice(), b"left X #64\nright X #26\nerase X -\n"],
    )?;
    let rules = doublings_listed(heap, 39)?;
    let listed = listing(heap, rules.as_slice(), b"X 549755813890 #64,#26\n")?;
    Desk::new(heap)?.prints(found.as_slice(), listed.as_slice())
}
