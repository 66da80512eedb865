// The worked tables, and runs one after another.
use crate::tools::{Desk, EMPTY_LISTING, NO_EQUATION, WORKED, WORKED_LISTING, times};
use std::test::Fail;

#[test]
fn the_worked_tables(rt: HostRuntime) -> Result<(), Fail> {
    let mut desk = Desk::new(rt.alloc())?;
    desk.prints(WORKED, WORKED_LISTING)?;
    // without the last newline
    desk.prints(&WORKED[..WORKED.len() - 1], WORKED_LISTING)
}

// Texts that end in each way, with what is printed behind the first line of a refusal.
static ENDS: [(&[u8], &[u8]); 16] = [
    (b"left right\nX 1\n", b"1 2 -"),
    (b"left right\nXYZ abc", b"41 3 -"),
    (b"left right\nX a b\n", b"42 2 -"),
    (b"left right\nX \n", b"43 2 -"),
    (
        b"left right\nX X\n\nvariable least most\nX 0 0\nY 0 0\n\n",
        b"41 8 -",
    ),
    (
        b"left right\nX X\n\nvariable least most\nX 0 0\nY 0 0\nX 9 9\n",
        b"43 7 -",
    ),
    (
        b"left right\nX X\n\nvariable least most\nX 0 0\nY 2 1\n",
        b"82 6 -",
    ),
    (
        b"left right\nX X\n\nvariable least most\nX 0 0\n\ndo name with\nleft Y a\n",
        b"11 8 Y",
    ),
    (
        b"left right\nX X\n\nvariable least most\nX 0 0\n\ndo name with\npair b a\nleft X #27\n",
        b"12 9 -",
    ),
    (
        b"left right\nX X\n\nvariable least most\nY 0 0\n\ndo name with\nleft X b\npair a a\n",
        b"13 9 -",
    ),
    (
        b"left right\nX X\n\nvariable least most\nY 0 0\n\ndo name with\nright X b\nblock a 1\n",
        b"14 9 -",
    ),
    (
        b"left right\nX X\n\nvariable least most\nY 0 0\n\ndo name with\nblock a 1000000\nblock #26 1000000\nblock #27 2\n",
        b"24 10 -",
    ),
    (
        b"left right\nX X\n\nvariable least most\nX 0 0\n\ndo name with\nleft X b\n",
        b"31 0 X",
    ),
    (
        b"left right\nX Y\n\nvariable least most\nX 0 0\n\ndo name with\nleft X b\nerase X -\nerase Y -\n",
        b"32 0 1",
    ),
    (
        b"left right\nX X\n\nvariable least most\nX 0 0\n\ndo name with\npair b a\nleft X #26\nerase X -\n",
        b"33 0 X",
    ),
    (
        b"left right\nX X\n\nvariable least most\nX 0 0\n\ndo name with\nerase X a\n",
        b"43 8 -",
    ),
];

#[test]
fn a_run_behind_each_refusal(rt: HostRuntime) -> Result<(), Fail> {
    let mut desk = Desk::new(rt.alloc())?;
    for (text, refused) in &ENDS {
        desk.refuses(*text, *refused)?;
        desk.prints(WORKED, WORKED_LISTING)?;
    }
    Ok(())
}

#[test]
fn a_run_behind_others(rt: HostRuntime) -> Result<(), Fail> {
    let heap = rt.alloc();
    let mut desk = Desk::new(heap)?;
    desk.refuses(times(heap, b"a", 32_769)?.as_slice(), b"44 0 -")?;
    desk.prints(WORKED, WORKED_LISTING)?;
    // nothing of the worked tables is left, no rule, variable or limit
    desk.refuses(NO_EQUATION, b"41 4 -")?;
    desk.prints(
        b"left right\n\nvariable least most\n\ndo name with\n",
        EMPTY_LISTING,
    )?;
    desk.prints(
        b"left right\nX -\n\nvariable least most\n\ndo name with\nerase X -\n",
        b"letter make first second\n\nvariable length word\nX 0 -\n",
    )
}
