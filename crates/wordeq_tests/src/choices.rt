// Lines of the third table, and what is refused there. The first of them is line 7.
use crate::tools::{CHOICES, refused_behind};
use std::test::Fail;

// Lines with a wrong number of fields, or one that is unreadable.
static FIELDS: [(&[u8], &[u8]); 40] = [
    (b"erase X\n", b"42 7 -"),
    (b"erase X - -\n", b"42 7 -"),
    (b"erase X - \n", b"42 7 -"),
    (b"erase  X -\n", b"42 7 -"),
    (b" erase X -\n", b"42 7 -"),
    (b"pair a  b\n", b"42 7 -"),
    (b"pair\ta\tb\n", b"42 7 -"),
    (b"pair a b #26\n", b"42 7 -"),
    (b"block a\n", b"42 7 -"),
    (b"left X\n", b"42 7 -"),
    (b"\r\n", b"42 7 -"),
    (b" \n", b"42 7 -"),
    (b"   \n", b"42 7 -"),
    (b"pair A\n", b"42 7 -"),
    (b"pair a", b"42 7 -"),
    (b"  \n", b"43 7 -"),
    (b" X -\n", b"43 7 -"),
    (b"erase  -\n", b"43 7 -"),
    (b"erase X \n", b"43 7 -"),
    (b"pair a \n", b"43 7 -"),
    (b"pair  b\n", b"43 7 -"),
    (b"pair a ", b"43 7 -"),
    (b"pair a b\r\n", b"43 7 -"),
    // no choice of this name
    (b"Erase X -\n", b"43 7 -"),
    (b"erased X -\n", b"43 7 -"),
    (b"eras X -\n", b"43 7 -"),
    (b"pop X a\n", b"43 7 -"),
    (b"- X -\n", b"43 7 -"),
    (b"\xe9rase X -\n", b"43 7 -"),
    // what is not used is -
    (b"erase X a\n", b"43 7 -"),
    (b"erase X X\n", b"43 7 -"),
    (b"erase X 0\n", b"43 7 -"),
    (b"erase X --\n", b"43 7 -"),
    (b"erase X -\r\n", b"43 7 -"),
    // no variable
    (b"erase x -\n", b"43 7 -"),
    (b"erase - -\n", b"43 7 -"),
    (b"erase XX -\n", b"43 7 -"),
    (b"left x a\n", b"43 7 -"),
    (b"right #26 a\n", b"43 7 -"),
    (b"left a X\n", b"43 7 -"),
];

#[test]
fn what_to_do_and_two_fields(rt: HostRuntime) -> Result<(), Fail> {
    refused_behind(rt.alloc(), CHOICES, &FIELDS)
}

// Letters that are unreadable or just readable.
static LETTERS: [(&[u8], &[u8]); 33] = [
    (b"left X A\n", b"43 7 -"),
    (b"left X ab\n", b"43 7 -"),
    (b"left X -\n", b"43 7 -"),
    (b"left X 26\n", b"43 7 -"),
    (b"left X {\n", b"43 7 -"),
    (b"left X `\n", b"43 7 -"),
    (b"left X \xe1\n", b"43 7 -"),
    (b"left X #\n", b"43 7 -"),
    (b"left X #a\n", b"43 7 -"),
    (b"left X ##26\n", b"43 7 -"),
    (b"left X #0\n", b"43 7 -"),
    (b"left X #25\n", b"43 7 -"),
    (b"left X #026\n", b"43 7 -"),
    (b"left X #+26\n", b"43 7 -"),
    (b"left X #-26\n", b"43 7 -"),
    (b"left X #26x\n", b"43 7 -"),
    (b"left X #26\r\n", b"43 7 -"),
    (b"left X 26#\n", b"43 7 -"),
    (b"left X #538\n", b"43 7 -"),
    (b"left X #1000\n", b"43 7 -"),
    (b"left X #65562\n", b"43 7 -"),
    (b"left X #9999999\n", b"43 7 -"),
    (b"left X #10000000\n", b"43 7 -"),
    (b"left X # 26\n", b"42 7 -"),
    (b"pair #25 a\n", b"43 7 -"),
    (b"pair a #538\n", b"43 7 -"),
    (b"pair A b\n", b"43 7 -"),
    (b"block #538 2\n", b"43 7 -"),
    (b"block 2 a\n", b"43 7 -"),
    // what is readable is not made
    (b"left X #26\n", b"12 7 -"),
    (b"right X #537\n", b"12 7 -"),
    (b"pair #537 a\n", b"12 7 -"),
    (b"block #26 2\n", b"12 7 -"),
];

#[test]
fn letters_as_text(rt: HostRuntime) -> Result<(), Fail> {
    refused_behind(rt.alloc(), CHOICES, &LETTERS)
}

// Counts that are unreadable, out of range or in range: then X is live at the end.
static COUNTS: [(&[u8], &[u8]); 14] = [
    (b"block a -\n", b"43 7 -"),
    (b"block a b\n", b"43 7 -"),
    (b"block a #26\n", b"43 7 -"),
    (b"block a 00\n", b"43 7 -"),
    (b"block a 02\n", b"43 7 -"),
    (b"block a +2\n", b"43 7 -"),
    (b"block a 2\r\n", b"43 7 -"),
    (b"block a 10000000\n", b"43 7 -"),
    (b"block a 0\n", b"14 7 -"),
    (b"block a 1\n", b"14 7 -"),
    (b"block a 2\n", b"31 0 X"),
    (b"block a 1000000\n", b"31 0 X"),
    (b"block a 1000001\n", b"14 7 -"),
    (b"block a 9999999\n", b"14 7 -"),
];

#[test]
fn counts_of_blocks(rt: HostRuntime) -> Result<(), Fail> {
    refused_behind(rt.alloc(), CHOICES, &COUNTS)
}

// Choices that are readable, each with the first reason why it is refused, or with X live at the end.
static REASONS: [(&[u8], &[u8]); 34] = [
    (b"left Q a\n", b"11 7 Q"),
    (b"right Q a\n", b"11 7 Q"),
    (b"erase Q -\n", b"11 7 Q"),
    (b"erase A -\n", b"11 7 A"),
    (b"erase Z -\n", b"11 7 Z"),
    (b"erase X -\nerase X -\n", b"11 8 X"),
    (b"erase X -\nleft X a\n", b"11 8 X"),
    // before a letter that is not known, behind one that is unreadable
    (b"left Q #26\n", b"11 7 Q"),
    (b"left Q #25\n", b"43 7 -"),
    (b"erase Q a\n", b"43 7 -"),
    (b"erase Q\n", b"42 7 -"),
    // a letter that is not known, before equal letters and a count
    (b"left X #26\n", b"12 7 -"),
    (b"right X #26\n", b"12 7 -"),
    (b"pair a #26\n", b"12 7 -"),
    (b"pair #26 a\n", b"12 7 -"),
    (b"pair #26 #26\n", b"12 7 -"),
    (b"block #26 1\n", b"12 7 -"),
    (b"pair a b\nleft X #26\n", b"31 0 X"),
    (b"pair a b\nleft X #27\n", b"12 8 -"),
    (b"pair a b\npair #26 #27\n", b"12 8 -"),
    (b"pair a b\npair #26 c\npair #26 #27\n", b"31 0 X"),
    (b"left X z\n", b"31 0 X"),
    // equal letters
    (b"pair a a\n", b"13 7 -"),
    (b"pair a a", b"13 7 -"),
    (b"pair z z\n", b"13 7 -"),
    (b"pair a b\npair #26 #26\n", b"13 8 -"),
    (b"pair b a\n", b"31 0 X"),
    // ten to the twelfth letters, and one more
    (b"block a 1000000\nblock #26 1000000\n", b"31 0 X"),
    (
        b"block a 1000000\nblock #26 1000000\npair #27 a\n",
        b"24 9 -",
    ),
    (
        b"block a 1000000\nblock #26 1000000\npair a #27\n",
        b"24 9 -",
    ),
    (
        b"block a 1000000\nblock #26 1000000\nblock #27 2\n",
        b"24 9 -",
    ),
    (
        b"block a 1000000\nblock #26 999999\npair #26 #27\n",
        b"31 0 X",
    ),
    // a refused line hides what follows
    (b"pair a a\npair a\n", b"13 7 -"),
    (b"pair a a\n\n", b"13 7 -"),
];

#[test]
fn reasons_in_their_order(rt: HostRuntime) -> Result<(), Fail> {
    refused_behind(rt.alloc(), CHOICES, &REASONS)
}
