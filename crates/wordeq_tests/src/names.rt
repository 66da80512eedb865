// Names lines that are wrong or missing, and where tables end.
use crate::tools::{CHOICES, EQUATIONS, NO_EQUATION, refused_behind};
use std::test::Fail;

// Texts with another first line, or with no other line.
static FIRST: [(&[u8], &[u8]); 22] = [
    (b"", b"41 1 -"),
    (b"\n", b"41 1 -"),
    (b"\n\n", b"41 1 -"),
    (b"\nleft right\n", b"41 1 -"),
    (b" left right\n", b"41 1 -"),
    (b"left right \n", b"41 1 -"),
    (b"left  right\n", b"41 1 -"),
    (b"left\tright\n", b"41 1 -"),
    (b"left right\r\n", b"41 1 -"),
    (
        b"left right\r\n\r\nvariable least most\r\n\r\ndo name with\r\n",
        b"41 1 -",
    ),
    (b"left right\0\n", b"41 1 -"),
    (b"\xef\xbb\xbfleft right\n", b"41 1 -"),
    (b"Left right\n", b"41 1 -"),
    (b"right left\n", b"41 1 -"),
    (b"left\n", b"41 1 -"),
    (b"left right right\n", b"41 1 -"),
    (b"a a\n", b"41 1 -"),
    (b"variable least most\n", b"41 1 -"),
    (b"do name with\n", b"41 1 -"),
    (b"\xff", b"41 1 -"),
    // the line after the last, with and without a newline before it
    (b"left right", b"41 2 -"),
    (b"left right\n", b"41 2 -"),
];

#[test]
fn the_first_names_line(rt: HostRuntime) -> Result<(), Fail> {
    refused_behind(rt.alloc(), b"", &FIRST)
}

// What follows the first line, where the second table is missing or begins otherwise.
static SECOND: [(&[u8], &[u8]); 21] = [
    // the text stops before the second table, with and without its last newline
    (b"\n", b"41 3 -"),
    (b"a a", b"41 3 -"),
    (b"a a\n", b"41 3 -"),
    (b"a a\n\n", b"41 4 -"),
    // a second empty line
    (b"\n\n", b"41 3 -"),
    (b"\n\nvariable least most\n\ndo name with\n", b"41 3 -"),
    (b"a a\n\n\nvariable least most\n\ndo name with\n", b"41 4 -"),
    // another table, or none like it
    (b"\ndo name with", b"41 3 -"),
    (b"\ndo name with\n\nvariable least most\n", b"41 3 -"),
    (b"\nleft right\n", b"41 3 -"),
    (b"\nX 2 2\n", b"41 3 -"),
    (b"\nvariable least most \n", b"41 3 -"),
    (b"\nvariable least most\r\n", b"41 3 -"),
    (b"\nvariable most least\n", b"41 3 -"),
    (b"\nvariable least\n", b"41 3 -"),
    // the third table is missing
    (b"\nvariable least most", b"41 4 -"),
    (b"a a\n\nvariable least most", b"41 5 -"),
    // a names line again is an equation
    (b"left right", b"41 3 -"),
    (b"left right\n\n", b"41 4 -"),
    // no empty line before the next table
    (b"variable least most\n", b"42 2 -"),
    (b"do name with\n", b"42 2 -"),
];

#[test]
fn the_second_names_line(rt: HostRuntime) -> Result<(), Fail> {
    refused_behind(rt.alloc(), EQUATIONS, &SECOND)
}

// What follows the second names line, where the third table is missing or begins otherwise.
static THIRD: [(&[u8], &[u8]); 20] = [
    (b"", b"41 4 -"),
    (b"\n", b"41 5 -"),
    (b"X 0 1", b"41 5 -"),
    (b"X 0 1\n", b"41 5 -"),
    (b"X 0 1\n\n", b"41 6 -"),
    (b"X 0 1\nY 0 1\n\n", b"41 7 -"),
    (b"\n\n", b"41 5 -"),
    (b"\n\ndo name with\n", b"41 5 -"),
    (b"X 0 1\n\n\ndo name with\n", b"41 6 -"),
    (b"\nleft right\n", b"41 5 -"),
    (b"\nvariable least most\n", b"41 5 -"),
    (b"\ndo name with \n", b"41 5 -"),
    (b"\ndo name with\r\n", b"41 5 -"),
    (b"\n do name with\n", b"41 5 -"),
    (b"\ndo name  with\n", b"41 5 -"),
    (b"\nDo name with\n", b"41 5 -"),
    (b"\npair a b\n", b"41 5 -"),
    // no empty line before the third table
    (b"do name with\n", b"43 4 -"),
    (b"variable least most\n", b"43 4 -"),
    (b"left right\n", b"42 4 -"),
];

#[test]
fn the_third_names_line(rt: HostRuntime) -> Result<(), Fail> {
    refused_behind(rt.alloc(), NO_EQUATION, &THIRD)
}

// Lines of the third table that are empty, or names again.
static BEHIND: [(&[u8], &[u8]); 10] = [
    (b"\n", b"42 7 -"),
    (b"\n\n", b"42 7 -"),
    (b"\npair a b\n", b"42 7 -"),
    (b"pair a b\n\n", b"42 8 -"),
    (b"pair a b\n\nleft right\n", b"42 8 -"),
    (b"pair a b\n\npair a a\n", b"42 8 -"),
    (b"left X a\nleft X b\nerase X -\n\n", b"42 10 -"),
    (b"left right\n", b"42 7 -"),
    (b"variable least most\n", b"43 7 -"),
    (b"do name with\n", b"43 7 -"),
];

#[test]
fn nothing_ends_the_third_table(rt: HostRuntime) -> Result<(), Fail> {
    refused_behind(rt.alloc(), CHOICES, &BEHIND)
}
