// Lines of the second table, and what is refused there. The first of them is line 5.
use crate::tools::{LIMITS, refused_behind};
use std::test::Fail;

// Lines with a wrong number of fields, an unreadable one, or a variable that is listed already.
static FIELDS: [(&[u8], &[u8]); 30] = [
    (b"X\n", b"42 5 -"),
    (b"X 2\n", b"42 5 -"),
    (b"X 2 2 2\n", b"42 5 -"),
    (b"X  2 2\n", b"42 5 -"),
    (b" X 2 2\n", b"42 5 -"),
    (b"X 2 2 \n", b"42 5 -"),
    (b"X\t2\t2\n", b"42 5 -"),
    (b" \n", b"42 5 -"),
    (b"   \n", b"42 5 -"),
    (b"\r\n", b"42 5 -"),
    (b"x 2\n", b"42 5 -"),
    (b"X 2 2\nX 2\n", b"42 6 -"),
    (b"X 2", b"42 5 -"),
    (b"  \n", b"43 5 -"),
    (b" 2 2\n", b"43 5 -"),
    (b"X  2\n", b"43 5 -"),
    (b"X 2 \n", b"43 5 -"),
    // no variable
    (b"x 2 2\n", b"43 5 -"),
    (b"XY 2 2\n", b"43 5 -"),
    (b"- 2 2\n", b"43 5 -"),
    (b"2 2 2\n", b"43 5 -"),
    (b"#26 2 2\n", b"43 5 -"),
    (b"@ 2 2\n", b"43 5 -"),
    (b"[ 2 2\n", b"43 5 -"),
    (b"\xd8 2 2\n", b"43 5 -"),
    // listed twice, before 82 and behind 42
    (b"X 2 2\nX 2 2\n", b"43 6 -"),
    (b"X 2 2\nY 1 1\nX 3 4\n", b"43 7 -"),
    (b"Q 2 2\nQ 2 2\n", b"43 6 -"),
    (b"X 2 2\nX 2 1\n", b"43 6 -"),
    (b"X 2 1\nX 2 2\n", b"82 5 -"),
];

#[test]
fn a_variable_and_two_numbers(rt: HostRuntime) -> Result<(), Fail> {
    refused_behind(rt.alloc(), LIMITS, &FIELDS)
}

// Numbers that are unreadable or just readable.
static NUMBERS: [(&[u8], &[u8]); 32] = [
    (b"X 2 -\n", b"43 5 -"),
    (b"X - 2\n", b"43 5 -"),
    (b"X 2 a\n", b"43 5 -"),
    (b"X 2 #26\n", b"43 5 -"),
    (b"X 2 +2\n", b"43 5 -"),
    (b"X -2 2\n", b"43 5 -"),
    (b"X 2 2.0\n", b"43 5 -"),
    (b"X 2 1,000\n", b"43 5 -"),
    (b"X 2 1_000\n", b"43 5 -"),
    (b"X 2 0x2\n", b"43 5 -"),
    (b"X 2 2\r\n", b"43 5 -"),
    (b"X 2 2\xb2\n", b"43 5 -"),
    (b"X 2 \xd9\xa2\n", b"43 5 -"),
    (b"X 2 /\n", b"43 5 -"),
    (b"X 2 :\n", b"43 5 -"),
    // a zero in front
    (b"X 00 2\n", b"43 5 -"),
    (b"X 0 00\n", b"43 5 -"),
    (b"X 01 2\n", b"43 5 -"),
    (b"X 1 02\n", b"43 5 -"),
    (b"X 1 007\n", b"43 5 -"),
    (b"X 1 0000002\n", b"43 5 -"),
    // eight digits
    (b"X 1 00000002\n", b"43 5 -"),
    (b"X 1 10000000\n", b"43 5 -"),
    (b"X 10000000 1\n", b"43 5 -"),
    (b"X 1 99999999\n", b"43 5 -"),
    (b"X 1 4294967298\n", b"43 5 -"),
    (b"X 1 18446744073709551618\n", b"43 5 -"),
    // seven digits are a number
    (b"X 1 9999999\n", b"82 5 -"),
    (b"X 9999999 9999999\n", b"82 5 -"),
    (b"X 9999999 1\n", b"82 5 -"),
    (b"X 1000000 1000000\n", b"41 6 -"),
    // 0 is one
    (b"X 0 0\n", b"41 6 -"),
];

#[test]
fn one_to_seven_digits(rt: HostRuntime) -> Result<(), Fail> {
    refused_behind(rt.alloc(), LIMITS, &NUMBERS)
}

// Limits out of order, or just in order: then the third table is missing.
static ORDER: [(&[u8], &[u8]); 15] = [
    (b"X 2 1\n", b"82 5 -"),
    (b"X 1 0\n", b"82 5 -"),
    (b"X 2 2\n", b"41 6 -"),
    (b"X 1000000 999999\n", b"82 5 -"),
    (b"X 0 1000000\n", b"41 6 -"),
    (b"X 0 1000001\n", b"82 5 -"),
    (b"X 1000001 1000001\n", b"82 5 -"),
    // also where the variable stands in no equation
    (b"Q 2 1\n", b"82 5 -"),
    (b"Q 2 1000001\n", b"82 5 -"),
    (b"A 0 1\nZ 0 1\nM 7 6\n", b"82 7 -"),
    // before what follows
    (b"X 2 1\nX\n", b"82 5 -"),
    (b"X 2 1\n\n\n", b"82 5 -"),
    // an unreadable field comes before
    (b"x 2 1\n", b"43 5 -"),
    (b"X 2 01\n", b"43 5 -"),
    (b"X 2 1 1\n", b"42 5 -"),
];

#[test]
fn least_and_most(rt: HostRuntime) -> Result<(), Fail> {
    refused_behind(rt.alloc(), LIMITS, &ORDER)
}
