// Lines of the first table.
use crate::tools::{EQUATIONS, refused_behind};
use std::test::Fail;

// Lines with a wrong number of fields, or an empty one.
static FIELDS: [(&[u8], &[u8]); 26] = [
    // one field, three, more
    (b"a\n", b"42 2 -"),
    (b"Xa,abY\n", b"42 2 -"),
    (b"a\tb\n", b"42 2 -"),
    (b"a\xa0b\n", b"42 2 -"),
    (b"\r\n", b"42 2 -"),
    (b"\t\n", b"42 2 -"),
    (b"-\n", b"42 2 -"),
    (b"a b c\n", b"42 2 -"),
    (b"a  b\n", b"42 2 -"),
    (b"-  -\n", b"42 2 -"),
    (b" a b\n", b"42 2 -"),
    (b"a b \n", b"42 2 -"),
    (b"  \n", b"42 2 -"),
    (b" a \n", b"42 2 -"),
    // a wrong number of fields before a byte that is no letter
    (b"1 2 3\n", b"42 2 -"),
    // empty fields, also before a byte that is no letter
    (b" \n", b"43 2 -"),
    (b" a\n", b"43 2 -"),
    (b"a \n", b"43 2 -"),
    (b"- \n", b"43 2 -"),
    (b" 1\n", b"43 2 -"),
    (b"1 \n", b"43 2 -"),
    // the second equation
    (b"a a\na\n", b"42 3 -"),
    (b"a a\na \n", b"43 3 -"),
    (b"a a\n\r\n", b"42 3 -"),
    // without a newline
    (b"a", b"42 2 -"),
    (b"a a\na ", b"43 3 -"),
];

#[test]
fn two_fields_that_are_not_empty(rt: HostRuntime) -> Result<(), Fail> {
    refused_behind(rt.alloc(), EQUATIONS, &FIELDS)
}

// Sides with a byte that is no letter and no variable, and some that are taken.
static SIDES: [(&[u8], &[u8]); 27] = [
    (b"Xa abY\r\n", b"1 2 -"),
    (b"Xa\r abY\n", b"1 2 -"),
    (b"X\ta abY\n", b"1 2 -"),
    (b"X a\xa0b\n", b"1 2 -"),
    (b"X \xc3\xa9\n", b"1 2 -"),
    (b"\x80 a\n", b"1 2 -"),
    (b"a \xff\n", b"1 2 -"),
    (b"\0 a\n", b"1 2 -"),
    (b"a a\0\n", b"1 2 -"),
    (b"X #26\n", b"1 2 -"),
    (b"#26 X\n", b"1 2 -"),
    (b"X 2\n", b"1 2 -"),
    (b"-- a\n", b"1 2 -"),
    (b"-a a\n", b"1 2 -"),
    (b"a a-\n", b"1 2 -"),
    (b"a @\n", b"1 2 -"),
    (b"a [\n", b"1 2 -"),
    (b"a `\n", b"1 2 -"),
    (b"a {\n", b"1 2 -"),
    (b"a a\na_b a\n", b"1 3 -"),
    // what is taken: the second table is missing
    (b"az AZ\n", b"41 3 -"),
    (b"- -\n", b"41 3 -"),
    (b"- a\n", b"41 3 -"),
    (b"a -\n", b"41 3 -"),
    // a refused load hides that the second table is missing or unreadable
    (b"a 1", b"1 2 -"),
    (b"a 1\n\n", b"1 2 -"),
    (b"a 1\n\nX 2 2\n", b"1 2 -"),
];

#[test]
fn any_byte_is_readable_in_a_side(rt: HostRuntime) -> Result<(), Fail> {
    refused_behind(rt.alloc(), EQUATIONS, &SIDES)
}
