// What the close refuses, with all lines taken.
use crate::tools::refused_behind;
use std::test::Fail;

// Variables that are live, and sides that differ.
static STANDING: [(&[u8], &[u8]); 15] = [
    // live variables: the first from A
    (
        b"left right\nXa abY\n\nvariable least most\n\ndo name with\n",
        b"31 0 X",
    ),
    (
        b"left right\nX ab\n\nvariable least most\n\ndo name with",
        b"31 0 X",
    ),
    (
        b"left right\nBA AB\n\nvariable least most\n\ndo name with\n",
        b"31 0 A",
    ),
    (
        b"left right\nZ Y\na B\n\nvariable least most\n\ndo name with\n",
        b"31 0 B",
    ),
    (
        b"left right\nXa abY\n\nvariable least most\n\ndo name with\nerase X -\n",
        b"31 0 Y",
    ),
    (
        b"left right\nXa abY\n\nvariable least most\n\ndo name with\nerase X -",
        b"31 0 Y",
    ),
    // before sides that differ
    (
        b"left right\na b\nX -\n\nvariable least most\n\ndo name with\n",
        b"31 0 X",
    ),
    // sides that differ: the first equation
    (
        b"left right\na b\n\nvariable least most\n\ndo name with\n",
        b"32 0 1",
    ),
    (
        b"left right\n- a\n\nvariable least most\n\ndo name with\n",
        b"32 0 1",
    ),
    (
        b"left right\na a\na aa\na b\n\nvariable least most\n\ndo name with\n",
        b"32 0 2",
    ),
    (
        b"left right\nleft right\n\nvariable least most\n\ndo name with\n",
        b"32 0 1",
    ),
    (
        b"left right\n- -\n- -\n- -\n- -\n- -\n- -\n- -\n- -\n- -\na b\n\nvariable least most\n\ndo name with\n",
        b"32 0 10",
    ),
    (
        b"left right\nXb ab\n\nvariable least most\n\ndo name with\npair a b\nleft X a\nerase X -\n",
        b"32 0 1",
    ),
    // the same by other letters
    (
        b"left right\nX aa\n\nvariable least most\n\ndo name with\nblock a 2\nleft X a\nleft X a\nerase X -\n",
        b"32 0 1",
    ),
    // before limits
    (
        b"left right\nX a\na b\n\nvariable least most\nX 2 2\n\ndo name with\nleft X a\nerase X -\n",
        b"32 0 2",
    ),
];

#[test]
fn live_variables_and_sides(rt: HostRuntime) -> Result<(), Fail> {
    refused_behind(rt.alloc(), b"", &STANDING)
}

// Words that are too short or too long.
static LENGTHS: [(&[u8], &[u8]); 12] = [
    (
        b"left right\nXa abY\n\nvariable least most\nX 3 5\n\ndo name with\npair a b\nleft X #26\nerase X -\nleft Y a\nerase Y -\n",
        b"33 0 X",
    ),
    (
        b"left right\nXa abY\n\nvariable least most\nX 0 1\n\ndo name with\npair a b\nleft X #26\nerase X -\nleft Y a\nerase Y -\n",
        b"33 0 X",
    ),
    (
        b"left right\nXa abY\n\nvariable least most\nX 3 1000000\n\ndo name with\npair a b\nleft X #26\nerase X -\nleft Y a\nerase Y -\n",
        b"33 0 X",
    ),
    (
        b"left right\nXa abY\n\nvariable least most\nY 0 0\n\ndo name with\npair a b\nleft X #26\nerase X -\nleft Y a\nerase Y -\n",
        b"33 0 Y",
    ),
    (
        b"left right\nXa abY\n\nvariable least most\nY 2 2\n\ndo name with\npair a b\nleft X #26\nerase X -\nleft Y a\nerase Y -\n",
        b"33 0 Y",
    ),
    (
        b"left right\nXa abY\n\nvariable least most\nY 2 2\nX 2 2\n\ndo name with\npair a b\nleft X #26\nerase X -\nleft Y a\nerase Y -\n",
        b"33 0 Y",
    ),
    (
        b"left right\nXa abY\n\nvariable least most\nY 2 2\nX 3 3\n\ndo name with\npair a b\nleft X #26\nerase X -\nleft Y a\nerase Y -\n",
        b"33 0 X",
    ),
    (
        b"left right\nXa abY\n\nvariable least most\nA 5 5\nX 2 2\nY 9 9\n\ndo name with\npair a b\nleft X #26\nerase X -\nleft Y a\nerase Y -\n",
        b"33 0 Y",
    ),
    // an empty word
    (
        b"left right\nX -\n\nvariable least most\nX 1 2\n\ndo name with\nerase X -\n",
        b"33 0 X",
    ),
    // lengths count up to 1,000,000
    (
        b"left right\nX X\n\nvariable least most\nX 0 999999\n\ndo name with\nblock a 1000000\nleft X #26\nerase X -\n",
        b"33 0 X",
    ),
    (
        b"left right\nX X\n\nvariable least most\nX 1000000 1000000\n\ndo name with\nblock a 999999\nleft X #26\nerase X -\n",
        b"33 0 X",
    ),
    (
        b"left right\nX X\n\nvariable least most\nX 0 999999\n\ndo name with\nblock a 1000000\nblock #26 1000000\nleft X #27\nerase X -\n",
        b"33 0 X",
    ),
];

#[test]
fn lengths_of_words(rt: HostRuntime) -> Result<(), Fail> {
    refused_behind(rt.alloc(), b"", &LENGTHS)
}
