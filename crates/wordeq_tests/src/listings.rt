// Tables that are accepted, and their listings.
use crate::tools::Desk;
use std::test::Fail;

// Texts, each with all that is printed.
static PRINTED: [(&[u8], &[u8]); 32] = [
    // the worked tables, and limits that X and Y just meet
    (
        b"left right\nXa abY\n\nvariable least most\nX 2 2\n\ndo name with\npair a b\nleft X #26\nerase X -\nleft Y a\nerase Y -\n",
        b"letter make first second\n#26 pair a b\n\nvariable length word\nX 2 #26\nY 1 a\n",
    ),
    (
        b"left right\nXa abY\n\nvariable least most\nX 2 2\n\ndo name with\npair a b\nleft X #26\nerase X -\nleft Y a\nerase Y -",
        b"letter make first second\n#26 pair a b\n\nvariable length word\nX 2 #26\nY 1 a\n",
    ),
    (
        b"left right\nXa abY\n\nvariable least most\n\ndo name with\npair a b\nleft X #26\nerase X -\nleft Y a\nerase Y -\n",
        b"letter make first second\n#26 pair a b\n\nvariable length word\nX 2 #26\nY 1 a\n",
    ),
    (
        b"left right\nXa abY\n\nvariable least most\nX 0 2\n\ndo name with\npair a b\nleft X #26\nerase X -\nleft Y a\nerase Y -\n",
        b"letter make first second\n#26 pair a b\n\nvariable length word\nX 2 #26\nY 1 a\n",
    ),
    (
        b"left right\nXa abY\n\nvariable least most\nX 2 1000000\n\ndo name with\npair a b\nleft X #26\nerase X -\nleft Y a\nerase Y -\n",
        b"letter make first second\n#26 pair a b\n\nvariable length word\nX 2 #26\nY 1 a\n",
    ),
    (
        b"left right\nXa abY\n\nvariable least most\nY 1 1\nX 0 1000000\n\ndo name with\npair a b\nleft X #26\nerase X -\nleft Y a\nerase Y -\n",
        b"letter make first second\n#26 pair a b\n\nvariable length word\nX 2 #26\nY 1 a\n",
    ),
    // limits of a variable in no equation
    (
        b"left right\nXa abY\n\nvariable least most\nQ 9 9\n\ndo name with\npair a b\nleft X #26\nerase X -\nleft Y a\nerase Y -\n",
        b"letter make first second\n#26 pair a b\n\nvariable length word\nX 2 #26\nY 1 a\n",
    ),
    (
        b"left right\nXa abY\n\nvariable least most\nA 0 0\nX 2 2\nZ 1000000 1000000\n\ndo name with\npair a b\nleft X #26\nerase X -\nleft Y a\nerase Y -\n",
        b"letter make first second\n#26 pair a b\n\nvariable length word\nX 2 #26\nY 1 a\n",
    ),
    // nothing at all
    (
        b"left right\n\nvariable least most\n\ndo name with\n",
        b"letter make first second\n\nvariable length word\n",
    ),
    (
        b"left right\n\nvariable least most\n\ndo name with",
        b"letter make first second\n\nvariable length word\n",
    ),
    (
        b"left right\n\nvariable least most\nX 9 9\n\ndo name with\n",
        b"letter make first second\n\nvariable length word\n",
    ),
    (
        b"left right\n- -\n\nvariable least most\n\ndo name with\n",
        b"letter make first second\n\nvariable length word\n",
    ),
    (
        b"left right\nab ab\nz z\n\nvariable least most\n\ndo name with\n",
        b"letter make first second\n\nvariable length word\n",
    ),
    // empty words
    (
        b"left right\nX -\n\nvariable least most\n\ndo name with\nerase X -\n",
        b"letter make first second\n\nvariable length word\nX 0 -\n",
    ),
    (
        b"left right\nX -\n\nvariable least most\n\ndo name with\nerase X -",
        b"letter make first second\n\nvariable length word\nX 0 -\n",
    ),
    (
        b"left right\n- ZAZ\n\nvariable least most\nA 0 0\n\ndo name with\nerase Z -\nerase A -\n",
        b"letter make first second\n\nvariable length word\nA 0 -\nZ 0 -\n",
    ),
    // letters popped left in order, then those popped right in reverse
    (
        b"left right\nX ab\n\nvariable least most\n\ndo name with\nleft X a\nleft X b\nerase X -\n",
        b"letter make first second\n\nvariable length word\nX 2 a,b\n",
    ),
    (
        b"left right\nX ab\n\nvariable least most\n\ndo name with\nright X b\nright X a\nerase X -\n",
        b"letter make first second\n\nvariable length word\nX 2 a,b\n",
    ),
    (
        b"left right\nX abcd\n\nvariable least most\n\ndo name with\nright X d\nleft X a\nright X c\nleft X b\nerase X -\n",
        b"letter make first second\n\nvariable length word\nX 4 a,b,c,d\n",
    ),
    // blocks
    (
        b"left right\naX Xa\n\nvariable least most\n\ndo name with\nleft X a\nleft X a\nerase X -\nblock a 3\n",
        b"letter make first second\n#26 block a 3\n\nvariable length word\nX 2 a,a\n",
    ),
    (
        b"left right\nX aaa\n\nvariable least most\n\ndo name with\nblock a 2\nleft X a\nleft X a\nleft X a\nerase X -\n",
        b"letter make first second\n#26 block a 2\n\nvariable length word\nX 3 a,a,a\n",
    ),
    (
        b"left right\nX aabaaabaa\n\nvariable least most\n\ndo name with\nblock a 2\nleft X #26\nleft X b\nleft X a\nleft X a\nleft X a\nleft X b\nleft X #26\nerase X -\n",
        b"letter make first second\n#26 block a 2\n\nvariable length word\nX 9 #26,b,a,a,a,b,#26\n",
    ),
    // pairs: not across a variable, and in order
    (
        b"left right\nX abab\n\nvariable least most\n\ndo name with\npair a b\nleft X #26\nleft X #26\nerase X -\n",
        b"letter make first second\n#26 pair a b\n\nvariable length word\nX 4 #26,#26\n",
    ),
    (
        b"left right\naXb Yb\n\nvariable least most\n\ndo name with\npair a b\nleft Y a\nerase X -\nerase Y -\n",
        b"letter make first second\n#26 pair a b\n\nvariable length word\nX 0 -\nY 1 a\n",
    ),
    (
        b"left right\nX ba\n\nvariable least most\n\ndo name with\npair a b\nleft X b\nleft X a\nerase X -\n",
        b"letter make first second\n#26 pair a b\n\nvariable length word\nX 2 b,a\n",
    ),
    // rules that stand in no equation
    (
        b"left right\n\nvariable least most\n\ndo name with\npair z a\nblock #26 12\npair #27 #26\n",
        b"letter make first second\n#26 pair z a\n#27 block #26 12\n#28 pair #27 #26\n\nvariable length word\n",
    ),
    // a policy number of nine letters, built of two fields of four
    (
        b"left right\nP CmS\nC hull\nSab abS\n\nvariable least most\nP 9 9\nC 4 4\nS 4 4\n\ndo name with\nleft C h\nleft C u\nleft C l\nleft C l\nerase C -\npair a b\nleft S #26\nleft S #26\nerase S -\nleft P h\nleft P u\nleft P l\nleft P l\nleft P m\nleft P #26\nleft P #26\nerase P -\n",
        b"letter make first second\n#26 pair a b\n\nvariable length word\nC 4 h,u,l,l\nP 9 h,u,l,l,m,#26,#26\nS 4 #26,#26\n",
    ),
    // many variables, listed from A to Z
    (
        b"left right\nCBA abc\n\nvariable least most\nC 1 1\nA 1 1\n\ndo name with\nleft C a\nerase C -\nleft B b\nleft A c\nerase A -\nerase B -\n",
        b"letter make first second\n\nvariable length word\nA 1 c\nB 1 b\nC 1 a\n",
    ),
    // lengths that count as 1,000,000, and are told whole
    (
        b"left right\nX X\n\nvariable least most\nX 1000000 1000000\n\ndo name with\nblock a 1000000\nleft X #26\nerase X -\n",
        b"letter make first second\n#26 block a 1000000\n\nvariable length word\nX 1000000 #26\n",
    ),
    (
        b"left right\nX X\n\nvariable least most\nX 999999 999999\n\ndo name with\nblock a 999999\nleft X #26\nerase X -\n",
        b"letter make first second\n#26 block a 999999\n\nvariable length word\nX 999999 #26\n",
    ),
    (
        b"left right\nX X\n\nvariable least most\nX 1000000 1000000\n\ndo name with\nblock a 1000000\nblock #26 1000000\nleft X #27\nright X #27\nerase X -\n",
        b"letter make first second\n#26 block a 1000000\n#27 block #26 1000000\n\nvariable length word\nX 2000000000000 #27,#27\n",
    ),
    (
        b"left right\nX X\n\nvariable least most\n\ndo name with\nblock a 1000000\nblock #26 1000000\nleft X #27\nerase X -\n",
        b"letter make first second\n#26 block a 1000000\n#27 block #26 1000000\n\nvariable length word\nX 1000000000000 #27\n",
    ),
];

#[test]
fn listings(rt: HostRuntime) -> Result<(), Fail> {
    let mut desk = Desk::new(rt.alloc())?;
    for (text, listing) in &PRINTED {
        desk.prints(*text, *listing)?;
    }
    Ok(())
}
