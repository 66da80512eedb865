// Texts that are no listings, and the line at which each is refused.
use listing::{ReadRefusal, Reader};
use std::alloc::Global;
use std::test::Fail;
use witness::Witness;

// The refused line, or 0 for a listing.
fn refused(heap: Global, text: &[u8]) -> Result<usize, Fail> {
    match Reader::new(heap)?.read(&mut Witness::new(heap)?, text) {
        Ok(()) => Ok(0),
        Err(ReadRefusal::NotListing { line }) => Ok(line),
    }
}

#[test]
fn the_first_table(rt: HostRuntime) -> Result<(), Fail> {
    let heap = rt.alloc();
    assert_eq!(rt; refused(heap, b"")?, 1);
    assert_eq!(rt; refused(heap, b"letter make first second")?, 1);
    assert_eq!(rt; refused(heap, b"letter make first second\r\n")?, 1);
    assert_eq!(rt; refused(heap, b"letter make first second\n")?, 2);
    assert_eq!(rt;
        refused(heap, b"letter make first second\n#26 pair a a\n")?,
        2
    );
    assert_eq!(rt;
        refused(heap, b"letter make first second\n#26 pair a #26\n")?,
        2
    );
    assert_eq!(rt;
        refused(heap, b"letter make first second\n#27 pair a b\n")?,
        2
    );
    assert_eq!(rt;
        refused(heap, b"letter make first second\n#026 pair a b\n")?,
        2
    );
    assert_eq!(rt;
        refused(heap, b"letter make first second\n#26 pair a b c\n")?,
        2
    );
    Ok(())
}

#[test]
fn counts(rt: HostRuntime) -> Result<(), Fail> {
    let heap = rt.alloc();
    assert_eq!(rt;
        refused(heap, b"letter make first second\n#26 block a 1\n")?,
        2
    );
    assert_eq!(rt;
        refused(heap, b"letter make first second\n#26 block a 02\n")?,
        2
    );
    assert_eq!(rt;
        refused(heap, b"letter make first second\n#26 block a 1000001\n")?,
        2
    );
    assert_eq!(rt;
        refused(
            heap,
            b"letter make first second\n#26 block a 1000000\n#27 block #26 1000000\n#28 pair #27 a\n",
        )?,
        4
    );
    Ok(())
}

#[test]
fn the_second_table(rt: HostRuntime) -> Result<(), Fail> {
    let heap = rt.alloc();
    assert_eq!(rt;
        refused(heap, b"letter make first second\n\nvariable length word\n")?,
        0
    );
    assert_eq!(rt;
        refused(
            heap,
            b"letter make first second\n\nvariable length word\nX 1 a\n",
        )?,
        0
    );
    assert_eq!(rt;
        refused(
            heap,
            b"letter make first second\n\nvariable length word\nX 1 a",
        )?,
        4
    );
    assert_eq!(rt;
        refused(
            heap,
            b"letter make first second\n\nvariable length word\nX 01 a\n",
        )?,
        4
    );
    assert_eq!(rt;
        refused(
            heap,
            b"letter make first second\n\nvariable length word\nX 1 a,\n",
        )?,
        4
    );
    assert_eq!(rt;
        refused(
            heap,
            b"letter make first second\n\nvariable length word\nX 1 -\n",
        )?,
        4
    );
    assert_eq!(rt;
        refused(
            heap,
            b"letter make first second\n\nvariable length word\nX 2 a\n",
        )?,
        4
    );
    assert_eq!(rt;
        refused(
            heap,
            b"letter make first second\n\nvariable length word\nX 1 a b\n",
        )?,
        4
    );
    assert_eq!(rt;
        refused(
            heap,
            b"letter make first second\n\nvariable length word\nX 1 a\nX 1 a\n",
        )?,
        5
    );
    assert_eq!(rt;
        refused(
            heap,
            b"letter make first second\n\nvariable length word\nX 1 a\n\n",
        )?,
        5
    );
    Ok(())
}
