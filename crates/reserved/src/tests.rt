// A list takes as many items as it has room for, and no more; cleared, it takes them again.
use crate::{Full, Reserved};
use std::test::Fail;

#[test]
fn as_many_as_there_is_room_for(rt: HostRuntime) -> Result<(), Fail> {
    let mut list: Reserved<u8, 3> = Reserved::new(rt.alloc())?;
    for item in [5, 6, 7] {
        assert_eq!(rt; list.push(item), Ok(()));
    }
    assert_eq!(rt; list.push(8), Err(Full));
    assert_eq!(rt; list.as_slice(), [5, 6, 7].as_slice());
    list.clear();
    assert_eq!(rt; list.len(), 0);
    assert_eq!(rt; list.push(8), Ok(()));
    assert_eq!(rt; list.as_slice(), [8].as_slice());
    Ok(())
}

#[test]
fn no_room_at_all(rt: HostRuntime) -> Result<(), Fail> {
    let mut list: Reserved<u8, 0> = Reserved::new(rt.alloc())?;
    assert_eq!(rt; list.push(1), Err(Full));
    assert_eq!(rt; list.len(), 0);
    Ok(())
}

#[test]
fn last_and_first(rt: HostRuntime) -> Result<(), Fail> {
    let mut list: Reserved<u8, 3> = Reserved::new(rt.alloc())?;
    for item in [5, 6, 7] {
        assert_eq!(rt; list.push(item), Ok(()));
    }
    assert_eq!(rt; list.pop(), Some(7));
    assert_eq!(rt; list.pop_first(), Some(5));
    assert_eq!(rt; list.as_slice(), [6].as_slice());
    assert_eq!(rt; list.pop_first(), Some(6));
    assert_eq!(rt; list.pop_first(), None);
    assert_eq!(rt; list.pop(), None);
    assert_eq!(rt; list.push(8), Ok(()));
    assert_eq!(rt; list.as_slice(), [8].as_slice());
    Ok(())
}
