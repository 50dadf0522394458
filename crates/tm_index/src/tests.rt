//! Tests of the index: that numbers are set and taken out with ample memory.
use crate::Index;
use std::test::Fail;
use tm_base::Name;

#[test]
fn numbers_by_hand(rt: HostRuntime) -> Result<(), Fail> {
    let alloc = rt.alloc();
    let a = Name::read(alloc, b"a")?;
    let mut index = Index::new(alloc);
    assert_eq!(rt; index.get(7, &a), None);
    assert!(rt; index.is_empty(7));

    index.insert(7, Name::read(alloc, b"b")?, 2)?;
    index.insert(7, Name::read(alloc, b"a")?, 3)?;
    index.insert(8, Name::read(alloc, b"a")?, 4)?;
    assert_eq!(rt; index.get(7, &a), Some(3));
    assert_eq!(rt; index.get(8, &a), Some(4));
    let folder = index.folder(7).ok_or("none")?;
    assert_eq!(rt; folder.len(), 2);

    index.remove(8, &a);
    assert_eq!(rt; index.get(8, &a), None);
    assert!(rt; index.is_empty(8));
    assert!(rt; !index.is_empty(7));
    Ok(())
}
