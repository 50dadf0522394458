//! Maps by hand, and one of the greatest image.
use super::*;
use std::test::Fail;

#[test]
fn the_lowest_free_block(rt: HostRuntime) -> Result<(), Fail> {
    let mut map = BlockMap::new(rt.alloc(), 5, 3)?;
    assert_eq!(rt; map.size(), 5);
    assert_eq!(rt; map.free(), 2);
    assert_eq!(rt; map.take(), Some(3));
    assert_eq!(rt; map.take(), Some(4));
    assert_eq!(rt; map.take(), None);

    let mut kept = BlockMap::new(rt.alloc(), 2, 3)?;
    assert_eq!(rt; kept.take(), None);
    Ok(())
}

#[test]
fn claimed_and_given(rt: HostRuntime) -> Result<(), Fail> {
    let mut map = BlockMap::new(rt.alloc(), 200, 0)?;
    assert!(rt; map.size() == 200);
    assert!(rt; map.claim(0));
    assert!(rt; !map.claim(0));
    assert_eq!(rt; map.free(), 199);
    let first = map.take_all(rt.alloc(), 130)?;
    assert_eq!(rt; first.first().copied(), Some(1));
    assert_eq!(rt; first.last().copied(), Some(130));
    assert_eq!(rt; map.free(), 69);
    map.give_all(&first);
    assert_eq!(rt; map.free(), 199);
    assert_eq!(rt; map.take(), Some(1));
    Ok(())
}

#[test]
fn every_block_of_the_greatest_image(rt: HostRuntime) -> Result<(), Fail> {
    let mut map = BlockMap::new(rt.alloc(), 262_144, 3)?;
    for block in 3..262_144u32 {
        assert_eq!(rt; map.take(), Some(block));
    }
    assert_eq!(rt; map.take(), None);
    assert_eq!(rt; map.free(), 0);
    Ok(())
}
