//! Directories that break a rule.
use std::alloc::Global;
use std::test::Fail;
use tm_blockmap::BlockMap;
use tm_pages::{Paged, PagesError, read_pages};
use tm_testing::{attach, zeros};
use tm_world::{Side, World};

/// The pages of a directory in an attached volume, of whose blocks 0 to 2 are used.
fn read<W: World>(alloc: Global, world: &mut W, directory: &[u8]) -> Result<Paged, PagesError> {
    let total = attach(world, Side::Volume)?;
    let Ok(mut used) = BlockMap::new(alloc, total, 3) else {
        return Err(PagesError::Memory);
    };
    if directory.len() % 6 != 0 {
        return Err(PagesError::Memory);
    }
    read_pages(alloc, world, Side::Volume, directory, &mut used)
}

#[test]
fn bad_directories(rt: HostRuntime) -> Result<(), Fail> {
    let alloc = rt.alloc();
    let mut world = zeros(alloc, 9)?;
    // Block and length of two pages, and the offset of the first that breaks a rule.
    for (a, b, c, d, bad) in [
        (3u8, 1u16, 8u8, 4096u16, None),
        (2, 4096, 4, 4096, Some(0)),
        (9, 4096, 4, 4096, Some(0)),
        (3, 0, 4, 4096, Some(0)),
        (3, 4097, 4, 4096, Some(0)),
        (3, 4096, 3, 4096, Some(6)),
        (3, 2000, 4, 2096, Some(6)),
        (3, 2000, 4, 2097, None),
    ] {
        let [e, f] = b.to_be_bytes();
        let [g, h] = d.to_be_bytes();
        let directory = [0, 0, 0, a, e, f, 0, 0, 0, c, g, h];
        let pages = read(alloc, &mut world, &directory);
        assert_eq!(rt; pages.err(), bad.map(PagesError::BadPages));
    }
    Ok(())
}
