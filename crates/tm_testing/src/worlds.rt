//! Worlds with images of zeros.
use std::alloc::Global;
use tm_base::limits::MAX_BLOCKS;
use tm_memworld::{MemWorld, Memory};

/// Puts an image of so many zero blocks at a path. Of more than an image may have it is refused.
pub fn put_image(world: &mut MemWorld, path: &str, blocks: u32) -> Result<(), Memory> {
    if blocks > MAX_BLOCKS {
        return Err(Memory);
    }
    world.put_image(path, blocks)
}

/// A world with a volume of so many zero blocks, and room for 256 calls and as many writes.
pub fn zeros(alloc: Global, blocks: u32) -> Result<MemWorld, Memory> {
    let mut world = MemWorld::new(alloc)?;
    put_image(&mut world, "v", blocks)?;
    world.room(256, 256, 0)?;
    Ok(world)
}

/// A world with a volume and a store of so many zero blocks, without room.
pub fn pair(alloc: Global, volume: u32, store: u32) -> Result<MemWorld, Memory> {
    let mut world = MemWorld::new(alloc)?;
    put_image(&mut world, "v", volume)?;
    put_image(&mut world, "s", store)?;
    Ok(world)
}
