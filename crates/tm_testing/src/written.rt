//! Images that are written by hand, block by block (`docs/FORMATS.md`).
use crate::device::{attach, put_at, write_block};
use crate::worlds::pair;
use std::alloc::{AllocError, Global};
use tm_memworld::{MemWorld, Memory};
use tm_world::{Failed, Side};

/// How many bytes of a text a block of a chain has.
const CHAIN_BYTES: usize = 4092;

/// How many blocks the other image has, which holds zeros.
const OTHER_BLOCKS: u32 = 64;

/// As many blocks from `first` on as a text takes.
pub fn chain_of(alloc: Global, first: u32, text: &[u8]) -> Result<Vec<u32>, AllocError> {
    let count = u32::try_from(text.len().div_ceil(CHAIN_BYTES)).or(Err(AllocError))?;
    let mut chain = Vec::new(alloc);
    for place in 0..count {
        chain.push(first.saturating_add(place))?;
    }
    Ok(chain)
}

// Writes a text on a chain of these blocks. What would lie past the image's last block is left out.
fn write_chain(world: &mut MemWorld, side: Side, text: &[u8], chain: &[u32]) -> Result<(), Failed> {
    let total = attach(world, side)?;
    let mut rest = text;
    for (place, block) in chain.iter().enumerate() {
        let next = chain.get(place.saturating_add(1)).copied().unwrap_or(0);
        let (part, after) = rest.split_at(rest.len().min(CHAIN_BYTES));
        let mut bytes = [0u8; 4096];
        put_at(&mut bytes, 0, &next.to_be_bytes());
        put_at(&mut bytes, 4, part);
        if *block < total {
            write_block(world, side, *block, &bytes)?;
        }
        rest = after;
    }
    Ok(())
}

// Writes the slot that a selector of zeros names: a table of so many bytes begins on a block. The tag
// is given from its first byte on; what it lacks is zeros.
fn write_slot(
    world: &mut MemWorld,
    side: Side,
    first: u32,
    length: u64,
    tag: &[u8],
) -> Result<(), Failed> {
    let kind: u8 = match side {
        Side::Volume => 1,
        Side::Store => 2,
    };
    let mut bytes = [0u8; 4096];
    put_at(&mut bytes, 0, b"TMIMAGE1");
    put_at(&mut bytes, 8, &[kind, 1]);
    put_at(&mut bytes, 12, &first.to_be_bytes());
    put_at(&mut bytes, 24, &length.to_be_bytes());
    put_at(&mut bytes, 32, tag);
    write_block(world, side, 1, &bytes)
}

// Writes an image: its table stands on a chain of blocks.
fn write_image(
    world: &mut MemWorld,
    side: Side,
    tag: &[u8],
    text: &[u8],
    chain: &[u32],
) -> Result<(), Memory> {
    let blocks = chain.len() as u64;
    world.room(
        blocks.saturating_mul(2).saturating_add(64),
        blocks.saturating_add(64),
        0,
    )?;
    let first = chain.first().copied().unwrap_or(0);
    write_slot(world, side, first, text.len() as u64, tag).or(Err(Memory))?;
    write_chain(world, side, text, chain).or(Err(Memory))
}

/// A world with a store of so many blocks whose table has this text on a chain of these blocks, and
/// whose next backup has this number; no backup runs. The volume is one of zeros.
pub fn store_world(
    alloc: Global,
    blocks: u32,
    number: u64,
    text: &[u8],
    chain: &[u32],
) -> Result<MemWorld, Memory> {
    let mut tag = Vec::new(alloc);
    tag.resize(16, 0u8)?;
    tag.extend_from_slice(&number.to_be_bytes())?;
    let mut world = pair(alloc, OTHER_BLOCKS, blocks)?;
    write_image(&mut world, Side::Store, &tag, text, chain)?;
    Ok(world)
}

/// A world with a volume of so many blocks whose table has this text on a chain of these blocks: its
/// generation is 1, its next number 16, and it was closed cleanly or not. The store is one of zeros.
pub fn volume_world(
    alloc: Global,
    blocks: u32,
    is_clean: bool,
    text: &[u8],
    chain: &[u32],
) -> Result<MemWorld, Memory> {
    let tag: &[u8; 24] = if is_clean {
        b"\x01\0\0\0\0\0\0\0\0\0\0\0\0\0\0\x01\0\0\0\0\0\0\0\x10"
    } else {
        b"\0\0\0\0\0\0\0\0\0\0\0\0\0\0\0\x01\0\0\0\0\0\0\0\x10"
    };
    let mut world = pair(alloc, blocks, OTHER_BLOCKS)?;
    write_image(&mut world, Side::Volume, tag, text, chain)?;
    Ok(world)
}
