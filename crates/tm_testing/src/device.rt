//! The image of a side, block by block.
ghost use Rattle.std.specs.Prelude.{◌≡◌, ◌≤◌, ℕ, false, IfOk};
ghost use Rattle.tm_base.specs.Limits.{max_blocks};
ghost use Rattle.tm_world.specs.Outside.{disk};
ghost use Rattle.tm_world.specs.Log.{now};

use tm_world::{Failed, Part, Side, World};

/// Attaches the image of a side. How many blocks it has.
pub fn attach<W: World>(world: &mut W, side: Side) -> Result<u32, Failed>
    ensures blocks { IfOk result (λ n. W.blocks world.new side ≡ n) }
    ensures small { IfOk result (λ n. n ≤ max_blocks) }
{
    match side {
        Side::Volume => world.attach(Part::Volume, "v", None),
        Side::Store => world.attach(Part::Store, "s", None),
    }
}

/// Attaches the image of a side and makes stable what was written there. How many blocks it has.
pub fn attach_stable<W: World>(world: &mut W, side: Side) -> Result<u32, Failed>
    ensures blocks { IfOk result (λ n. W.blocks world.new side ≡ n) }
    ensures small { IfOk result (λ n. n ≤ max_blocks) }
    ensures stable { W.told → IfOk result (λ _. (b : ℕ) → (disk side (now (W.log world.new))).loose b ≡ false) }
{
    let blocks = attach(world, side)?;
    world.sync(side)?;
    Ok(blocks)
}

/// Attaches a side and reads a block of it.
pub fn read_block<W: World>(world: &mut W, side: Side, block: u32) -> Result<[u8; 4096], Failed> {
    if block >= attach(world, side)? {
        return Err(Failed);
    }
    let mut bytes = [0u8; 4096];
    world.read(side, block, &mut bytes)?;
    Ok(bytes)
}

/// Attaches a side and writes a block of it.
pub fn write_block<W: World>(
    world: &mut W,
    side: Side,
    block: u32,
    bytes: &[u8; 4096],
) -> Result<(), Failed> {
    if block >= attach(world, side)? {
        return Err(Failed);
    }
    world.write(side, block, bytes)
}

/// Puts bytes into a block from a place on, as far as they fit.
pub(crate) fn put_at(block: &mut [u8; 4096], at: usize, part: &[u8]) {
    for (place, byte) in part.iter().enumerate() {
        if let Some(there) = block.get_mut(at.saturating_add(place)) {
            *there = *byte;
        }
    }
}

/// Puts bytes into a block of a side, in the place of some of it: by four calls, an attach before
/// the read and one before the write.
pub fn change<W: World>(
    world: &mut W,
    side: Side,
    block: u32,
    at: usize,
    part: &[u8],
) -> Result<(), Failed> {
    let mut bytes = read_block(world, side, block)?;
    put_at(&mut bytes, at, part);
    write_block(world, side, block, &bytes)
}
