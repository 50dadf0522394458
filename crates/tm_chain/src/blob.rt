//! Writing and reading the bytes of a blob.
ghost use Rattle.std.specs.Prelude.{◌≡◌, ◌<◌, ◌≤◌, ◌*◌, ◌+◌, ◌/◌, ℕ, take, drop, replicate, length, slice_index, OnOk, OnErr};
ghost use Rattle.tm_blockmap.specs.Counts.{IsDistinct};
ghost use Rattle.tm_codec.specs.Padded.{padded};
ghost use Rattle.tm_world.specs.Outside.{disk, part_of};
ghost use Rattle.tm_world.specs.Log.{now, Steps};
ghost use Rattle.tm_world.specs.Runs.{Runs};
ghost use Rattle.tm_world.specs.Faults.{NeverLess, Rose};
ghost use Rattle.tm_chain.specs.Differs.{DiffersIn};
ghost use Rattle.tm_chain.specs.Blob.{FillsOn, blob_len, bytes_in, piece_of};

use tm_world::{Failed, Side, World};

/// A part, and zeros to the end of the block.
fn fill(block: &mut [u8; 4096], part: &[u8])
    requires zeros { block.old ≡ replicate 4096 0 }
    requires short { length part.now ≤ 4096 }
    ensures { block.new ≡ padded 4096 part.now }
{
    block[..part.len()].copy_from_slice(part);
}

/// The k-th part of the bytes.
fn part_of_bytes(bytes: &[u8], k: usize) -> &[u8]
    requires { 4096 * k ≤ length bytes.now }
    ensures part { result.now ≡ take 4096 (drop (4096 * k) bytes.now) }
    ensures short { length result.now ≤ 4096 }
{
    let rest = &bytes[4096 * k..];
    &rest[..rest.len().min(4096)]
}

/// The k-th block of the blob.
#[tactic(auto, unfolding(crate::specs::Blob::piece_of))]
fn piece(bytes: &[u8], k: usize) -> [u8; 4096]
    requires { 4096 * k ≤ length bytes.now }
    ensures { result ≡ piece_of bytes.now k }
{
    let mut block = [0u8; 4096];
    fill(&mut block, part_of_bytes(bytes, k));
    block
}

/// Writes the bytes to these distinct blocks, of which there are exactly enough: no other block
/// differs at any moment. It takes no memory, and fails only where this side's count of faults
/// rose.
pub fn write_blob<W: World>(
    world: &mut W,
    side: Side,
    bytes: &[u8],
    blocks: &[u32],
) -> Result<(), Failed>
    requires as_many { length blocks.now ≡ blob_len (length bytes.now) }
    requires within { (k : ℕ) → k < length blocks.now → slice_index blocks.now k < W.blocks world.old side }
    requires distinct { IsDistinct blocks.now }
    ensures any_moment { W.told → Runs side (DiffersIn blocks.now (disk side (now (W.log world.old)))) (W.log world.old) (W.log world.new) }
    ensures differs { W.told → DiffersIn blocks.now (disk side (now (W.log world.old))) (disk side (now (W.log world.new))) }
    ensures fills { W.told → OnOk result (FillsOn blocks.now bytes.now (disk side (now (W.log world.new))).bytes) }
    ensures blocks { W.blocks world.new ≡ W.blocks world.old }
    ensures never_less { NeverLess (W.faults world.old) (W.faults world.new) }
    ensures cause { OnErr result (Rose (W.faults world.old (part_of side)) (W.faults world.new (part_of side))) }
{
    for k in 0..blocks.len() {
        let block = piece(bytes, k);
        world.write(side, blocks[k], &block)?;
    }
    Ok(())
}

/// Reads the bytes from a place of the blob on, of these blocks those alone that the bytes stand
/// in, each once. It takes no memory, and fails only where this side's count of faults rose.
pub fn read_blob<W: World>(
    world: &mut W,
    side: Side,
    blocks: &[u32],
    at: u64,
    into: &mut [u8],
) -> Result<(), Failed>
    requires range { at + length into.old ≤ 4096 * length blocks.now }
    requires within { (k : ℕ) → at / 4096 ≤ k → 4096 * k < at + length into.old → slice_index blocks.now k < W.blocks world.old side }
    ensures bytes { W.told → OnOk result (into.new ≡ bytes_in blocks.now (disk side (now (W.log world.old))).bytes at (length into.old)) }
    ensures steps { W.told → Steps (W.log world.old) (W.log world.new) (now (W.log world.old)) }
    ensures blocks { W.blocks world.new ≡ W.blocks world.old }
    ensures never_less { NeverLess (W.faults world.old) (W.faults world.new) }
    ensures cause { OnErr result (Rose (W.faults world.old (part_of side)) (W.faults world.new (part_of side))) }
{
    let mut block = [0u8; 4096];
    let mut k = (at / 4096) as usize;
    let mut front = (at % 4096) as usize;
    let mut done = 0usize;
    while done < into.len() {
        world.read(side, blocks[k], &mut block)?;
        let count = (into.len() - done).min(4096 - front);
        into[done..done + count].copy_from_slice(&block[front..front + count]);
        done += count;
        k += 1;
        front = 0;
    }
    Ok(())
}
