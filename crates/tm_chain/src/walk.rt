//! A chain that is being read, block by block.
ghost use Rattle.std.specs.Prelude.{◌≡◌, ◌<◌, ◌≤◌, ◌+◌, ◌↔◌, ℕ, [], ◌∷◌, length, replicate, slice_index, slice_set, IsTrue, IfOk, IfErr, OnOk, IsErrOf, Err};
ghost use Rattle.std.specs.Bool.{OnTrue};
ghost use Rattle.tm_world.specs.Outside.{disk, part_of};
ghost use Rattle.tm_world.specs.Log.{now, Steps};
ghost use Rattle.tm_world.specs.Faults.{NeverLess, Rose};
ghost use Rattle.tm_chain.specs.Way.{EndsChain, MayFollow, Names};
ghost use Rattle.tm_chain.specs.Walk.{IsWalk, IsRead, IsLast, last_of};

use crate::{Chain, ChainError};
use std::alloc::Global;
use tm_blockmap::BlockMap;
use tm_codec::get_u32;
use tm_world::{Blocks, Bytes, Side, World};

/// A chain that is being read: its blocks so far, of which the last is read next, the text of
/// those before it, and the blocks that may not come again.
#[derive(Drop)]
pub struct Walk {
    pub blocks: Vec<u32>,
    pub text: Vec<u8>,
    pub used: BlockMap,
}

/// The number at the front of a block.
fn next_in(block: &[u8; 4096]) -> u32
    ensures { Names result block.now }
{
    get_u32(block, 0).unwrap()
}

/// Whether all of these bytes are zeros.
fn are_zeros(bytes: &[u8]) -> bool
    ensures { IsTrue result ↔ (bytes.now ≡ replicate (length bytes.now) 0) }
{
    bytes.iter().all(|byte| *byte == 0)
}

/// Whether a block ends a chain with so many bytes of text.
fn ends(block: &[u8; 4096], rest: usize) -> bool
    requires { rest ≤ 4092 }
    ensures { IsTrue result ↔ EndsChain rest block.now }
{
    next_in(block) == 0 && are_zeros(&block[4 + rest..])
}

/// Claims a block as the next one, if it is free; whether it was.
fn follow(used: &mut BlockMap, next: u32) -> bool
    ensures was_free { IsTrue result ↔ ((next < length used.old) × (slice_index used.old next ≡ 0)) }
    ensures claimed { OnTrue result (used.new ≡ slice_set used.old next 1) }
{
    next < used.size() && used.claim(next)
}

/// A chain that begins at this block.
pub fn begin(alloc: Global, first: u32, total: u32) -> Result<Walk, ChainError>
    requires { (3 ≤ first) × (first < total) }
    ensures walk { IfOk result (λ walk. IsWalk walk.blocks.items walk.text.items walk.used) }
    ensures blocks { IfOk result (λ walk. walk.blocks.items ≡ first ∷ []) }
    ensures size { IfOk result (λ walk. length walk.used ≡ total) }
    ensures err { IfErr result (λ e. e ≡ ChainError.Memory) }
{
    let mut used = BlockMap::new(alloc, total, 3)?;
    used.claim(first);
    let mut blocks = Vec::new(alloc);
    blocks.push(first)?;
    let text = Vec::new(alloc);
    Ok(Walk { blocks, text, used })
}

/// The block that is read next.
fn last(walk: &Walk) -> u32
    requires { 0 < length walk.now.blocks.items }
    ensures { result ≡ last_of walk.now.blocks.items }
{
    walk.blocks[walk.blocks.len() - 1]
}

/// Reads the last block, and goes on to the one that it names.
pub fn advance<W: World>(walk: &mut Walk, world: &mut W, side: Side) -> Result<(), ChainError>
    requires walk { IsWalk walk.old.blocks.items walk.old.text.items walk.old.used }
    requires size { length walk.old.used ≡ W.blocks world.old side }
    ensures walk { OnOk result (IsWalk walk.new.blocks.items walk.new.text.items walk.new.used) }
    ensures size { OnOk result (length walk.new.used ≡ length walk.old.used) }
    ensures longer { OnOk result (length walk.new.blocks.items ≡ length walk.old.blocks.items + 1) }
    ensures starts { OnOk result (slice_index walk.new.blocks.items 0 ≡ slice_index walk.old.blocks.items 0) }
    ensures read { W.told → OnOk result (let bytes = (disk side (now (W.log world.old))).bytes in IsRead walk.old.blocks.items walk.old.text.items bytes → IsRead walk.new.blocks.items walk.new.text.items bytes) }
    ensures place { (block : ℕ) → result ≡ Err (ChainError.BadChain block) → block ≡ last_of walk.old.blocks.items }
    ensures bad { W.told → (block : ℕ) → result ≡ Err (ChainError.BadChain block) → (next : ℕ) → Names next ((disk side (now (W.log world.old))).bytes block) → MayFollow (length walk.old.used) walk.old.blocks.items next → ⊥ }
    ensures steps { W.told → Steps (W.log world.old) (W.log world.new) (now (W.log world.old)) }
    ensures blocks { W.blocks world.new ≡ W.blocks world.old }
    ensures never_less { NeverLess (W.faults world.old) (W.faults world.new) }
    ensures cause { IsErrOf result ChainError.Fault → Rose (W.faults world.old (part_of side)) (W.faults world.new (part_of side)) }
{
    let at = last(walk);
    let mut block = [0u8; 4096];
    world.read(side, at, &mut block)?;
    let next = next_in(&block);
    if !follow(&mut walk.used, next) {
        return Err(ChainError::BadChain(at));
    }
    walk.text.extend_from_slice(&block[4..])?;
    walk.blocks.push(next)?;
    Ok(())
}

/// Reads the last block, which ends the chain after so many bytes of text.
pub fn finish<W: World>(
    walk: Walk,
    world: &mut W,
    side: Side,
    rest: usize,
) -> Result<Chain, ChainError>
    requires walk { IsWalk walk.blocks.items walk.text.items walk.used }
    requires size { length walk.used ≡ W.blocks world.old side }
    requires short { rest ≤ 4092 }
    ensures blocks_are { IfOk result (λ chain. chain.blocks ≡ walk.blocks.items) }
    ensures size { IfOk result (λ chain. length chain.text ≡ length walk.text.items + rest) }
    ensures read { W.told → IfOk result (λ chain. IsLast walk.text.items chain.text rest ((disk side (now (W.log world.old))).bytes (last_of walk.blocks.items))) }
    ensures place { (block : ℕ) → result ≡ Err (ChainError.BadChain block) → block ≡ last_of walk.blocks.items }
    ensures bad { W.told → (block : ℕ) → result ≡ Err (ChainError.BadChain block) → EndsChain rest ((disk side (now (W.log world.old))).bytes block) → ⊥ }
    ensures steps { W.told → Steps (W.log world.old) (W.log world.new) (now (W.log world.old)) }
    ensures blocks { W.blocks world.new ≡ W.blocks world.old }
    ensures never_less { NeverLess (W.faults world.old) (W.faults world.new) }
    ensures cause { IsErrOf result ChainError.Fault → Rose (W.faults world.old (part_of side)) (W.faults world.new (part_of side)) }
{
    let at = last(&walk);
    let Walk {
        blocks,
        mut text,
        used: _,
    } = walk;
    let mut block = [0u8; 4096];
    world.read(side, at, &mut block)?;
    if !ends(&block, rest) {
        return Err(ChainError::BadChain(at));
    }
    text.extend_from_slice(&block[4..4 + rest])?;
    Ok(Chain {
        text: Bytes::of(text),
        blocks: Blocks::of(blocks),
    })
}
