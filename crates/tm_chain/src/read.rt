//! Reading the text of a chain.
ghost use Rattle.std.specs.Prelude.{◌≡◌, ◌<◌, ◌≤◌, ℕ, length, IfOk, IsErrOf, Err};
ghost use Rattle.tm_world.specs.Outside.{disk, part_of};
ghost use Rattle.tm_world.specs.Log.{now, Steps};
ghost use Rattle.tm_world.specs.Faults.{NeverLess, Rose};
ghost use Rattle.tm_chain.specs.Chain.{IsBlockList, LiesOn, chain_len};
ghost use Rattle.tm_chain.specs.Way.{BreaksAt};

use crate::ChainError;
use crate::walk::{advance, begin, finish};
use std::alloc::Global;
use tm_world::{Blocks, Bytes, Side, World};

/// A text and the blocks of the chain that it lies on, in order.
#[derive(Drop)]
pub struct Chain {
    pub text: Bytes,
    pub blocks: Blocks,
}

/// Reads the chain of `len` bytes that begins at block `first` of an image of `total` blocks.
///
/// `BadChain` comes exactly where a block breaks a rule of `docs/FORMATS.md`, "What is bad", and
/// tells the first one in chain order: its next number isn't a block between 3 and the last that
/// the chain hasn't had yet, where another is needed; or isn't 0 in the last; or the bytes after
/// the text aren't zeros. `Fault` comes only where this side's count of faults rose. It changes
/// nothing outside.
pub fn read_chain<W: World>(
    alloc: Global,
    world: &mut W,
    side: Side,
    first: u32,
    len: u64,
    total: u32,
) -> Result<Chain, ChainError>
    requires first_block { (3 ≤ first) × (first < total) }
    requires some { 1 ≤ len }
    requires count { W.blocks world.old side ≡ total }
    ensures blocks_are { IfOk result (λ chain. IsBlockList first total chain.blocks) }
    ensures size { IfOk result (λ chain. length chain.text ≡ len) }
    ensures many { IfOk result (λ chain. length chain.blocks ≡ chain_len len) }
    ensures lies { W.told → IfOk result (λ chain. LiesOn chain.blocks chain.text (disk side (now (W.log world.old))).bytes) }
    ensures bad { W.told → (block : ℕ) → result ≡ Err (ChainError.BadChain block) → BreaksAt first len total block (disk side (now (W.log world.old))).bytes }
    ensures steps { W.told → Steps (W.log world.old) (W.log world.new) (now (W.log world.old)) }
    ensures blocks { W.blocks world.new ≡ W.blocks world.old }
    ensures never_less { NeverLess (W.faults world.old) (W.faults world.new) }
    ensures cause { IsErrOf result ChainError.Fault → Rose (W.faults world.old (part_of side)) (W.faults world.new (part_of side)) }
{
    let before_last = (len - 1) / 4092;
    let mut walk = begin(alloc, first, total)?;
    for _k in 0..before_last {
        advance(&mut walk, world, side)?;
    }
    finish(walk, world, side, (len - 4092 * before_last) as usize)
}
