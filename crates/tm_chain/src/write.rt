//! Writing a text to a chain of blocks.
ghost use Rattle.std.specs.Prelude.{◌≡◌, ◌<◌, ◌≤◌, ◌*◌, ◌+◌, ◌++◌, ℕ, take, drop, replicate, length, slice_index, OnOk, OnErr};
ghost use Rattle.tm_blockmap.specs.Counts.{IsDistinct};
ghost use Rattle.tm_codec.specs.Padded.{padded};
ghost use Rattle.tm_world.specs.Outside.{disk, part_of};
ghost use Rattle.tm_world.specs.Log.{now};
ghost use Rattle.tm_world.specs.Runs.{Runs};
ghost use Rattle.tm_world.specs.Faults.{NeverLess, Rose};
ghost use Rattle.tm_chain.specs.Differs.{DiffersIn};
ghost use Rattle.tm_chain.specs.Chain.{LiesOn, chain_len, link_of};

use tm_world::{Failed, Side, World};

/// Four bytes, a part, and zeros to the end of the block.
fn lay(block: &mut [u8; 4096], front: &[u8; 4], part: &[u8])
    requires zeros { block.old ≡ replicate 4096 0 }
    requires short { length part.now ≤ 4092 }
    ensures { block.new ≡ padded 4096 (front.now ++ part.now) }
{
    block[..4].copy_from_slice(front);
    block[4..4 + part.len()].copy_from_slice(part);
}

/// The number of the block after the k-th, 0 after the last.
fn next_of(blocks: &[u32], k: usize) -> u32
    requires { k < length blocks.now }
    ensures { result ≡ slice_index blocks.now (k + 1) }
{
    blocks.get(k + 1).copied().unwrap_or(0)
}

/// The k-th part of the text.
fn part_of_text(text: &[u8], k: usize) -> &[u8]
    requires { 4092 * k ≤ length text.now }
    ensures part { result.now ≡ take 4092 (drop (4092 * k) text.now) }
    ensures short { length result.now ≤ 4092 }
{
    let rest = &text[4092 * k..];
    &rest[..rest.len().min(4092)]
}

/// The k-th block of the chain.
fn link(text: &[u8], blocks: &[u32], k: usize) -> [u8; 4096]
    requires within { k < length blocks.now }
    requires reaches { 4092 * k ≤ length text.now }
    ensures { result ≡ link_of text.now blocks.now k }
{
    let front = next_of(blocks, k).to_be_bytes();
    let mut block = [0u8; 4096];
    lay(&mut block, &front, part_of_text(text, k));
    block
}

/// Writes the text to these distinct blocks, of which there are exactly enough: no other block
/// differs at any moment. It takes no memory, and fails only where this side's count of faults
/// rose.
pub fn write_chain<W: World>(
    world: &mut W,
    side: Side,
    text: &[u8],
    blocks: &[u32],
) -> Result<(), Failed>
    requires as_many { length blocks.now ≡ chain_len (length text.now) }
    requires within { (k : ℕ) → k < length blocks.now → slice_index blocks.now k < W.blocks world.old side }
    requires distinct { IsDistinct blocks.now }
    ensures any_moment { W.told → Runs side (DiffersIn blocks.now (disk side (now (W.log world.old)))) (W.log world.old) (W.log world.new) }
    ensures differs { W.told → DiffersIn blocks.now (disk side (now (W.log world.old))) (disk side (now (W.log world.new))) }
    ensures lies { W.told → OnOk result (LiesOn blocks.now text.now (disk side (now (W.log world.new))).bytes) }
    ensures blocks { W.blocks world.new ≡ W.blocks world.old }
    ensures never_less { NeverLess (W.faults world.old) (W.faults world.new) }
    ensures cause { OnErr result (Rose (W.faults world.old (part_of side)) (W.faults world.new (part_of side))) }
{
    for k in 0..blocks.len() {
        let block = link(text, blocks, k);
        world.write(side, blocks[k], &block)?;
    }
    Ok(())
}

#[cfg(test)]
mod tests {
    use super::*;
    use std::test::Fail;

    #[test]
    fn a_chain_of_4093_bytes_on_blocks_3_and_5(rt: HostRuntime) -> Result<(), Fail> {
        let text = [7u8; 4093];
        let first = link(&text, &[3, 5], 0);
        let last = link(&text, &[3, 5], 1);
        assert_eq!(rt; [first[0], first[1], first[2], first[3]], [0, 0, 0, 5]);
        assert_eq!(rt; (first[4], first[4095]), (7, 7));
        assert_eq!(rt; [last[0], last[1], last[2], last[3]], [0, 0, 0, 0]);
        assert_eq!(rt; (last[4], last[5], last[4095]), (7, 0, 0));
        Ok(())
    }
}
