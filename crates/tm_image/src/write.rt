//! Writing a commit.
ghost use Rattle.std.specs.Prelude.{◌≡◌, ◌<◌, ◌≤◌, ℕ, length, slice_index, OnOk, OnErr};
ghost use Rattle.tm_world.specs.Outside.{disk, part_of};
ghost use Rattle.tm_world.specs.Log.{now};
ghost use Rattle.tm_world.specs.Runs.{Runs};
ghost use Rattle.tm_world.specs.Faults.{NeverLess, Rose};
ghost use Rattle.tm_blockmap.specs.Counts.{times, IsDistinct};
ghost use Rattle.tm_chain.specs.Chain.{chain_len};
ghost use Rattle.tm_gate.specs.Gate.{IsGate};
ghost use Rattle.tm_gate.specs.Root.{after_root};
ghost use Rattle.tm_gate.specs.Selector.{other_slot};
ghost use Rattle.tm_image.specs.Layout.{places};
ghost use Rattle.tm_image.specs.Blank.{IsFirst, LacksMagic, LeavesNoneOrHeld};
ghost use Rattle.tm_image.specs.Content.{Content, IsAtRest, IsBeside, LeavesEither, Writes, in_data};

use tm_chain::write_chain;
use tm_gate::{Gate, Root, turn};
use tm_world::{Failed, Side, World};

/// The first of these blocks.
pub(crate) fn first_block(blocks: &[u32]) -> u32
    requires { 0 < length blocks.now }
    ensures { result ≡ slice_index blocks.now 0 }
{
    blocks[0]
}

/// Writes a table to its blocks and turns the gate to its root. A stop leaves the old content or
/// the new; where there was none, it leaves the side unformatted or the new.
pub(crate) fn write_out<W: World>(
    world: &mut W,
    side: Side,
    gate: &mut Gate,
    text: &[u8],
    blocks: &[u32],
    root: Root,
) -> Result<(), Failed>
    requires room { 3 ≤ W.blocks world.old side }
    requires as_many { length blocks.now ≡ chain_len (length text.now) }
    requires within { (k : ℕ) → k < length blocks.now → slice_index blocks.now k < W.blocks world.old side }
    requires once { IsDistinct blocks.now }
    requires high { (b : ℕ) → 0 < times b blocks.now → 3 ≤ b }
    requires gate { W.told → IsGate (disk side (now (W.log world.old))) gate.old.named ((disk side (now (W.log world.old))).bytes gate.old.named) }
    ensures any_moment { W.told → (old new : Content) → IsAtRest old gate.old.named (disk side (now (W.log world.old))) → IsBeside old new (places new.layout)
        → Writes new blocks.now text.now (after_root gate.old.root root) → Runs side (LeavesEither old new (disk side (now (W.log world.old))).bytes) (W.log world.old) (W.log world.new) }
    ensures at_rest { W.told → OnOk result ((old new : Content) → IsAtRest old gate.old.named (disk side (now (W.log world.old))) → IsBeside old new (places new.layout)
        → Writes new blocks.now text.now (after_root gate.old.root root) → IsAtRest new gate.new.named (disk side (now (W.log world.new)))) }
    ensures data { W.told → OnOk result ((old new : Content) → IsAtRest old gate.old.named (disk side (now (W.log world.old))) → IsBeside old new (places new.layout)
        → Writes new blocks.now text.now (after_root gate.old.root root) → (b : ℕ) → 0 < in_data b new.records → (disk side (now (W.log world.new))).bytes b ≡ (disk side (now (W.log world.old))).bytes b) }
    ensures first_moment { W.told → (new : Content) → IsFirst new (disk side (now (W.log world.old))) → LacksMagic (disk side (now (W.log world.old))).bytes
        → Writes new blocks.now text.now (after_root gate.old.root root) → Runs side (LeavesNoneOrHeld new (disk side (now (W.log world.old))).bytes) (W.log world.old) (W.log world.new) }
    ensures first_at_rest { W.told → OnOk result ((new : Content) → IsFirst new (disk side (now (W.log world.old)))
        → Writes new blocks.now text.now (after_root gate.old.root root) → IsAtRest new gate.new.named (disk side (now (W.log world.new)))) }
    ensures others { W.told → OnOk result ((b : ℕ) → 3 ≤ b → times b blocks.now ≡ 0 → (disk side (now (W.log world.new))).bytes b ≡ (disk side (now (W.log world.old))).bytes b) }
    ensures named { OnOk result (gate.new.named ≡ other_slot gate.old.named) }
    ensures root { OnOk result (gate.new.root ≡ after_root gate.old.root root) }
    ensures gate_err { OnErr result (gate.new ≡ gate.old) }
    ensures blocks { W.blocks world.new ≡ W.blocks world.old }
    ensures never_less { NeverLess (W.faults world.old) (W.faults world.new) }
    ensures cause { OnErr result (Rose (W.faults world.old (part_of side)) (W.faults world.new (part_of side))) }
{
    write_chain(world, side, text, blocks)?;
    turn(world, side, gate, root)?;
    Ok(())
}
