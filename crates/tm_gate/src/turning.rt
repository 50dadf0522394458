//! Turning the gate of an image.
ghost use Rattle.std.specs.Prelude.{◌≡◌, ◌≤◌, ◌-◌, ◌+◌, OnOk, OnErr, slice_set, replicate};
ghost use Rattle.tm_world.specs.Outside.{disk, part_of};
ghost use Rattle.tm_world.specs.Log.{now};
ghost use Rattle.tm_world.specs.Runs.{Runs};
ghost use Rattle.tm_world.specs.Faults.{Rose, NeverLess};
ghost use Rattle.tm_gate.specs.Selector.{named_by, other_slot};
ghost use Rattle.tm_gate.specs.Root.{after_root};
ghost use Rattle.tm_gate.specs.Slot.{slot_of};
ghost use Rattle.tm_gate.specs.Gate.{IsGate, IsTurned, LeavesOldOrNew};

use crate::gate::Gate;
use crate::root::Root;
use tm_world::{Failed, Side, World};

/// A selector of zeros with the bit of this slot.
fn selector_for(named: u8) -> [u8; 4096]
    requires { (1 ≤ named) × (named ≤ 2) }
    ensures bytes { result ≡ slice_set (replicate 4096 0) 0 (named - 1) }
    ensures names { named_by result ≡ named }
{
    let mut bytes = [0u8; 4096];
    bytes[0] = named - 1;
    bytes
}

/// Writes the slot that isn't named, syncs, names it, syncs.
fn name_other<W: World>(
    world: &mut W,
    side: Side,
    named: u8,
    slot: &[u8; 4096],
) -> Result<(), Failed>
    requires room { 3 ≤ W.blocks world.old side }
    requires named { (1 ≤ named) × (named ≤ 2) }
    requires gate { W.told → let old = disk side (now (W.log world.old)) in IsGate old named (old.bytes named) }
    ensures any_moment { W.told → let old = disk side (now (W.log world.old)) in
        Runs side (LeavesOldOrNew old (other_slot named) slot.now) (W.log world.old) (W.log world.new) }
    ensures turned { W.told → let old = disk side (now (W.log world.old)) in
        OnOk result (IsTurned old (other_slot named) slot.now (disk side (now (W.log world.new)))) }
    ensures blocks { W.blocks world.new ≡ W.blocks world.old }
    ensures never_less { NeverLess (W.faults world.old) (W.faults world.new) }
    ensures cause { OnErr result (Rose (W.faults world.old (part_of side)) (W.faults world.new (part_of side))) }
{
    let target = 3 - named;
    world.write(side, target as u32, slot)?;
    world.sync(side)?;
    let selector = selector_for(target);
    world.write(side, 0, &selector)?;
    world.sync(side)?;
    Ok(())
}

/// Puts a root in the place of the gate's: writes the slot that isn't named, syncs, writes the
/// selector, syncs. It takes no memory (`docs/FORMATS.md`, "Selector and slots").
///
/// The sequence that is written is one more than the gate's, wrapping, whatever `root` has. A stop
/// within the call leaves the old slot named or the new one, each whole, and no other block
/// differs. Only the selector and the named slot need to be synced before, and what the named slot
/// holds doesn't matter. Blocks that were written and not synced are stable after it. On a failure
/// either slot may be the named one, and the gate is as it was.
pub fn turn<W: World>(world: &mut W, side: Side, gate: &mut Gate, root: Root) -> Result<(), Failed>
    requires room { 3 ≤ W.blocks world.old side }
    requires gate { W.told → let old = disk side (now (W.log world.old)) in IsGate old gate.old.named (old.bytes gate.old.named) }

    // At each moment of the call a stop leaves the old slot named or the new, and no other block differs.
    ensures any_moment { W.told → let old = disk side (now (W.log world.old)) in
        Runs side (LeavesOldOrNew old (other_slot gate.old.named) (slot_of (after_root gate.old.root root)))
        (W.log world.old) (W.log world.new) }
    // So it does in the end, on a failure too.
    ensures leaves { W.told → let old = disk side (now (W.log world.old)) in
        LeavesOldOrNew old (other_slot gate.old.named) (slot_of (after_root gate.old.root root)) (disk side (now (W.log world.new))) }
    ensures turned { W.told → let old = disk side (now (W.log world.old)) in
        OnOk result (IsTurned old (other_slot gate.old.named) (slot_of (after_root gate.old.root root)) (disk side (now (W.log world.new)))) }

    ensures named { OnOk result (gate.new.named ≡ other_slot gate.old.named) }
    ensures root { OnOk result (gate.new.root ≡ after_root gate.old.root root) }
    ensures gate_err { OnErr result (gate.new ≡ gate.old) }

    ensures blocks { W.blocks world.new ≡ W.blocks world.old }
    ensures never_less { NeverLess (W.faults world.old) (W.faults world.new) }
    ensures cause { OnErr result (Rose (W.faults world.old (part_of side)) (W.faults world.new (part_of side))) }
{
    let root = Root {
        sequence: gate.root.sequence.wrapping_add(1),
        ..root
    };
    let slot = root.to_slot();
    name_other(world, side, gate.named, &slot)?;
    *gate = Gate {
        named: 3 - gate.named,
        root,
    };
    Ok(())
}
