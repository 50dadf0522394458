//! Reading the gate of an image.
ghost use Rattle.std.specs.Prelude.{◌≡◌, ◌≢◌, ◌≤◌, ◌<◌, ◌+◌, ◌%◌, ◌↔◌, ℕ, IsTrue, IfOk, IsOk, IsErrOf, slice_index};
ghost use Rattle.tm_world.specs.Outside.{disk, part_of};
ghost use Rattle.tm_world.specs.Log.{now, Steps};
ghost use Rattle.tm_world.specs.Faults.{Rose, NeverLess};
ghost use Rattle.tm_gate.specs.Selector.{named_by};
ghost use Rattle.tm_gate.specs.Slot.{slot_of, HasMagic};
ghost use Rattle.tm_gate.specs.Fields.{IsGoodSlot, IsBadSlot};
ghost use Rattle.tm_gate.specs.Load.{IsUnformatted, IsBadGate, IsGoodGate, Shows};
ghost use Rattle.tm_gate.specs.Root.{IsRoot};

use crate::field::first_bad;
use crate::gate::Gate;
use crate::root::{MAGIC, Root};
use tm_world::{Failed, Side, World};

/// Why no gate was read.
#[derive(Clone, Copy, Debug, PartialEq, Eq)]
pub enum GateError {
    /// The image has fewer than 3 blocks, or its named slot lacks the magic. `named` is the block of
    /// that slot, or 0 where there are fewer than 3 blocks.
    Unformatted { named: u8 },
    /// The named slot breaks a rule; the offset of the first bad field.
    BadSlot(u64),
    /// A read failed.
    Fault,
}

impl From<Failed> for GateError {
    ghost use Rattle.tm_gate.specs.declared.load.GateError.TheVariants.{Fault};

    ghost from_gives = { λ _ e. e ≡ Fault };

    fn from(_: Failed) -> Self {
        GateError::Fault
    }
}

/// The block of the slot that a selector names.
fn named_by(selector: &[u8; 4096]) -> u8
    ensures names { result ≡ named_by selector.now }
    ensures within { (1 ≤ result) × (result ≤ 2) }
{
    1 + selector[0] % 2
}

fn has_magic(slot: &[u8; 4096]) -> bool
    ensures { IsTrue result ↔ HasMagic slot.now }
{
    slot[..8] == MAGIC[..]
}

/// The gate that a named slot makes.
fn read_gate(slot: &[u8; 4096], named: u8, side: Side, blocks: u32) -> Result<Gate, GateError>
    requires blocks { 3 ≤ blocks }
    requires named { (1 ≤ named) × (named ≤ 2) }
    ensures ok { IfOk result (λ gate. (gate.named ≡ named) × (slot.now ≡ slot_of gate.root)) }
    ensures good { IsOk result ↔ (HasMagic slot.now × IsGoodSlot side blocks slot.now) }
    ensures root { IfOk result (λ gate. IsRoot side blocks gate.root) }
    ensures unformatted { (n : ℕ) → (result ≡ Err (GateError.Unformatted n)) ↔ ((named ≡ n) × ¬ HasMagic slot.now) }
    ensures bad { (place : ℕ) → (result ≡ Err (GateError.BadSlot place)) ↔ (HasMagic slot.now × IsBadSlot side blocks slot.now place) }
    ensures no_fault { result ≢ Err GateError.Fault }
{
    if !has_magic(slot) {
        return Err(GateError::Unformatted { named });
    }
    match first_bad(slot, side, blocks) {
        Some(place) => Err(GateError::BadSlot(place as u64)),
        None => Ok(Gate {
            named,
            root: Root::from_slot(slot),
        }),
    }
}

/// Reads the selector and the slot that it names, at most two blocks. It takes no memory and writes
/// nothing (`docs/FORMATS.md`, "Selector and slots").
pub fn load_gate<W: World>(world: &mut W, side: Side, blocks: u32) -> Result<Gate, GateError>
    requires { W.blocks world.old side ≡ blocks }

    ensures small { blocks < 3 → result ≡ Err (GateError.Unformatted 0) }

    // Without a fault each answer comes exactly where its condition holds.
    ensures unformatted { W.told → 3 ≤ blocks → result ≢ Err GateError.Fault → (named : ℕ)
        → (result ≡ Err (GateError.Unformatted named)) ↔ IsUnformatted (disk side (now (W.log world.old))).bytes named }
    ensures bad { W.told → 3 ≤ blocks → result ≢ Err GateError.Fault → (place : ℕ)
        → (result ≡ Err (GateError.BadSlot place)) ↔ IsBadGate side blocks (disk side (now (W.log world.old))).bytes place }
    ensures good { W.told → 3 ≤ blocks → result ≢ Err GateError.Fault
        → IsOk result ↔ IsGoodGate side blocks (disk side (now (W.log world.old))).bytes }
    ensures gate { W.told → IfOk result (Shows (disk side (now (W.log world.old))).bytes) }

    // So much is known where contents aren't told, too.
    ensures root { IfOk result (λ gate. IsRoot side blocks gate.root) }
    ensures named { 3 ≤ blocks → (n : ℕ) → result ≡ Err (GateError.Unformatted n) → (1 ≤ n) × (n ≤ 2) }

    ensures steps { W.told → Steps (W.log world.old) (W.log world.new) (now (W.log world.old)) }
    ensures blocks { W.blocks world.new ≡ W.blocks world.old }
    ensures never_less { NeverLess (W.faults world.old) (W.faults world.new) }
    ensures fault { IsErrOf result GateError.Fault → Rose (W.faults world.old (part_of side)) (W.faults world.new (part_of side)) }
{
    if blocks < 3 {
        return Err(GateError::Unformatted { named: 0 });
    }
    let mut selector = [0u8; 4096];
    world.read(side, 0, &mut selector)?;
    let named = named_by(&selector);
    let mut slot = [0u8; 4096];
    world.read(side, named as u32, &mut slot)?;
    read_gate(&slot, named, side, blocks)
}
