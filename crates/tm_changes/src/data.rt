//! The data that a change brings.
ghost use Rattle.std.specs.Prelude.{◌≡◌, ◌+◌, ◌++◌, ℕ, [], List, OnOk, IfOk, Err, length};
ghost use Rattle.std.specs.Option.{option_map_or};
ghost use Rattle.tm_base.specs.declared.refused.Refused.{Refused as RefusedFor};
ghost use Rattle.tm_tree.specs.Changes.{fill_bytes, length_at};
ghost use Rattle.tm_tree.specs.Items.{bytes_of};
ghost use Rattle.tm_tree.specs.Trees.{item_at};
ghost use Rattle.tm_changes.specs.Fitting.{staged_len};
ghost use Rattle.tm_volume.specs.Seen.{IsReady, tree_on, volume_on};
ghost use Rattle.tm_changes.specs.Writes.{BringsData, staged_data};
ghost use Rattle.tm_world.specs.Faults.{BlamesOnly, NeverLess};
ghost use Rattle.tm_world.specs.Log.{now, Steps};
ghost use Rattle.tm_world.specs.Outside.{disk};

use crate::files::length_at;
use crate::fixing::fixed_data;
use tm_base::{LineFault, Path, Side as RefusedSide};
use tm_tree::{Change, fill_bytes};
use tm_volume::Volume;
use tm_world::{Bytes, Side, World};

/// Reads all bytes of the file at a path, of which there are as many as are to be read; none
/// where no file stands.
fn read_file<W: World>(
    volume: &Volume,
    world: &mut W,
    path: &Path,
    into: &mut [u8],
) -> Result<(), LineFault>
    requires ready { IsReady volume.now (W.blocks world.old Side.Volume) }
    requires length { (bytes : ℕ → List ℕ) → length into.old ≡ length_at (tree_on volume.now bytes) path.now }
    ensures bytes { W.told → OnOk result (into.new ≡ option_map_or bytes_of (item_at (tree_on volume.now (disk Side.Volume (now (W.log world.old))).bytes) path.now) []) }
    ensures refused { (why : RefusedFor) → result ≡ Err (LineFault.Refused why) → ⊥ }
    ensures steps { W.told → Steps (W.log world.old) (W.log world.new) (now (W.log world.old)) }
    ensures blocks { W.blocks world.new ≡ W.blocks world.old }
    ensures never_less { NeverLess (W.faults world.old) (W.faults world.new) }
    ensures fault { BlamesOnly RefusedSide.Volume result (W.faults world.old) (W.faults world.new) }
{
    if into.is_empty() {
        return Ok(());
    }
    match volume.read_part(world, path, 0, into) {
        Ok(()) => Ok(()),
        Err(_) => Err(LineFault::Fault(RefusedSide::Volume)),
    }
}

/// The bytes of the file at a path, and these after them.
fn appended<W: World>(
    volume: &Volume,
    world: &mut W,
    path: &Path,
    more: &Bytes,
) -> Result<Bytes, LineFault>
    requires ready { IsReady volume.now (W.blocks world.old Side.Volume) }
    ensures data { W.told → IfOk result (λ found. found ≡ option_map_or bytes_of (item_at (tree_on volume.now (disk Side.Volume (now (W.log world.old))).bytes) path.now) [] ++ more.now) }
    ensures length { IfOk result (λ found. (bytes : ℕ → List ℕ) → length found ≡ length_at (tree_on volume.now bytes) path.now + length more.now) }
    ensures refused { (why : RefusedFor) → result ≡ Err (LineFault.Refused why) → ⊥ }
    ensures steps { W.told → Steps (W.log world.old) (W.log world.new) (now (W.log world.old)) }
    ensures blocks { W.blocks world.new ≡ W.blocks world.old }
    ensures never_less { NeverLess (W.faults world.old) (W.faults world.new) }
    ensures fault { BlamesOnly RefusedSide.Volume result (W.faults world.old) (W.faults world.new) }
{
    let count = length_at(volume, path)?;
    let mut bytes = vec![in volume.alloc(); 0u8; count as usize]?;
    read_file(volume, world, path, bytes.as_mut_slice())?;
    bytes.extend_from_slice(more.as_slice())?;
    Ok(Bytes::of(bytes))
}

/// The data that a change brings, which are the whole new contents of its file, or all fixed
/// paths. It fails only for want of memory, or where the volume's count of faults rose.
pub(crate) fn data_of<W: World>(
    volume: &Volume,
    world: &mut W,
    change: &Change,
) -> Result<Bytes, LineFault>
    requires brings { BringsData change.now }
    requires ready { IsReady volume.now (W.blocks world.old Side.Volume) }
    ensures data { W.told → IfOk result (λ found. found ≡ staged_data (volume_on volume.now (disk Side.Volume (now (W.log world.old))).bytes).contents change.now) }
    ensures length { IfOk result (λ found. (bytes : ℕ → List ℕ) → length found ≡ staged_len (volume_on volume.now bytes).contents change.now) }
    ensures refused { (why : RefusedFor) → result ≡ Err (LineFault.Refused why) → ⊥ }
    ensures steps { W.told → Steps (W.log world.old) (W.log world.new) (now (W.log world.old)) }
    ensures blocks { W.blocks world.new ≡ W.blocks world.old }
    ensures never_less { NeverLess (W.faults world.old) (W.faults world.new) }
    ensures fault { BlamesOnly RefusedSide.Volume result (W.faults world.old) (W.faults world.new) }
{
    match change {
        Change::Write { bytes, .. } => Ok(bytes.clone()?),
        Change::Append { path, bytes } => appended(volume, world, path, bytes),
        Change::Fill { length, seed, .. } => Ok(fill_bytes(volume.alloc(), *length, *seed)?),
        Change::Fix { .. } | Change::Unfix { .. } => Ok(fixed_data(volume, change)?),
        _ => unreachable!(),
    }
}
