//! The whole backup.
ghost use Rattle.std.specs.Prelude.{◌≡◌, ◌≤◌, ◌+◌, ◌-◌, ℕ, List, [], Some, IfOk, length, count_by, sum_by};
ghost use Rattle.tm_blockmap.specs.Counts.{times};
ghost use Rattle.tm_fit.specs.Fit.{Fits};
ghost use Rattle.tm_image.specs.Room.{free_of};
ghost use Rattle.tm_store.specs.Answers.{UnlessFault};
ghost use Rattle.tm_store_records.specs.Built.{IsBuilt, store_completed};
ghost use Rattle.tm_store_records.specs.Held.{store_on};
ghost use Rattle.tm_store_records.specs.Room.{store_blocks};
ghost use Rattle.tm_tree.specs.Items.{is_folder};
ghost use Rattle.tm_tree.specs.States.{backed_up, base};
ghost use Rattle.tm_volume.specs.Seen.{volume_on};
ghost use Rattle.tm_world.specs.Faults.{NeverLess, Blames};
ghost use Rattle.tm_world.specs.Log.{now};
ghost use Rattle.tm_backup.specs.Answers.{Stages};
ghost use Rattle.tm_backup.specs.Steps.{MayGo, Ran, Went, store_bytes, volume_bytes};
ghost use Rattle.tm_backup.specs.Taking.{base_root, view_on};
ghost use Rattle.tm_backup.specs.Walk.{staging};
ghost use Rattle.tm_base.specs.Limits.{max_items};

use crate::walk::{Progress, walk_folder};
use std::alloc::Global;
use tm_base::{LineFault, Path};
use tm_copy::Builder;
use tm_graph::Built;
use tm_store::Store;
use tm_tree::NodeId;
use tm_volume::Volume;
use tm_volume::laws::items_keep_bounds;
use tm_world::{Side, World};

/// What a finished backup adds to a store, and how many folders it listed.
#[derive(Drop)]
pub struct Copied {
    /// The new nodes and their blobs.
    pub built: Built,
    /// How many folders were listed.
    pub walked: u64,
}

/// Copies the view of a volume into a store, as far as the last snapshot of that volume doesn't have
/// it.
///
/// Each folder is listed once, in path order, and the files in it are staged by name where the base
/// has no file of the same stamp at the path. It is `Full` exactly where the bytes of a file don't
/// fit; what was staged before stays staged, for the caller to give back.
pub fn copy_volume<W: World>(
    alloc: Global,
    world: &mut W,
    volume: &mut Volume,
    store: &mut Store,
) -> Result<Copied, LineFault>
    requires may { MayGo W.told volume.old store.old (now (W.log world.old)) (W.blocks world.old Side.Volume) (W.blocks world.old Side.Store) }
    requires unstaged { store.old.staged ≡ [] }
    ensures ran { Ran W.told volume.old volume.new store.old store.new (W.log world.old) (W.log world.new) }
    ensures went { UnlessFault result (Went W.told store.old store.new (W.log world.old) (W.log world.new)) }
    ensures built { IfOk result (λ c. IsBuilt store.new c.built) }
    ensures blobs { IfOk result (λ c. (b : ℕ) → sum_by (λ x. times b x.1.blocks) c.built.blobs ≤ times b store.new.staged) }
    ensures stages { W.told → let s = store_on store.old (store_bytes (W.log world.old)) in let v = volume_on volume.old (volume_bytes (W.log world.old)) in
        Stages (store_blocks store.old.machine store.old.snapshots store.old.nodes) (free_of store.old.image) (free_of store.new.image) (staging (base s v.id) (view_on volume.old (volume_bytes (W.log world.old)))) result }
    ensures copied { W.told → let s = store_on store.old (store_bytes (W.log world.old)) in let v = volume_on volume.old (volume_bytes (W.log world.old)) in
        Fits (Some v) (Some s) → IfOk result (λ c. (date : ℕ) → store_completed store.new c.built date v.name v.id (record { generation = v.generation; cursor = v.contents.next - 1 }) (store_bytes (W.log world.new)) ≡ backed_up s v date) }
    ensures walked { IfOk result (λ c. (bytes : ℕ → List ℕ) → c.walked ≡ count_by (λ row. is_folder row.1) (view_on volume.old bytes)) }
    ensures few { IfOk result (λ c. length c.built.nodes ≤ max_items) }
    ensures blocks { W.blocks world.new ≡ W.blocks world.old }
    ensures never_less { NeverLess (W.faults world.old) (W.faults world.new) }
    ensures fault { Blames result (W.faults world.old) (W.faults world.new) }
{
    items_keep_bounds();
    let base = base_of(store, volume.info().id);
    let builder = Builder::new(alloc, store.graph(), store.number());
    let mut progress = Progress { builder, walked: 0 };
    let path = Path::root(alloc);
    let root = walk_folder(alloc, world, volume, store, &mut progress, &path, base)?;
    let Progress { builder, walked } = progress;
    Ok(Copied {
        built: builder.finish(root),
        walked,
    })
}

/// The root of the last snapshot, if that is of the volume with this id.
fn base_of(store: &Store, id: u128) -> Option<NodeId>
    ensures { result ≡ base_root store.now id }
{
    let last = store.snapshots().as_slice().last()?;
    if last.id == id { Some(last.root) } else { None }
}
