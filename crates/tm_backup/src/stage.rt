//! The files of a folder, whose bytes are staged.
ghost use Rattle.std.specs.Prelude.{◌≡◌, ◌≤◌, ◌+◌, ◌∷◌, ◌++◌, [], ℕ, List, Option, false, Some, Err, IfOk, IfSome, length, map};
ghost use Rattle.tm_base.specs.declared.refused.Refused.{Refused};
ghost use Rattle.tm_base.specs.Limits.{max_file_bytes};
ghost use Rattle.tm_blockmap.specs.Counts.{times};
ghost use Rattle.tm_image.specs.Room.{free_of};
ghost use Rattle.tm_store.specs.Answers.{UnlessFault};
ghost use Rattle.tm_store_records.specs.Room.{store_blocks};
ghost use Rattle.tm_tree.specs.Items.{bytes_of};
ghost use Rattle.tm_tree.specs.Listings.{list_rows};
ghost use Rattle.tm_tree.specs.Copies.{bare};
ghost use Rattle.tm_tree.specs.Trees.{item_at};
ghost use Rattle.tm_copy.specs.Listed.{StandsAs};
ghost use Rattle.tm_chain.specs.Blob.{blob_len, bytes_in};
ghost use Rattle.tm_volume.specs.Seen.{IsReady, tree_on};
ghost use Rattle.tm_world.specs.Faults.{NeverLess, Blames};
ghost use Rattle.tm_world.specs.Log.{Steps, now};
ghost use Rattle.tm_backup.specs.Answers.{Stages};
ghost use Rattle.tm_backup.specs.Growing.{Suits};
ghost use Rattle.tm_backup.specs.EntryPlans.{ArePlanned, IsFileOf, IsPlanFor, IsPlanned, is_folder_plan, kind_blocks, owed, plan_blocks, plan_head, row_blocks, row_head};
ghost use Rattle.tm_backup.specs.Steps.{MayGo, Ran, Went, store_bytes, volume_bytes};
ghost use Rattle.tm_backup.specs.Taking.{backup_of, prev_on, view_on};
ghost use Rattle.tm_backup.specs.Walk.{staging_in};
ghost use Rattle.tm_backup.specs.Walking.{MayEnter, MayEnterAll};

use crate::view::child_of;
use std::alloc::Global;
use tm_base::{LineFault, Name, Path};
use tm_copy::{base_child, kept_file};
use tm_store::Store;
use tm_store_records::held_reads;
use tm_tree::{Attrs, ListKind, ListRow, NodeId};
use tm_volume::Volume;
use tm_volume::laws::items_keep_bounds;
use tm_world::{Blob, Bytes, Side, World};

/// What becomes of an entry of a folder.
#[derive(Drop)]
pub(crate) enum EntryPlan {
    /// The base's file is kept.
    Kept(NodeId),
    /// A file is made, whose bytes are staged.
    File {
        /// Its attributes.
        attrs: Attrs,
        /// Its stamp.
        stamp: u64,
        /// Its bytes.
        blob: Blob,
    },
    /// A link is kept or made.
    Link {
        /// Its attributes.
        attrs: Attrs,
        /// Its stamp.
        stamp: u64,
        /// Where it points to.
        target: Bytes,
    },
    /// A folder, into which the walk goes.
    Folder,
}

/// An entry of a folder.
#[derive(Drop)]
pub(crate) struct PlannedEntry {
    /// Its name.
    pub name: Name,
    /// The base's node there.
    pub base: Option<NodeId>,
    /// What becomes of it.
    pub plan: EntryPlan,
}

/// Stages the files of a folder that the base doesn't have, by name.
pub(crate) fn stage_folder<W: World>(
    alloc: Global,
    world: &mut W,
    volume: &Volume,
    store: &mut Store,
    path: &Path,
    base: Option<NodeId>,
    rows: Vec<ListRow>,
) -> Result<Vec<PlannedEntry>, LineFault>
    requires may { MayGo W.told volume.now store.old (now (W.log world.old)) (W.blocks world.old Side.Volume) (W.blocks world.old Side.Store) }
    requires rows { (bytes : ℕ → List ℕ) → list_rows (view_on volume.now bytes) path.now ≡ rows.items }
    ensures ran { Ran W.told volume.now volume.now store.old store.new (W.log world.old) (W.log world.new) }
    ensures went { UnlessFault result (Went W.told store.old store.new (W.log world.old) (W.log world.new)) }
    ensures stages { (root : Option ℕ) (files bytes : ℕ → List ℕ) → Suits W.told store.old (W.log world.old) path.now base root bytes
        → Stages (store_blocks store.old.machine store.old.snapshots store.old.nodes) (free_of store.old.image) (free_of store.new.image) (staging_in (prev_on store.old files root) (view_on volume.now bytes) path.now) result }
    ensures planned { IfOk result (λ planned. (root : Option ℕ) (files bytes : ℕ → List ℕ) → Suits W.told store.old (W.log world.old) path.now base root bytes
        → ArePlanned W.told (backup_of store.old files root (view_on volume.now bytes)) (store_bytes (W.log world.new)) path.now planned.items) }
    ensures heads { IfOk result (λ planned. map plan_head planned.items ≡ map row_head rows.items) }
    ensures enter { IfOk result (λ planned. MayEnterAll volume.now store.old.nodes path.now base planned.items) }
    ensures owed { IfOk result (λ planned. (k : ℕ) → times k store.new.staged ≡ times k store.old.staged + owed planned.items k) }
    ensures blocks { W.blocks world.new ≡ W.blocks world.old }
    ensures never_less { NeverLess (W.faults world.old) (W.faults world.new) }
    ensures fault { Blames result (W.faults world.old) (W.faults world.new) }
{
    items_keep_bounds();
    let mut planned = Vec::new(alloc);
    for row in rows {
        let node = base;
        planned.push(plan_row(alloc, world, volume, store, path, node, row)?)?;
    }
    Ok(planned)
}

/// Plans an entry of a folder; a file that the base doesn't have is staged.
fn plan_row<W: World>(
    alloc: Global,
    world: &mut W,
    volume: &Volume,
    store: &mut Store,
    path: &Path,
    base: Option<NodeId>,
    row: ListRow,
) -> Result<PlannedEntry, LineFault>
    requires may { MayGo W.told volume.now store.old (now (W.log world.old)) (W.blocks world.old Side.Volume) (W.blocks world.old Side.Store) }
    requires row { (bytes : ℕ → List ℕ) → StandsAs (view_on volume.now bytes) (path.now ++ row.name ∷ []) row.kind }
    ensures ran { Ran W.told volume.now volume.now store.old store.new (W.log world.old) (W.log world.new) }
    ensures went { UnlessFault result (Went W.told store.old store.new (W.log world.old) (W.log world.new)) }
    ensures stages { (root : Option ℕ) (files bytes : ℕ → List ℕ) → Suits W.told store.old (W.log world.old) path.now base root bytes
        → Stages (store_blocks store.old.machine store.old.snapshots store.old.nodes) (free_of store.old.image) (free_of store.new.image) (row_blocks (prev_on store.old files root) path.now row) result }
    ensures planned { IfOk result (λ planned. (root : Option ℕ) (files bytes : ℕ → List ℕ) → Suits W.told store.old (W.log world.old) path.now base root bytes
        → IsPlanned W.told (backup_of store.old files root (view_on volume.now bytes)) (store_bytes (W.log world.new)) path.now planned) }
    ensures head { IfOk result (λ planned. plan_head planned ≡ row_head row) }
    ensures enter { IfOk result (λ planned. MayEnter volume.now store.old.nodes path.now base planned) }
    ensures owed { IfOk result (λ planned. (k : ℕ) → times k store.new.staged ≡ times k store.old.staged + times k (plan_blocks planned.plan)) }
    ensures blocks { W.blocks world.new ≡ W.blocks world.old }
    ensures never_less { NeverLess (W.faults world.old) (W.faults world.new) }
    ensures fault { Blames result (W.faults world.old) (W.faults world.new) }
{
    items_keep_bounds();
    let ListRow { name, kind } = row;
    let base = base_child(store.graph(), base, &name);
    match kind {
        ListKind::Folder => Ok(PlannedEntry {
            name,
            base,
            plan: EntryPlan::Folder,
        }),
        ListKind::Link {
            attrs,
            stamp,
            target,
        } => Ok(PlannedEntry {
            name,
            base,
            plan: EntryPlan::Link {
                attrs,
                stamp,
                target,
            },
        }),
        ListKind::File {
            attrs,
            stamp,
            length: size,
        } => {
            let place = child_of(path, &name)?;
            let node = base;
            let plan = plan_file(
                alloc, world, volume, store, &place, node, attrs, stamp, size,
            )?;
            Ok(PlannedEntry { name, base, plan })
        }
    }
}

/// Plans a file: the base's is kept where it has this stamp, and else its bytes are staged.
fn plan_file<W: World>(
    alloc: Global,
    world: &mut W,
    volume: &Volume,
    store: &mut Store,
    place: &Path,
    base: Option<NodeId>,
    attrs: Attrs,
    stamp: u64,
    size: u64,
) -> Result<EntryPlan, LineFault>
    requires may { MayGo W.told volume.now store.old (now (W.log world.old)) (W.blocks world.old Side.Volume) (W.blocks world.old Side.Store) }
    requires file { (bytes : ℕ → List ℕ) → StandsAs (view_on volume.now bytes) place.now (ListKind.File attrs stamp size) }
    ensures ran { Ran W.told volume.now volume.now store.old store.new (W.log world.old) (W.log world.new) }
    ensures went { UnlessFault result (Went W.told store.old store.new (W.log world.old) (W.log world.new)) }
    ensures stages { (root : Option ℕ) (files bytes : ℕ → List ℕ) → Suits W.told store.old (W.log world.old) place.now base root bytes
        → Stages (store_blocks store.old.machine store.old.snapshots store.old.nodes) (free_of store.old.image) (free_of store.new.image) (kind_blocks (item_at (bare (prev_on store.old files root)) place.now) (ListKind.File attrs stamp size)) result }
    ensures planned { IfOk result (λ plan. (root : Option ℕ) (files bytes : ℕ → List ℕ) → Suits W.told store.old (W.log world.old) place.now base root bytes
        → IsPlanFor W.told (backup_of store.old files root (view_on volume.now bytes)) (store_bytes (W.log world.new)) place.now plan) }
    ensures leaf { IfOk result (λ plan. is_folder_plan plan ≡ false) }
    ensures owed { IfOk result (λ plan. (k : ℕ) → times k store.new.staged ≡ times k store.old.staged + times k (plan_blocks plan)) }
    ensures blocks { W.blocks world.new ≡ W.blocks world.old }
    ensures never_less { NeverLess (W.faults world.old) (W.faults world.new) }
    ensures fault { Blames result (W.faults world.old) (W.faults world.new) }
{
    items_keep_bounds();
    match kept_file(store.graph(), base, stamp) {
        Some(node) => Ok(EntryPlan::Kept(node)),
        None => {
            let blob = stage_file(alloc, world, volume, store, place, size)?;
            Ok(EntryPlan::File { attrs, stamp, blob })
        }
    }
}

/// Stages the bytes of a file of the volume.
fn stage_file<W: World>(
    alloc: Global,
    world: &mut W,
    volume: &Volume,
    store: &mut Store,
    place: &Path,
    size: u64,
) -> Result<Blob, LineFault>
    requires may { MayGo W.told volume.now store.old (now (W.log world.old)) (W.blocks world.old Side.Volume) (W.blocks world.old Side.Store) }
    requires file { (bytes : ℕ → List ℕ) → IsFileOf size (item_at (tree_on volume.now bytes) place.now) }
    requires small { size ≤ max_file_bytes }
    ensures ran { Ran W.told volume.now volume.now store.old store.new (W.log world.old) (W.log world.new) }
    ensures went { UnlessFault result (Went W.told store.old store.new (W.log world.old) (W.log world.new)) }
    ensures stages { Stages (store_blocks store.old.machine store.old.snapshots store.old.nodes) (free_of store.old.image) (free_of store.new.image) (blob_len size ∷ []) result }
    ensures holds { W.told → IfOk result (λ blob. IfSome (item_at (tree_on volume.now (volume_bytes (W.log world.old))) place.now) (λ e. bytes_in blob.blocks (store_bytes (W.log world.new)) 0 blob.length ≡ bytes_of e)) }
    ensures length { IfOk result (λ blob. blob.length ≡ size) }
    ensures many { IfOk result (λ blob. length blob.blocks ≡ blob_len size) }
    ensures staged { IfOk result (λ blob. store.new.staged ≡ store.old.staged ++ blob.blocks) }
    ensures blocks { W.blocks world.new ≡ W.blocks world.old }
    ensures never_less { NeverLess (W.faults world.old) (W.faults world.new) }
    ensures fault { Blames result (W.faults world.old) (W.faults world.new) }
{
    held_reads();
    let bytes = read_file(alloc, world, volume, place, size)?;
    store.stage_file(world, bytes.as_slice())
}

/// The bytes of a file of the volume.
fn read_file<W: World>(
    alloc: Global,
    world: &mut W,
    volume: &Volume,
    place: &Path,
    size: u64,
) -> Result<Bytes, LineFault>
    requires ready { IsReady volume.now (W.blocks world.old Side.Volume) }
    requires file { (bytes : ℕ → List ℕ) → IsFileOf size (item_at (tree_on volume.now bytes) place.now) }
    requires small { size ≤ max_file_bytes }
    ensures bytes { W.told → IfOk result (λ read. IfSome (item_at (tree_on volume.now (volume_bytes (W.log world.old))) place.now) (λ e. read ≡ bytes_of e)) }
    ensures length { IfOk result (λ read. length read ≡ size) }
    ensures refused { (why : Refused) → result ≡ Err (LineFault.Refused why) → ⊥ }
    ensures steps { W.told → Steps (W.log world.old) (W.log world.new) (now (W.log world.old)) }
    ensures blocks { W.blocks world.new ≡ W.blocks world.old }
    ensures never_less { NeverLess (W.faults world.old) (W.faults world.new) }
    ensures fault { Blames result (W.faults world.old) (W.faults world.new) }
{
    let mut bytes = vec![in alloc; 0u8; size as usize]?;
    match volume.read_part(world, place, 0, bytes.as_mut_slice()) {
        Ok(()) => Ok(Bytes::of(bytes)),
        Err(_) => Err(LineFault::Fault(tm_base::Side::Volume)),
    }
}
