//! The walk: folder by folder, each before what is beneath it.
ghost use Rattle.std.specs.Prelude.{◌≡◌, ◌≤◌, ◌∷◌, ◌++◌, [], ℕ, List, Option, true, IfOk, OnOk, length, map};
ghost use Rattle.std.specs.List.{flat_map};
ghost use Rattle.tm_blockmap.specs.Counts.{times};
ghost use Rattle.tm_image.specs.Room.{free_of};
ghost use Rattle.tm_store.specs.Answers.{UnlessFault};
ghost use Rattle.tm_store_records.specs.Room.{store_blocks};
ghost use Rattle.tm_tree.specs.Trees.{folder_at};
ghost use Rattle.tm_world.specs.Faults.{NeverLess, Blames};
ghost use Rattle.tm_world.specs.Log.{now};
ghost use Rattle.tm_backup.specs.Answers.{Stages};
ghost use Rattle.tm_backup.specs.Growing.{Suits, counted, folders_from, staging_from};
ghost use Rattle.tm_backup.specs.EntryPlans.{owed};
ghost use Rattle.tm_backup.specs.Steps.{MayGo, Ran, Went};
ghost use Rattle.tm_backup.specs.Taking.{prev_on, view_on};
ghost use Rattle.tm_backup.specs.Walking.{EntriesGrow, EntryGrows, FolderGrows, IsBegun, MayEnter, MayEnterAll, entry_folders, entry_staging};

use crate::stage::{EntryPlan, PlannedEntry, stage_folder};
use crate::view::{Folder, child_of, list_view};
use std::alloc::Global;
use tm_base::{LineFault, Name, Path};
use tm_copy::Builder;
use tm_store::Store;
use tm_tree::{Child, Entries, NodeId};
use tm_volume::Volume;
use tm_volume::laws::items_keep_bounds;
use tm_world::{Side, World};

/// What a walk has made so far.
#[derive(Drop)]
pub(crate) struct Progress {
    /// The new nodes.
    pub builder: Builder,
    /// How many folders were listed; the count stands still at 2^64 - 1.
    pub walked: u64,
}

/// Makes the node of the folder at a path, with all beneath it: the files in it are staged first,
/// and then its entries are made, by name.
#[cycle(walk)]
pub(crate) fn walk_folder<W: World>(
    alloc: Global,
    world: &mut W,
    volume: &mut Volume,
    store: &mut Store,
    progress: &mut Progress,
    path: &Path,
    base: Option<NodeId>,
) -> Result<NodeId, LineFault>
    requires may { MayGo W.told volume.old store.old (now (W.log world.old)) (W.blocks world.old Side.Volume) (W.blocks world.old Side.Store) }
    requires shown { (bytes : ℕ → List ℕ) → folder_at (view_on volume.old bytes) path.now ≡ true }
    requires begun { IsBegun store.old progress.old.builder }
    ensures ran { Ran W.told volume.old volume.new store.old store.new (W.log world.old) (W.log world.new) }
    ensures went { UnlessFault result (Went W.told store.old store.new (W.log world.old) (W.log world.new)) }
    ensures stages { (root : Option ℕ) (files bytes : ℕ → List ℕ) → Suits W.told store.old (W.log world.old) path.now base root bytes
        → Stages (store_blocks store.old.machine store.old.snapshots store.old.nodes) (free_of store.old.image) (free_of store.new.image) (staging_from (prev_on store.old files root) (view_on volume.old bytes) path.now) result }
    ensures grows { IfOk result (λ node. FolderGrows W.told store.old store.new volume.old (W.log world.old) (W.log world.new) path.now base progress.old.builder progress.new.builder node) }
    ensures begun { OnOk result (IsBegun store.old progress.new.builder) }
    ensures walked { (bytes : ℕ → List ℕ) → OnOk result (counted progress.new.walked 0 ≡ counted progress.old.walked (length (folders_from (view_on volume.old bytes) path.now))) }
    ensures blocks { W.blocks world.new ≡ W.blocks world.old }
    ensures never_less { NeverLess (W.faults world.old) (W.faults world.new) }
    ensures fault { Blames result (W.faults world.old) (W.faults world.new) }
{
    items_keep_bounds();
    let Folder { attrs, rows } = list_view(alloc, volume, path)?;
    progress.walked = progress.walked.saturating_add(1);
    // A copy for each call, which the borrow checker of the proofs asks for.
    let (first, second) = (base, base);
    let planned = stage_folder(alloc, world, volume, store, path, first, rows)?;
    let entries = walk_entries(alloc, world, volume, store, progress, path, second, planned)?;
    let node = progress
        .builder
        .folder(store.graph(), base, attrs, Entries::of(entries))?;
    Ok(node)
}

/// Makes the entries of the folder at a path.
#[cycle(walk)]
fn walk_entries<W: World>(
    alloc: Global,
    world: &mut W,
    volume: &mut Volume,
    store: &mut Store,
    progress: &mut Progress,
    path: &Path,
    base: Option<NodeId>,
    planned: Vec<PlannedEntry>,
) -> Result<Vec<Child>, LineFault>
    requires may { MayGo W.told volume.old store.old (now (W.log world.old)) (W.blocks world.old Side.Volume) (W.blocks world.old Side.Store) }
    requires enter { MayEnterAll volume.old store.old.nodes path.now base planned.items }
    requires begun { IsBegun store.old progress.old.builder }
    requires owed { (k : ℕ) → owed planned.items k ≤ times k store.old.staged }
    ensures ran { Ran W.told volume.old volume.new store.old store.new (W.log world.old) (W.log world.new) }
    ensures went { UnlessFault result (Went W.told store.old store.new (W.log world.old) (W.log world.new)) }
    ensures stages { (root : Option ℕ) (files bytes : ℕ → List ℕ) → Suits W.told store.old (W.log world.old) path.now base root bytes
        → Stages (store_blocks store.old.machine store.old.snapshots store.old.nodes) (free_of store.old.image) (free_of store.new.image) (flat_map (entry_staging (prev_on store.old files root) (view_on volume.old bytes) path.now) planned.items) result }
    ensures grows { IfOk result (λ entries. EntriesGrow W.told store.old store.new volume.old (W.log world.old) (W.log world.new) path.now base planned.items progress.old.builder progress.new.builder entries.items) }
    ensures names { IfOk result (λ entries. map (λ child. child.name) entries.items ≡ map (λ entry. entry.name) planned.items) }
    ensures begun { OnOk result (IsBegun store.old progress.new.builder) }
    ensures walked { (bytes : ℕ → List ℕ) → OnOk result (counted progress.new.walked 0 ≡ counted progress.old.walked (length (flat_map (entry_folders (view_on volume.old bytes) path.now) planned.items))) }
    ensures blocks { W.blocks world.new ≡ W.blocks world.old }
    ensures never_less { NeverLess (W.faults world.old) (W.faults world.new) }
    ensures fault { Blames result (W.faults world.old) (W.faults world.new) }
{
    items_keep_bounds();
    let mut entries = Vec::new(alloc);
    for entry in planned {
        let PlannedEntry {
            name,
            base: below,
            plan,
        } = entry;
        let above = base;
        let node = walk_entry(
            alloc, world, volume, store, progress, path, above, &name, below, plan,
        )?;
        entries.push(Child { name, node })?;
    }
    Ok(entries)
}

/// Makes what stands at a name in the folder at a path; `below` is the base's node there.
#[cycle(walk)]
fn walk_entry<W: World>(
    alloc: Global,
    world: &mut W,
    volume: &mut Volume,
    store: &mut Store,
    progress: &mut Progress,
    path: &Path,
    base: Option<NodeId>,
    name: &Name,
    below: Option<NodeId>,
    plan: EntryPlan,
) -> Result<NodeId, LineFault>
    requires may { MayGo W.told volume.old store.old (now (W.log world.old)) (W.blocks world.old Side.Volume) (W.blocks world.old Side.Store) }
    requires enter { MayEnter volume.old store.old.nodes path.now base (record { name = name.now; base = below; plan = plan }) }
    requires begun { IsBegun store.old progress.old.builder }
    ensures ran { Ran W.told volume.old volume.new store.old store.new (W.log world.old) (W.log world.new) }
    ensures went { UnlessFault result (Went W.told store.old store.new (W.log world.old) (W.log world.new)) }
    ensures stages { (root : Option ℕ) (files bytes : ℕ → List ℕ) → Suits W.told store.old (W.log world.old) path.now base root bytes
        → Stages (store_blocks store.old.machine store.old.snapshots store.old.nodes) (free_of store.old.image) (free_of store.new.image) (entry_staging (prev_on store.old files root) (view_on volume.old bytes) path.now (record { name = name.now; base = below; plan = plan })) result }
    ensures grows { IfOk result (λ node. EntryGrows W.told store.old store.new volume.old (W.log world.old) (W.log world.new) path.now base (record { name = name.now; base = below; plan = plan }) progress.old.builder progress.new.builder node) }
    ensures begun { OnOk result (IsBegun store.old progress.new.builder) }
    ensures walked { (bytes : ℕ → List ℕ) → OnOk result (counted progress.new.walked 0 ≡ counted progress.old.walked (length (entry_folders (view_on volume.old bytes) path.now (record { name = name.now; base = below; plan = plan })))) }
    ensures blocks { W.blocks world.new ≡ W.blocks world.old }
    ensures never_less { NeverLess (W.faults world.old) (W.faults world.new) }
    ensures fault { Blames result (W.faults world.old) (W.faults world.new) }
{
    items_keep_bounds();
    match plan {
        EntryPlan::Kept(node) => Ok(node),
        EntryPlan::File { attrs, stamp, blob } => {
            let node = progress.builder.file(attrs, stamp, blob)?;
            Ok(node)
        }
        EntryPlan::Link {
            attrs,
            stamp,
            target,
        } => {
            let node = progress
                .builder
                .link(store.graph(), below, attrs, stamp, target)?;
            Ok(node)
        }
        EntryPlan::Folder => {
            let place = child_of(path, name)?;
            walk_folder(alloc, world, volume, store, progress, &place, below)
        }
    }
}
