//! The lines that read the store.
ghost use Rattle.std.specs.Prelude.{◌≡◌, ◌∷◌, ◌++◌, ◌-◌, [], ℕ, List, Some, IfOk, IfSome, OnOk, Err, slice_get, length};
ghost use Rattle.std.specs.Option.{option_map_or};
ghost use Rattle.tm_graph.specs.Nodes.{node};
ghost use Rattle.tm_store_records.specs.Held.{IsWhole, files_of, store_on};
ghost use Rattle.tm_tree.specs.States.{latest};
ghost use Rattle.tm_world.specs.Faults.{NeverLess, Blames};
ghost use Rattle.tm_world.specs.Log.{now, Steps};
ghost use Rattle.tm_world.specs.Outside.{Outside, disk};
ghost use Rattle.tm_world.specs.declared.world.Side.TheVariants.{Store as StoreSide};
ghost use Rattle.tm_machine.specs.Answers.{AnswersQuery, AnswersReading, FindsIn};
ghost use Rattle.tm_machine.specs.Queries.{content_rows, date_of, holding_snapshot, held_dates, held_latest, held_machine, held_paths, latest_path, snapshot_paths, store_rows, stored_tree};
ghost use Rattle.tm_machine.specs.Session.{IsIdle, IsOpen, state_on};
ghost use Rattle.tm_machine.specs.States.{store_in};
ghost use Rattle.tm_machine.specs.Steps.{content_tests, on_store, place_tests, snapshot_tests, stored_tests};
ghost use Rattle.tm_base.specs.LineFaults.{NoFault};

use crate::session::Session;
use crate::stored::{leaf_of, node_lines, read_stored};
use crate::volume::one_row;
use std::alloc::{AllocError, Global};
use tm_base::{LineFault, Moment, Name, Refused};
use tm_identity::entries_stand;
use tm_reply::{ReplyRow, ReplyRows};
use tm_store::laws::snapshots_are_named;
use tm_store::{Snapshot, Store, held_files};
use tm_text::{ItemAt, StorePath, Which};
use tm_tree::{LeafRow, NodeId, NodeRow};
use tm_world::World;

/// The date that a store path names; none for the latest.
pub(crate) fn date_of(at: &Which) -> Option<Moment>
    ensures { result ≡ date_of at.now }
{
    match at {
        Which::Latest => None,
        Which::At(date) => Some(*date),
    }
}

fn snapshot_path(machine: &Name, snapshot: &Snapshot) -> Result<ReplyRow, AllocError>
    ensures { IfOk result (λ row. row ≡ ReplyRow.SnapshotPath machine.now snapshot.now.date) }
{
    Ok(ReplyRow::SnapshotPath {
        machine: machine.clone()?,
        date: snapshot.date,
    })
}

fn snapshot_paths(
    alloc: Global,
    machine: &Name,
    snapshots: &[Snapshot],
) -> Result<ReplyRows, AllocError>
    ensures { IfOk result (λ rows. rows ≡ held_paths machine.now snapshots.now) }
{
    let mut rows = ReplyRows::new(alloc);
    for snapshot in snapshots {
        rows.push(snapshot_path(machine, snapshot)?)?;
    }
    Ok(rows)
}

fn snapshot_dates(alloc: Global, snapshots: &[Snapshot]) -> Result<ReplyRows, AllocError>
    ensures { IfOk result (λ rows. rows ≡ held_dates snapshots.now) }
{
    let mut rows = ReplyRows::new(alloc);
    for snapshot in snapshots {
        rows.push(ReplyRow::Snapshot(snapshot.date))?;
    }
    Ok(rows)
}

// A machine's snapshots by rising date, and the latest.
fn machine_rows(alloc: Global, snapshots: &[Snapshot]) -> Result<ReplyRows, AllocError>
    ensures { IfOk result (λ rows. rows ≡ held_machine snapshots.now) }
{
    let mut rows = snapshot_dates(alloc, snapshots)?;
    push_latest(&mut rows, snapshots)?;
    Ok(rows)
}

// Adds the line of the latest snapshot, if there is one.
fn push_latest(rows: &mut ReplyRows, snapshots: &[Snapshot]) -> Result<(), AllocError>
    ensures { OnOk result (rows.new ≡ rows.old ++ held_latest (slice_get snapshots.now (length snapshots.now - 1))) }
{
    match snapshots.last() {
        Some(snapshot) => {
            rows.push(ReplyRow::Latest(snapshot.date))?;
            Ok(())
        }
        None => Ok(()),
    }
}

// The lines of a snapshot.
fn volume_rows(alloc: Global, snapshot: &Snapshot) -> Result<ReplyRows, AllocError>
    ensures { IfOk result (λ rows. rows ≡ ReplyRow.Volume snapshot.now.volume snapshot.now.id ∷ []) }
{
    let mut rows = ReplyRows::new(alloc);
    rows.push(ReplyRow::Volume {
        name: snapshot.volume.clone()?,
        id: snapshot.id,
    })?;
    Ok(rows)
}

impl Session {
    /// `tmutil listbackups`.
    pub(crate) fn list_backups(&self) -> Result<ReplyRows, LineFault>
        ensures { (o : Outside) → let z = store_in (state_on self.now o).store in AnswersQuery (on_store z (λ store. [])) (option_map_or snapshot_paths z []) result }
    {
        let store = self.store()?;
        Ok(snapshot_paths(self.alloc, store.machine(), store.snapshots().as_slice())?)
    }

    /// `tmutil latestbackup`.
    pub(crate) fn latest_backup(&self) -> Result<ReplyRows, LineFault>
        ensures { (o : Outside) → let z = store_in (state_on self.now o).store in AnswersQuery (on_store z (λ store. snapshot_tests (latest store))) (option_map_or latest_path z []) result }
    {
        let store = self.store()?;
        let Some(snapshot) = store.snapshots().as_slice().last() else {
            return Err(LineFault::Refused(Refused::NoSnapshot));
        };
        let mut rows = ReplyRows::new(self.alloc);
        rows.push(snapshot_path(store.machine(), snapshot)?)?;
        Ok(rows)
    }

    /// `tmutil machinedirectory`.
    pub(crate) fn machine_directory(&self) -> Result<ReplyRows, LineFault>
        ensures { (o : Outside) → let z = store_in (state_on self.now o).store in AnswersQuery (on_store z (λ store. []))
            (option_map_or (λ store. ReplyRow.MachineDirectory store.machine ∷ []) z []) result }
    {
        let store = self.store()?;
        let mut rows = ReplyRows::new(self.alloc);
        rows.push(ReplyRow::MachineDirectory(store.machine().clone()?))?;
        Ok(rows)
    }

    /// `store ls`.
    pub(crate) fn store_ls(&self, place: &StorePath) -> Result<ReplyRows, LineFault>
        requires idle { IfSome self.now.store (λ h. IsIdle h self.now.store_blocks) }
        ensures { (o : Outside) → let z = store_in (state_on self.now o).store in AnswersQuery (on_store z (λ store. place_tests store place.now)) (option_map_or (λ store. store_rows store place.now) z []) result }
    {
        let store = self.store()?;
        list_place(self.alloc, store, place)
    }

    /// `store cat`.
    pub(crate) fn store_cat<W: World>(
        &self,
        world: &mut W,
        item: &ItemAt,
    ) -> Result<ReplyRows, LineFault>
        requires open { IsOpen self.now (W.blocks world.old) }
        ensures answer { W.told → let z = store_in (state_on self.now (now (W.log world.old))).store in
            AnswersReading (on_store z (λ store. stored_tests content_tests (holding_snapshot store item.now) item.now.path))
            (option_map_or (λ store. content_rows (stored_tree (holding_snapshot store item.now)) item.now.path) z []) result }
        ensures steps { W.told → Steps (W.log world.old) (W.log world.new) (now (W.log world.old)) }
        ensures blocks { W.blocks world.new ≡ W.blocks world.old }
        ensures never_less { NeverLess (W.faults world.old) (W.faults world.new) }
        ensures fault { Blames result (W.faults world.old) (W.faults world.new) }
    {
        let store = self.store()?;
        tell_stored(self.alloc, world, store, item)
    }
}

// The lines of what a store path names.
fn list_place(alloc: Global, store: &Store, place: &StorePath) -> Result<ReplyRows, LineFault>
    requires { IsWhole store.now }
    ensures { (bytes : ℕ → List ℕ) → let s = store_on store.now bytes in AnswersQuery (place_tests s place.now) (store_rows s place.now) result }
{
    snapshots_are_named();
    match place {
        StorePath::Top => {
            let mut rows = ReplyRows::new(alloc);
            rows.push(ReplyRow::Machine(store.machine().clone()?))?;
            Ok(rows)
        }
        StorePath::Machine(machine) => {
            if machine != store.machine() {
                return Err(LineFault::Refused(Refused::NoSnapshot));
            }
            Ok(machine_rows(alloc, store.snapshots().as_slice())?)
        }
        StorePath::Snapshot(at) => match store.snapshot_at(&at.machine, date_of(&at.at)) {
            Some(snapshot) => Ok(volume_rows(alloc, snapshot)?),
            None => Err(LineFault::Refused(Refused::NoSnapshot)),
        },
        StorePath::Item(item) => list_stored(alloc, store, item),
    }
}

// A stored item: its node and that node's number.
#[derive(Clone, Copy)]
struct StoredItem<'a> {
    number: NodeId,
    row: &'a NodeRow,
}

// Finds a stored item.
fn find_stored<'a>(store: &'a Store, item: &ItemAt) -> Result<StoredItem<'a>, LineFault>
    requires { IsWhole store.now }
    ensures finds { (bytes : ℕ → List ℕ) → FindsIn (holding_snapshot (store_on store.now bytes) item.now) item.now.path (files_of store.now.image.records bytes) store.now.nodes result }
    ensures row { IfOk result (λ found. node store.now.nodes found.number ≡ Some found.row.now) }
    ensures fault { NoFault result }
{
    snapshots_are_named();
    entries_stand();
    // The result borrows, so `?` can't pass an error on here.
    let found = match store.lookup(
        &item.snapshot.machine,
        date_of(&item.snapshot.at),
        &item.volume,
        &item.path,
    ) {
        Ok(found) => found,
        Err(why) => return Err(why),
    };
    match store.graph().node(found.node) {
        Some(row) => Ok(StoredItem {
            number: found.node,
            row,
        }),
        None => unreachable!(),
    }
}

// The lines of a stored item.
fn list_stored(alloc: Global, store: &Store, item: &ItemAt) -> Result<ReplyRows, LineFault>
    requires { IsWhole store.now }
    ensures { (bytes : ℕ → List ℕ) → let s = store_on store.now bytes in AnswersQuery (place_tests s (StorePath.Item item.now)) (store_rows s (StorePath.Item item.now)) result }
{
    held_files();
    // `?` can't pass a value that borrows beside a number.
    match find_stored(store, item) {
        Ok(found) => Ok(node_lines(alloc, store.graph(), found.row, &item.path)?),
        Err(why) => Err(why),
    }
}

// The contents of a stored file, or the target of a stored link.
fn tell_stored<W: World>(
    alloc: Global,
    world: &mut W,
    store: &Store,
    item: &ItemAt,
) -> Result<ReplyRows, LineFault>
    requires whole { IsWhole store.now }
    requires count { length store.now.image.used ≡ W.blocks world.old StoreSide }
    ensures answer { W.told → let s = store_on store.now (disk StoreSide (now (W.log world.old))).bytes in
        AnswersReading (stored_tests content_tests (holding_snapshot s item.now) item.now.path) (content_rows (stored_tree (holding_snapshot s item.now)) item.now.path) result }
    ensures steps { W.told → Steps (W.log world.old) (W.log world.new) (now (W.log world.old)) }
    ensures blocks { W.blocks world.new ≡ W.blocks world.old }
    ensures never_less { NeverLess (W.faults world.old) (W.faults world.new) }
    ensures fault { Blames result (W.faults world.old) (W.faults world.new) }
{
    // `?` can't pass a value that borrows beside a number.
    let found = match find_stored(store, item) {
        Ok(found) => found,
        Err(why) => return Err(why),
    };
    match leaf_of(&found.row.body) {
        None => Err(LineFault::Refused(Refused::IsFolder)),
        Some(LeafRow::File { length, .. }) => {
            match read_stored(alloc, world, store, found.number, *length) {
                Ok(bytes) => one_row(alloc, ReplyRow::Contents(bytes)),
                Err(why) => Err(why),
            }
        }
        Some(LeafRow::Link { target, .. }) => one_row(alloc, ReplyRow::Target(target.clone()?)),
    }
}
