//! What stands in a store.
ghost use Rattle.std.specs.Prelude.{◌≡◌, ◌==◌, find, ℕ, List, true, Some, None, is_some, IfOk, IsSomeAnd};
ghost use Rattle.std.specs.Option.{option_copied, option_map};
ghost use Rattle.tm_tree.specs.Lookups.{snapshot_under};
ghost use Rattle.tm_graph.specs.Nodes.{node};
ghost use Rattle.tm_graph.specs.Trees.{number_at};
ghost use Rattle.tm_identity.specs.Stored.{node_length};
ghost use Rattle.tm_store_records.specs.Held.{IsWhole, files_of, store_on};
ghost use Rattle.tm_store.specs.Finding.{snapshot_dated, held_at, held_under, kind_of_body, stat_of, Looks};

use crate::Store;
use tm_base::{LineFault, Moment, Name, Path, Refused};
use tm_graph::{Walk, rows_stand};
use tm_store_records::Snapshot;
use tm_tree::{LeafRow, NodeBody, NodeId, NodeRow};

/// The node that stands at a path of a snapshot.
#[derive(Clone, Copy, Debug, PartialEq, Eq)]
pub struct Found {
    /// The snapshot's date.
    pub date: Moment,
    /// The node.
    pub node: NodeId,
}

/// What a node is.
#[derive(Clone, Copy, Debug, PartialEq, Eq)]
pub enum Kind {
    Folder,
    File,
    Link,
}

/// A node in short.
#[derive(Clone, Copy, Debug, PartialEq, Eq)]
pub struct Stat {
    /// What it is.
    pub kind: Kind,
    /// The number of the backup that made it.
    pub label: u64,
    /// How many entries of folders and roots of snapshots name it.
    pub links: u64,
    /// The bytes of a file, 0 of others.
    pub length: u64,
}

impl Store {
    /// The snapshot under the machine's name with this date, or the last one where no date is given;
    /// none where there is none, or where that isn't the machine's name. It takes no memory.
    pub fn snapshot_at(&self, machine: &Name, at: Option<Moment>) -> Option<&Snapshot>
        ensures { option_copied result ≡ held_at self.now.machine self.now.snapshots machine.now at }
    {
        if *machine != self.machine {
            return None;
        }
        pick(self.snapshots.as_slice(), at)
    }

    /// The same, under the name of the volume besides; none where that isn't the snapshot's.
    fn snapshot_under(&self, machine: &Name, at: Option<Moment>, volume: &Name) -> Option<&Snapshot>
        ensures { option_copied result ≡ held_under self.now.machine self.now.snapshots machine.now at volume.now }
    {
        let snapshot = self.snapshot_at(machine, at)?;
        if *volume == snapshot.volume {
            Some(snapshot)
        } else {
            None
        }
    }

    /// The node at a path of a snapshot, which is named by the machine, the date (none for the last)
    /// and the name of the volume. `NoSnapshot` comes exactly where they name none, `NotFound` and
    /// `NotFolder` exactly where the walk down the path ends so. It takes no memory.
    pub fn lookup(
        &self,
        machine: &Name,
        at: Option<Moment>,
        volume: &Name,
        path: &Path,
    ) -> Result<Found, LineFault>
        requires { IsWhole self.now }
        ensures looks { (bytes : ℕ → List ℕ) → Looks (files_of self.now.image.records bytes) self.now.nodes (snapshot_under (store_on self.now bytes) machine.now at volume.now) path.now result }
        ensures there { IfOk result (λ found. is_some (node self.now.nodes found.node) ≡ true) }
        ensures number { IfOk result (λ found. IsSomeAnd (held_under self.now.machine self.now.snapshots machine.now at volume.now) (λ s. number_at self.now.nodes s.root path.now ≡ Some found.node)) }
    {
        rows_stand();
        // This shows that it is a graph.
        let _ = self.graph.len();
        let Some(snapshot) = self.snapshot_under(machine, at, volume) else {
            return Err(LineFault::Refused(Refused::NoSnapshot));
        };
        match self.graph.node_at(snapshot.root, path) {
            Ok(node) => Ok(Found {
                date: snapshot.date,
                node,
            }),
            Err(Walk::NotFound) => Err(LineFault::Refused(Refused::NotFound)),
            Err(Walk::NotFolder) => Err(LineFault::Refused(Refused::NotFolder)),
        }
    }

    /// What a node of the graph is. It takes no memory.
    pub fn stat(&self, number: NodeId) -> Stat
        requires { is_some (node self.now.nodes number) ≡ true }
        ensures { option_map stat_of (node self.now.nodes number) ≡ Some result }
    {
        match self.graph.node(number) {
            Some(row) => stat_of(row),
            None => unreachable!(),
        }
    }
}

fn kind_of(body: &NodeBody) -> Kind
    ensures { result ≡ kind_of_body body.now }
{
    match body {
        NodeBody::Folder { .. } => Kind::Folder,
        NodeBody::Leaf(LeafRow::File { .. }) => Kind::File,
        NodeBody::Leaf(LeafRow::Link { .. }) => Kind::Link,
    }
}

/// The bytes of a file's node, 0 of others.
fn length_of(row: &NodeRow) -> u64
    ensures { result ≡ node_length row.now }
{
    match &row.body {
        NodeBody::Leaf(LeafRow::File { length, .. }) => *length,
        _ => 0,
    }
}

fn stat_of(row: &NodeRow) -> Stat
    ensures { result ≡ stat_of row.now }
{
    Stat {
        kind: kind_of(&row.body),
        label: row.label,
        links: row.links,
        length: length_of(row),
    }
}

/// The snapshot with this date, or the last one where no date is given.
fn pick(snapshots: &[Snapshot], at: Option<Moment>) -> Option<&Snapshot>
    ensures { option_copied result ≡ snapshot_dated snapshots.now at }
{
    match at {
        None => snapshots.last(),
        Some(date) => with_date(snapshots, date),
    }
}

/// The first snapshot with this date.
fn with_date(snapshots: &[Snapshot], date: Moment) -> Option<&Snapshot>
    ensures { option_copied result ≡ find (λ s. s.date == date) snapshots.now }
{
    snapshots.iter().find(|snapshot| snapshot.date == date)
}
