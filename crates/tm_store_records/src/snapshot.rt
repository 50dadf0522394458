//! Snapshots as the store's records have them.
ghost use Rattle.std.specs.Prelude.{◌≡◌, ◌++◌, ◌∷◌, List, [], OnOk, OnErr};
ghost use Rattle.tm_store_records.specs.declared.snapshot.Snapshot.{Snapshot as Row};

use std::alloc::AllocError;
use std::marker::Model;
use tm_base::{Moment, Name};
use tm_tree::{Mark, NodeId};

/// A finished backup: its number, the date at which it was started, of which volume it is, how far
/// that volume's journal had been read, and the node of its root.
#[derive(Drop)]
pub struct Snapshot {
    /// The number of the backup, from 1.
    pub number: u64,
    /// When it was started.
    pub date: Moment,
    /// The volume's name.
    pub volume: Name,
    /// The volume's id.
    pub id: u128,
    /// How far the volume's journal had been read.
    pub mark: Mark,
    /// The node of its root.
    pub root: NodeId,
}

/// Snapshots by rising date. Seen as their list.
#[derive(Drop)]
pub struct SnapshotList {
    list: Vec<Snapshot>,
}

impl Model for SnapshotList {
    ghost use Rattle.std.specs.Prelude.{List};
    ghost use Rattle.tm_store_records.specs.declared.snapshot.Snapshot.{Snapshot};

    ghost Value = { List Snapshot };

    ghost view = { λ snapshots. snapshots.list.items };
}

impl SnapshotList {
    /// The snapshots of a list. It takes no memory.
    pub fn of(list: Vec<Snapshot>) -> SnapshotList
        ensures { result ≡ list.items }
    {
        SnapshotList { list }
    }

    /// The snapshots, to read. It takes no memory.
    pub fn as_slice(&self) -> &[Snapshot]
        ensures { result.now ≡ self.now }
    {
        self.list.as_slice()
    }

    /// One snapshot more, after the others. Where memory is refused, the list stays as it was.
    pub fn push(&mut self, snapshot: Snapshot) -> Result<(), AllocError>
        ensures ok { OnOk result (self.new ≡ self.old ++ snapshot ∷ []) }
        ensures err { OnErr result (self.new ≡ self.old) }
    {
        self.list.push(snapshot)?;
        Ok(())
    }

    /// Takes the last snapshot off, if there is one. It takes no memory.
    pub fn take_last(&mut self)
        ensures { (first : List Row) (last : Row) → self.old ≡ first ++ last ∷ [] → self.new ≡ first }
    {
        let _ = self.list.pop();
    }
}
