//! Places in a store, as a store path names them.
use tm_base::{Moment, Name, Path};

/// Which snapshot of a machine (`docs/SCRIPT.md`, "Store paths").
#[derive(Drop)]
pub enum Which {
    /// The last one.
    Latest,
    /// The one of this date.
    At(Moment),
}

/// A snapshot's place in a store.
#[derive(Drop)]
pub struct SnapshotAt {
    /// The machine's name.
    pub machine: Name,
    /// Which of its snapshots.
    pub at: Which,
}

/// An item's place in a store.
#[derive(Drop)]
pub struct ItemAt {
    /// The snapshot that holds it.
    pub snapshot: SnapshotAt,
    /// The name of the snapshot's volume.
    pub volume: Name,
    /// The item's path inside the volume.
    pub path: Path,
}

/// The place of a snapshot or of an item.
#[derive(Drop)]
pub enum Stored {
    /// A whole snapshot.
    Snapshot(SnapshotAt),
    /// An item of one.
    Item(ItemAt),
}

/// A place in a store (`docs/SCRIPT.md`, "Store paths").
#[derive(Drop)]
pub enum StorePath {
    /// All machines: `/Backups.backupdb`.
    Top,
    /// A machine.
    Machine(Name),
    /// A snapshot.
    Snapshot(SnapshotAt),
    /// An item of a snapshot.
    Item(ItemAt),
}
