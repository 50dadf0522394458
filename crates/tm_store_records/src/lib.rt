//! The records of a store: what they stand for, which rules they keep, and how they are read
//! (`docs/RECORDS.md`, "Stores").
#![tactic(auto)]

mod draft;
mod laws;
mod links;
mod locations;
mod lookups;
mod node_rules;
mod read;
mod snapshot;
mod snapshot_rules;
mod tag;

pub use draft::{MACHINE_KEY, NODE_KEY, SNAPSHOT_KEY};
pub use laws::{
    data_is_told, good_is_store, held_files, held_is_store, held_reads, held_sizes,
    one_store_reads, sizes_are_told, table_is_told, text_is_told,
};
pub use read::{Contents, StoreError, read_store};
pub use snapshot::{Snapshot, SnapshotList};
pub use tag::{StoreTag, read_tag, write_tag};

#[cfg(test)]
mod tests;
