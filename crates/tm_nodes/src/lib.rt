//! The records of an image: items, nodes, snapshots, paths, journal rows and heads, as bytes.
//!
//! Each record has one spelling, and each spelling is one record's (`docs/RECORDS.md`). A reading
//! call gives the record exactly where the bytes are its spelling, with nothing left over.
#![tactic(auto)]

mod attrs;
mod error;
mod field;
mod item;
mod kind;
mod laws;
mod leaf;
mod machine;
mod node;
mod path;
mod rows;
mod snapshot;
mod volume;

pub use error::NodeError;
pub use item::{item_meta, parent_of, read_item};
pub use kind::{Kind, kind_of};
pub use laws::{spellings_are_found, spellings_are_read_again, spellings_have_one_meaning};
pub use machine::{machine_meta, read_machine};
pub use node::{node_meta, read_node};
pub use path::{paths_data, read_paths};
pub use rows::{read_rows, rows_data};
pub use snapshot::{SnapshotRow, read_snapshot, snapshot_meta};
pub use volume::{VolumeHead, read_volume, volume_meta};

#[cfg(test)]
mod tests;
