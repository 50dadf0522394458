//! A store on its image: dated snapshots that share what didn't change (`docs/RECORDS.md`,
//! "Stores").
//!
//! Each call that changes the store is one commit. A store is seen as what stands in memory, a
//! record of plain values; together with the bytes of its disk it is a store's state.
#![tactic(auto)]

mod blank;
mod complete;
mod file;
mod finding;
mod join;
pub mod laws;
mod load;
mod running;
mod stage;
mod store;

pub use finding::{Found, Kind, Stat};
pub use store::{Df, Store};
pub use tm_image::LoadError;
pub use tm_store_records::{Snapshot, SnapshotList, held_files, held_reads, one_store_reads};
