//! The outside: two images behind one trait, a script, and the bytes that are said.
//!
//! Everything above works over a [`World`]. The trait states what each call does to what is
//! outside, what a stop may then leave of the two images, and when a call may fail
//! (`docs/DISKS.md`).
#![tactic(auto)]

mod bytes;
mod cause;
mod faults;
mod laws;
mod world;

pub use bytes::{Blob, Blocks, Bytes};
pub use cause::Cause;
pub use faults::Faults;
pub use laws::{
    DiskFact, attach_script_keeps, attach_side_keeps, can_be_met, other_side_stays, read_runs,
    reads_are_left, rest_stays, say_keeps, sides_compose, sync_runs, synced_stays, take_keeps,
    unsynced_may_tear, write_runs,
};
pub use world::{Failed, Part, Side, World};
