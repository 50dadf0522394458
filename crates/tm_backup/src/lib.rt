//! A backup that walks the whole view of a volume (`docs/DEFINITIONS.md`, "The walk").
//!
//! Folder by folder it stages the bytes of the files that the base doesn't have, and makes what the
//! finished backup adds to the store: the base's nodes where nothing changed, told by stamps and
//! numbers, and new ones for all else.
#![tactic(auto)]

mod finish;
mod laws;
mod stage;
mod view;
mod walk;

pub use finish::{Copied, copy_volume};
pub use laws::{folders_in_order, taken_is, taken_tells};
