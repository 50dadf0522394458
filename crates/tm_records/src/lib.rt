//! The records of an image in memory, changed in place with a way back.
//!
//! An image is a map from keys to records (`docs/FORMATS.md`, "The table"). A commit changes this
//! map itself: each put leaves how it is taken back, and can't fail to be taken back, so a commit
//! that is refused later leaves the map as it was, with no copy of it.
#![tactic(auto)]

mod log;
mod put;
mod record;
mod remove;

pub use log::{Undo, undo_all};
pub use put::put_all;
pub use record::{Body, Put, Record};
pub use remove::remove_all;
