//! An image: a map from keys to records with a tag, on the blocks of one side, committed whole.
//!
//! Its records lie in a table behind the gate (`docs/FORMATS.md`, "Chain, table and data"). A commit
//! writes its table to free blocks and then turns the gate, so that a stop leaves the old records and
//! tag or the new. Blobs are staged before the commit that takes them up.
#![tactic(auto)]

mod blank;
mod commit;
mod error;
mod finish;
mod image;
mod laws;
mod load;
mod part;
mod prepare;
mod retag;
mod stage;
mod write;

pub use error::{ImageError, LoadError};
pub use image::Image;
pub use laws::{blobs_stay, blocks_are_shared, changes_by_key, readings_are_one, standing_is_read};
pub use prepare::{Changes, Prepared};
