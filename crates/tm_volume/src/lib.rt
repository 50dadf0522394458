//! A volume on its image (`docs/FORMATS.md`, "Records of a volume"): its items are the image's
//! records, kept once, and an index has the number of each place.
//!
//! Each edit is one commit. A stop leaves the volume before it or after it.
#![tactic(auto)]

mod blank;
mod contents;
mod edit;
mod file_part;
mod find;
pub mod laws;
mod list;
mod load;
mod numbers;
mod row;
mod stage;
mod tag;
mod volume;

pub use edit::{Edit, Entered, Left};
pub use numbers::MAX_NEXT;
pub use row::meta_of;
pub use volume::{Volume, VolumeInfo};
