//! The records of a volume (`docs/FORMATS.md`, "Records of a volume"): what their keys are, what
//! they mean, and the rules that each keeps against all of them.
#![tactic(auto)]

mod check;
mod fixed;
mod head;
mod indexing;
mod positions;
mod record_keys;

pub use check::{Contents, check_records, first_from};
pub use fixed::FixedPaths;
pub use record_keys::{HEAD_KEY, ITEM_KEY, JOURNAL_KEY};
