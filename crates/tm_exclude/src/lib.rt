//! Exclusions: whether a path is left out of backups (`docs/DEFINITIONS.md`, "Exclusions").
#![tactic(auto)]

mod excluding;
mod laws;

pub use excluding::is_excluded;
pub use laws::view_is_tested;
