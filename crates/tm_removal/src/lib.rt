//! What is left of a store where several snapshots are removed (`docs/DEFINITIONS.md`, "Nodes and
//! links").
#![tactic(auto)]

mod laws;

pub use laws::removals_keep;
