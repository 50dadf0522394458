//! Shared nodes: what snapshots have in common is kept once, and counted
//! (`docs/DEFINITIONS.md`, "Nodes and links").
#![tactic(auto)]

mod built;
mod gains;
mod graph;
mod grow;
mod holds;
mod laws;
mod losses;
mod roots;
mod row;
mod walk;

pub use built::{Built, Gone, NodeBlobs, NodeRows, RootLosses};
pub use graph::Graph;
pub use laws::{
    added_reads, gone_is_one, grown_reads, growth_is_undone, leaves_linked, linked_reads,
    losses_leave_linked, nodes_are_reached, rows_stand, ways_find,
};
pub use row::children_of;
pub use walk::{Walk, child_named};

#[cfg(test)]
mod tests;
