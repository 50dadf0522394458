//! Bytes of identities, counted by links: those that only one snapshot has, and those of all
//! (`docs/DEFINITIONS.md`, "Identities").
#![tactic(auto)]

mod counting;

pub use counting::{stored_bytes, unique_bytes};

#[cfg(test)]
mod tests;
