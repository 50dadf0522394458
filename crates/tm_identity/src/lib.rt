//! Identities of stored items: their links, the bytes that are stored and those that are unique, in
//! the words of trees and counted in nodes (`docs/DEFINITIONS.md`, "Identities").
#![tactic(auto)]

mod laws;

pub use laws::{
    addition_keeps, entries_stand, identities_are_nodes, links_are_counted, nodes_stand,
    removal_keeps, stored_is_counted, sums_are_counted, unique_fits, unique_is_counted,
};
