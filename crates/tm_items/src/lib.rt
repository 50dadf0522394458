//! Items by number, each with the number of its folder and its name there, and the tree that they
//! are (`docs/DEFINITIONS.md`, "Numbered items").
#![tactic(auto)]

mod change_laws;
mod laws;

pub use change_laws::{
    counts_are_alike, listings_are_children, moved_items_read, new_items_read, removed_items_read,
    replaced_items_read, weights_are_alike,
};
pub use laws::{
    failed_tests_break_rules, index_follows, index_tells, index_walks, items_load,
    items_read_as_one_tree, numbers_count, sound_items_read,
};
