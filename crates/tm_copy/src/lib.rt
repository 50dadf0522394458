//! What a finished backup adds to the graph: nodes of the base where nothing changed, and new ones
//! for all else (`docs/DEFINITIONS.md`, "Nodes and links").
#![tactic(auto)]

mod builder;
mod keeping;
mod laws;

pub use builder::Builder;
pub use keeping::{base_child, kept_file, kept_folder, kept_link};
pub use laws::{
    agreeing_tell, backup_is_built, base_goes_down, entry_is_built, folder_is_kept, folder_is_made,
    leaf_is_kept, leaf_is_made, leaf_is_same, lists_folder, nodes_are_copy, none_are_new,
    rows_stand_in, same_by_entries,
};

#[cfg(test)]
mod tests;
