//! Items, trees, listings and changes: what a volume is, what a snapshot holds, and what a line
//! does to them (`docs/DEFINITIONS.md`).
#![tactic(auto)]

mod attrs;
mod change;
mod fill;
mod item;
mod laws;
mod listing;
mod node;
mod record;
mod rows;
mod walk;

pub use attrs::{Attrs, Extras, is_exclusion};
pub use change::Change;
pub use fill::fill_bytes;
pub use item::{Item, Labelled};
pub use laws::{
    copy_is_whole, copy_of_part, copy_over_same, moves_items, new_is_tree, tree_is_kept,
    view_is_tree,
};
pub use listing::{ListKind, ListRow, ListRows, Listing};
pub use node::{Child, Entries, LeafRow, NodeBody, NodeId, NodeRow};
pub use record::{ItemBody, ItemRow};
pub use rows::{Mark, PathList, Row, RowList, Touch, Touches};
pub use walk::Way;
