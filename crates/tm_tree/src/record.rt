//! The items of a volume as its records hold them.
use crate::attrs::Attrs;
use crate::node::LeafRow;
use tm_base::Name;

/// What an item's record says of the item itself.
#[derive(Drop)]
pub enum ItemBody {
    /// A folder.
    Folder {
        /// Its attributes.
        attrs: Attrs,
    },
    /// A file or link.
    Leaf(LeafRow),
}

/// An item's record.
#[derive(Drop)]
pub struct ItemRow {
    /// The number of the folder that holds it, 0 for the root.
    pub parent: u64,
    /// Its name there, none for the root.
    pub name: Option<Name>,
    /// What it is.
    pub body: ItemBody,
}
