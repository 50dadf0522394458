//! What one folder holds, without what is beneath.
ghost use Rattle.std.specs.Prelude.{◌≡◌};

use crate::attrs::Attrs;
use std::marker::Model;
use tm_base::Name;
use tm_world::Bytes;

/// An entry of a folder, without its name. Of a folder the kind alone is told.
#[derive(Drop)]
pub enum ListKind {
    /// A folder.
    Folder,
    /// A file.
    File {
        /// Its attributes.
        attrs: Attrs,
        /// The number drawn when it was made or last changed.
        stamp: u64,
        /// The number of its bytes.
        length: u64,
    },
    /// A symbolic link.
    Link {
        /// Its attributes.
        attrs: Attrs,
        /// The number drawn when it was made or last changed.
        stamp: u64,
        /// Where it points to.
        target: Bytes,
    },
}

/// An entry of a folder.
#[derive(Drop)]
pub struct ListRow {
    /// The name under which it stands.
    pub name: Name,
    /// What it is.
    pub kind: ListKind,
}

/// The entries of a folder by rising name. Seen as their list.
#[derive(Drop)]
pub struct ListRows {
    list: Vec<ListRow>,
}

impl Model for ListRows {
    ghost use Rattle.std.specs.Prelude.{List};
    ghost use Rattle.tm_tree.specs.declared.listing.ListRow.{ListRow};

    ghost Value = { List ListRow };

    ghost view = { λ rows. rows.list.items };
}

impl ListRows {
    /// The rows of a list. It takes no memory.
    pub fn of(list: Vec<ListRow>) -> ListRows
        ensures { result ≡ list.items }
    {
        ListRows { list }
    }

    /// The rows, to read. It takes no memory.
    pub fn as_slice(&self) -> &[ListRow]
        ensures { result.now ≡ self.now }
    {
        self.list.as_slice()
    }
}

/// A folder: its attributes and its entries.
#[derive(Drop)]
pub struct Listing {
    /// The folder's own.
    pub attrs: Attrs,
    /// Its entries by rising name.
    pub rows: ListRows,
}
