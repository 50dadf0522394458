//! The shared nodes of snapshots.
ghost use Rattle.std.specs.Prelude.{◌≡◌};

use crate::attrs::Attrs;
use std::marker::Model;
use tm_base::Name;
use tm_world::Bytes;

/// The number of a node, at most 2^62. Seen as that number.
#[derive(Clone, Copy, Debug, PartialEq, Eq, PartialOrd, Ord)]
pub struct NodeId(pub u64);

impl Model for NodeId {
    ghost use Rattle.std.specs.Prelude.{ℕ};

    ghost Value = { ℕ };

    ghost view = { λ n. n.0 };

    ghost inverse = { λ n. record { 0 = n } };
}

/// A file or link as records hold it: a file by its length.
#[derive(Drop)]
pub enum LeafRow {
    /// A file.
    File {
        /// Its attributes.
        attrs: Attrs,
        /// The number drawn when it was made or last changed.
        stamp: u64,
        /// The number of its bytes, at most 16,777,216.
        length: u64,
    },
    /// A symbolic link.
    Link {
        /// Its attributes.
        attrs: Attrs,
        /// The number drawn when it was made or last changed.
        stamp: u64,
        /// Where it points to, 1 to 1,023 bytes.
        target: Bytes,
    },
}

/// An entry of a folder's node.
#[derive(Drop)]
pub struct Child {
    /// The name under which it stands.
    pub name: Name,
    /// The node that stands there.
    pub node: NodeId,
}

/// The entries of a folder's node, by rising name. Seen as their list.
#[derive(Drop)]
pub struct Entries {
    list: Vec<Child>,
}

impl Model for Entries {
    ghost use Rattle.std.specs.Prelude.{List};
    ghost use Rattle.tm_tree.specs.declared.node.Child.{Child};

    ghost Value = { List Child };

    ghost view = { λ e. e.list.items };
}

impl Entries {
    /// The entries of a list. It takes no memory.
    pub fn of(list: Vec<Child>) -> Entries
        ensures { result ≡ list.items }
    {
        Entries { list }
    }

    /// The entries, to read. It takes no memory.
    pub fn as_slice(&self) -> &[Child]
        ensures { result.now ≡ self.now }
    {
        self.list.as_slice()
    }
}

/// What a node is.
#[derive(Drop)]
pub enum NodeBody {
    /// A folder.
    Folder {
        /// Its attributes.
        attrs: Attrs,
        /// What it holds.
        entries: Entries,
    },
    /// A file or link.
    Leaf(LeafRow),
}

/// A node: an item of one or more snapshots, kept once.
#[derive(Drop)]
pub struct NodeRow {
    /// The number of the backup that made it.
    pub label: u64,
    /// How many entries and roots name it.
    pub links: u64,
    /// What it is.
    pub body: NodeBody,
}
