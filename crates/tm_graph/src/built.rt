//! Lists of nodes.
ghost use Rattle.std.specs.Prelude.{◌≡◌};

use std::marker::Model;
use tm_tree::{NodeId, NodeRow};
use tm_world::Blob;

/// Nodes under their numbers, by rising number. Seen as their list.
#[derive(Drop)]
pub struct NodeRows {
    list: Vec<(NodeId, NodeRow)>,
}

impl Model for NodeRows {
    ghost use Rattle.tm_graph.specs.Nodes.{Nodes};

    ghost Value = { Nodes };

    ghost view = { λ rows. rows.list.items };
}

impl NodeRows {
    /// The nodes of a list. It takes no memory.
    pub fn of(list: Vec<(NodeId, NodeRow)>) -> NodeRows
        ensures { result ≡ list.items }
    {
        NodeRows { list }
    }

    /// The nodes, to read. It takes no memory.
    pub fn as_slice(&self) -> &[(NodeId, NodeRow)]
        ensures { result.now ≡ self.now }
    {
        self.list.as_slice()
    }

    /// The nodes as the list that they were made of. It takes no memory.
    pub fn into_list(self) -> Vec<(NodeId, NodeRow)>
        ensures { result.items ≡ self }
    {
        let NodeRows { list } = self;
        list
    }
}

/// The blobs of files among nodes. Seen as their list.
#[derive(Drop)]
pub struct NodeBlobs {
    list: Vec<(NodeId, Blob)>,
}

impl Model for NodeBlobs {
    ghost use Rattle.std.specs.Prelude.{List, ℕ};
    ghost use Rattle.tm_world.specs.declared.bytes.Blob.{Blob};

    ghost Value = { List (ℕ × Blob) };

    ghost view = { λ blobs. blobs.list.items };
}

impl NodeBlobs {
    /// The blobs of a list. It takes no memory.
    pub fn of(list: Vec<(NodeId, Blob)>) -> NodeBlobs
        ensures { result ≡ list.items }
    {
        NodeBlobs { list }
    }

    /// The blobs, to read. It takes no memory.
    pub fn as_slice(&self) -> &[(NodeId, Blob)]
        ensures { result.now ≡ self.now }
    {
        self.list.as_slice()
    }

    /// The blobs as the list that they were made of. It takes no memory.
    pub fn into_list(self) -> Vec<(NodeId, Blob)>
        ensures { result.items ≡ self }
    {
        let NodeBlobs { list } = self;
        list
    }
}

/// What a backup adds to the graph.
#[derive(Drop)]
pub struct Built {
    /// The root of the new snapshot: one of `nodes`, or the last snapshot's root where nothing changed.
    pub root: NodeId,
    /// The new nodes, numbered one by one after the greatest in use, children before their folder.
    pub nodes: NodeRows,
    /// The bytes of each file among them.
    pub blobs: NodeBlobs,
}

/// Nodes that went with root links, or that lost links with them, the greatest first. Seen as their
/// list.
#[derive(Drop)]
pub struct Gone {
    list: Vec<NodeId>,
}

impl Model for Gone {
    ghost use Rattle.std.specs.Prelude.{List, ℕ};

    ghost Value = { List ℕ };

    ghost view = { λ gone. gone.list.items };
}

impl Gone {
    /// The nodes of a list. It takes no memory.
    pub(crate) fn of(list: Vec<NodeId>) -> Gone
        ensures { result ≡ list.items }
    {
        Gone { list }
    }

    /// The nodes, to read. It takes no memory.
    pub fn as_slice(&self) -> &[NodeId]
        ensures { result.now ≡ self.now }
    {
        self.list.as_slice()
    }
}

/// What a graph lost with root links.
#[derive(Drop)]
pub struct RootLosses {
    /// The nodes that went.
    pub gone: Gone,
    /// The nodes that are left with fewer links.
    pub thinned: Gone,
}
