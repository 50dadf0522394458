//! The way down from a node.
ghost use Rattle.std.specs.Prelude.{◌≡◌};
ghost use Rattle.tm_graph.specs.Nodes.{node, NamesRise};
ghost use Rattle.tm_graph.specs.Walks.{child_named, down, step};

use crate::graph::Graph;
use crate::row::{children_of, is_folder};
use tm_base::{Name, Path};
use tm_tree::{Child, NodeId};

/// Why a way doesn't end at a node.
#[derive(Clone, Copy, Debug, PartialEq, Eq)]
pub enum Walk {
    /// A folder on the way has no entry of the next name.
    NotFound,
    /// A file or link stands where the way goes on.
    NotFolder,
}

impl Graph {
    /// The node at a path beneath a root. It takes no memory.
    pub fn node_at(&self, root: NodeId, path: &Path) -> Result<NodeId, Walk>
        ensures { result ≡ down self.now root path.now }
    {
        let mut number = root;
        for name in path.names() {
            number = self.child_of(number, name)?;
        }
        Ok(number)
    }

    fn child_of(&self, number: NodeId, name: &Name) -> Result<NodeId, Walk>
        ensures { result ≡ step (node self.now number) name.now }
    {
        let Some(row) = self.node(number) else {
            return Err(Walk::NotFound);
        };
        if !is_folder(row) {
            return Err(Walk::NotFolder);
        }
        match child_named(children_of(row), name) {
            Some(number) => Ok(number),
            None => Err(Walk::NotFound),
        }
    }
}

/// The node under a name, by halves; none where no child has it. It takes no memory.
pub fn child_named(children: &[Child], name: &Name) -> Option<NodeId>
    requires { NamesRise children.now }
    ensures { result ≡ child_named children.now name.now }
{
    match children.binary_search_by(|child| child.name.cmp(name)) {
        Ok(place) => Some(children[place].node),
        Err(_) => None,
    }
}
