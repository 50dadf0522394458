//! Sums over nodes, as far down as links tell.
ghost use Rattle.std.specs.Prelude.{◌≡◌, ℕ, ◌+◌, ◌<◌, ◌^◌, IfOk, OnOk, sum_by};
ghost use Rattle.tm_graph.specs.Nodes.{stored_in};
ghost use Rattle.tm_identity.specs.Stored.{leaf_length, node_length};
ghost use Rattle.tm_identity.specs.Uniques.{only_at, only_from, only_of};
ghost use Rattle.tm_unique.specs.Counts.{AreStored, AreUnique, IsSnapshot};

use std::alloc::{AllocError, Global};
use tm_base::Path;
use tm_graph::{Graph, child_named, children_of};
use tm_tree::{Child, LeafRow, NodeBody, NodeId, NodeRow};

/// The bytes of the files at a path of a snapshot and beneath it that stand in no other snapshot; 0
/// where nothing stands there. Only want of memory can refuse it.
///
/// It follows links and goes into no folder that something else holds too, so it costs what is
/// unique, with one look at each entry of those folders.
pub fn unique_bytes(
    alloc: Global,
    graph: &Graph,
    root: NodeId,
    path: &Path,
) -> Result<u64, AllocError>
    requires snapshot { IsSnapshot graph.now root }
    requires few { stored_in graph.now < 2 ^ 64 }
    ensures unique { IfOk result (AreUnique graph.now root path.now) }
    ensures counted { IfOk result (λ bytes. bytes ≡ only_at graph.now root path.now) }
{
    match way(graph, root, path) {
        Some(node) => only(alloc, graph, node),
        None => Ok(0),
    }
}

/// The bytes of all files, each identity counted once. It looks at every node, and takes no memory.
pub fn stored_bytes(graph: &Graph) -> u64
    requires { stored_in graph.now < 2 ^ 64 }
    ensures stored { AreStored graph.now result }
    ensures counted { result ≡ stored_in graph.now }
{
    graph.stored_bytes()
}

/// The node at a path, where each node on the way down to it has one link.
fn way(graph: &Graph, root: NodeId, path: &Path) -> Option<NodeId>
    ensures { only_from result (only_of graph.now) ≡ only_at graph.now root path.now }
{
    let mut node = root;
    for name in path.names() {
        let row = graph.node(node)?;
        if row.links != 1 {
            return None;
        }
        node = child_named(children_of(row), name)?;
    }
    Some(node)
}

/// The bytes at and beneath a node, as far down as each node has one link.
fn only(alloc: Global, graph: &Graph, node: NodeId) -> Result<u64, AllocError>
    requires { only_of graph.now node < 2 ^ 64 }
    ensures { IfOk result (λ bytes. bytes ≡ only_of graph.now node) }
{
    // This shows that the nodes are a graph.
    let _ = graph.len();
    let mut todo = Vec::new(alloc);
    todo.push(node)?;
    let mut bytes = 0;
    while let Some(next) = todo.pop() {
        if let Some(row) = graph.node(next) {
            if row.links == 1 {
                bytes += length_of(row);
                push_all(&mut todo, children_of(row))?;
            }
        }
    }
    Ok(bytes)
}

fn push_all(todo: &mut Vec<NodeId>, children: &[Child]) -> Result<(), AllocError>
    ensures { OnOk result ((f : ℕ → ℕ) → sum_by f todo.new.items
        ≡ sum_by f todo.old.items + sum_by (λ child. f child.node) children.now) }
{
    for child in children {
        todo.push(child.node)?;
    }
    Ok(())
}

/// The bytes of a file's node, 0 of others.
fn length_of(row: &NodeRow) -> u64
    ensures { result ≡ node_length row.now }
{
    match &row.body {
        NodeBody::Folder { .. } => 0,
        NodeBody::Leaf(leaf) => leaf_length(leaf),
    }
}

fn leaf_length(leaf: &LeafRow) -> u64
    ensures { result ≡ leaf_length leaf.now }
{
    match leaf {
        LeafRow::File { length, .. } => *length,
        LeafRow::Link { .. } => 0,
    }
}
