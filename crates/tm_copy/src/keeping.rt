//! When the base's node is kept: told by stamps, attributes and numbers, never by bytes.
ghost use Rattle.std.specs.Prelude.{◌≡◌};
ghost use Rattle.tm_graph.specs.Nodes.{NamesRise, node};
ghost use Rattle.tm_graph.specs.Walks.{child_named};
ghost use Rattle.tm_copy.specs.Driving.{base_child};
ghost use Rattle.tm_copy.specs.Keeping.{is_file_of, is_folder_of, is_link_of, kept_file, kept_folder, kept_link, same_child, same_entries};

use tm_base::Name;
use tm_graph::{Graph, child_named, children_of};
use tm_tree::{Attrs, Child, Entries, LeafRow, NodeBody, NodeId};

/// The base's child of that name, on the way down beside the tree; none where there is none, or no
/// base. It takes no memory.
pub fn base_child(graph: &Graph, base: Option<NodeId>, name: &Name) -> Option<NodeId>
    ensures { result ≡ base_child graph.now base name.now }
{
    let row = graph.node(base?)?;
    child_named(children_of(row), name)
}

/// The base's node, where it is a file of this stamp. It takes no memory.
pub fn kept_file(graph: &Graph, base: Option<NodeId>, stamp: u64) -> Option<NodeId>
    ensures { result ≡ kept_file graph.now base stamp }
{
    let number = base?;
    let row = graph.node(number)?;
    if is_file_of(&row.body, stamp) {
        Some(number)
    } else {
        None
    }
}

/// The base's node, where it is a link of this stamp. It takes no memory.
pub fn kept_link(graph: &Graph, base: Option<NodeId>, stamp: u64) -> Option<NodeId>
    ensures { result ≡ kept_link graph.now base stamp }
{
    let number = base?;
    let row = graph.node(number)?;
    if is_link_of(&row.body, stamp) {
        Some(number)
    } else {
        None
    }
}

/// The base's node, where it is a folder of these attributes and entries: the same names, each with
/// the same node. It takes no memory.
pub fn kept_folder(
    graph: &Graph,
    base: Option<NodeId>,
    attrs: &Attrs,
    entries: &Entries,
) -> Option<NodeId>
    ensures { result ≡ kept_folder graph.now base attrs.now entries.now }
{
    let number = base?;
    let row = graph.node(number)?;
    if is_folder_of(&row.body, attrs, entries) {
        Some(number)
    } else {
        None
    }
}

fn is_file_of(body: &NodeBody, stamp: u64) -> bool
    ensures { result ≡ is_file_of stamp body.now }
{
    match body {
        NodeBody::Leaf(LeafRow::File { stamp: s, .. }) => *s == stamp,
        _ => false,
    }
}

fn is_link_of(body: &NodeBody, stamp: u64) -> bool
    ensures { result ≡ is_link_of stamp body.now }
{
    match body {
        NodeBody::Leaf(LeafRow::Link { stamp: s, .. }) => *s == stamp,
        _ => false,
    }
}

fn is_folder_of(body: &NodeBody, attrs: &Attrs, entries: &Entries) -> bool
    ensures { result ≡ is_folder_of attrs.now entries.now body.now }
{
    match body {
        NodeBody::Folder {
            attrs: a,
            entries: es,
        } => a.is_same(attrs) && same_entries(es.as_slice(), entries.as_slice()),
        NodeBody::Leaf(_) => false,
    }
}

fn same_entries(a: &[Child], b: &[Child]) -> bool
    ensures { result ≡ same_entries a.now b.now }
{
    let mut others = b.iter();
    for child in a {
        let Some(other) = others.next() else {
            return false;
        };
        if !same_child(child, other) {
            return false;
        }
    }
    others.next().is_none()
}

fn same_child(a: &Child, b: &Child) -> bool
    ensures { result ≡ same_child a.now b.now }
{
    a.name == b.name && a.node == b.node
}
