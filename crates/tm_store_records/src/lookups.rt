//! Nodes by their numbers, in a list by rising number.
ghost use Rattle.std.specs.Prelude.{◌≡◌};
ghost use Rattle.std.specs.List.Sorted.{IsStrictlySortedBy};
ghost use Rattle.std.specs.Ordering.{nat_cmp};
ghost use Rattle.std.specs.Map.{keys_of};
ghost use Rattle.std.specs.Option.{option_copied};
ghost use Rattle.tm_graph.specs.Nodes.{node, is_folder};
ghost use Rattle.tm_store_records.specs.Rules.{is_folder_node};

use tm_tree::{NodeBody, NodeId, NodeRow};

/// The node of a number, if it is there.
pub(crate) fn find_node(nodes: &[(NodeId, NodeRow)], number: u64) -> Option<&NodeRow>
    requires { IsStrictlySortedBy nat_cmp (keys_of nodes.now) }
    ensures { option_copied result ≡ node nodes.now number }
{
    match nodes.binary_search_by(|entry| entry.0.0.cmp(&number)) {
        Ok(place) => Some(&nodes[place].1),
        Err(_) => None,
    }
}

fn is_folder(row: &NodeRow) -> bool
    ensures { result ≡ is_folder row.now }
{
    match &row.body {
        NodeBody::Folder { .. } => true,
        NodeBody::Leaf(_) => false,
    }
}

/// Whether the node of a number is there and is a folder.
pub(crate) fn is_folder_at(nodes: &[(NodeId, NodeRow)], number: u64) -> bool
    requires { IsStrictlySortedBy nat_cmp (keys_of nodes.now) }
    ensures { result ≡ is_folder_node (node nodes.now number) }
{
    match find_node(nodes, number) {
        Some(row) => is_folder(row),
        None => false,
    }
}
