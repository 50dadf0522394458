//! Links that nodes gain.
ghost use Rattle.std.specs.Prelude.{◌≡◌, ℕ, ◌<◌, ◌+◌, ◌≤◌, ◌^◌, OnOk, OnErr, Some, None};
ghost use Rattle.std.specs.Option.{option_map};
ghost use Rattle.std.specs.Ordering.{nat_cmp};
ghost use Rattle.std.specs.BTreeMap.{IsOrdered, insert_entry};
ghost use Rattle.tm_graph.specs.Nodes.{linked, links_of, more, new_node, node, times};

use crate::row::{gain_link, set_entries};
use std::alloc::{AllocError, Global};
use std::collections::BTreeMap;
use tm_tree::{Attrs, Child, Entries, NodeBody, NodeRow};

/// Puts a node under a number.
pub fn put(nodes: &mut BTreeMap<u64, NodeRow>, number: u64, row: NodeRow) -> Result<(), AllocError>
    ensures ok { OnOk result (nodes.new.entries
        ≡ insert_entry nat_cmp nodes.old.entries number row) }
    ensures err { OnErr result (nodes.new.entries ≡ nodes.old.entries) }
{
    nodes.insert(number, row)?;
    Ok(())
}

/// One link more.
pub fn gain(nodes: &mut BTreeMap<u64, NodeRow>, number: u64)
    requires { links_of nodes.old.entries number < 2 ^ 62 }
    ensures entries { nodes.new.entries ≡ linked nodes.old.entries number }
    ensures here { node nodes.new.entries number
        ≡ option_map (more 1) (node nodes.old.entries number) }
    ensures others { (q : ℕ) → (number ≡ q → ⊥)
        → node nodes.new.entries q ≡ node nodes.old.entries q }
    ensures in_order { IsOrdered nat_cmp nodes.new }
{
    if let Some(row) = nodes.get_mut(&number) {
        gain_link(row);
    }
    // This shows that the numbers are in order.
    let _ = nodes.len();
}

/// A link more for each of the entries.
fn gain_all(nodes: &mut BTreeMap<u64, NodeRow>, children: &[Child])
    requires { (q : ℕ) → links_of nodes.old.entries q + times q children.now ≤ 2 ^ 62 }
    ensures each { (q : ℕ) → node nodes.new.entries q
        ≡ option_map (more (times q children.now)) (node nodes.old.entries q) }
    ensures in_order { IsOrdered nat_cmp nodes.new }
{
    for child in children {
        let node = child.node;
        gain(nodes, node.0);
    }
    let _ = nodes.len();
}

/// Adds a folder, first without its entries, since only that takes memory.
pub fn add_folder_to(
    alloc: Global,
    nodes: &mut BTreeMap<u64, NodeRow>,
    number: u64,
    label: u64,
    attrs: Attrs,
    entries: Entries,
) -> Result<(), AllocError>
    requires new { node nodes.old.entries number ≡ None }
    requires not_itself { times number entries ≡ 0 }
    requires children { (q : ℕ) → links_of nodes.old.entries q + times q entries ≤ 2 ^ 62 }
    ensures here { OnOk result (node nodes.new.entries number
        ≡ Some (new_node label (NodeBody.Folder attrs entries))) }
    ensures others { OnOk result ((q : ℕ) → (number ≡ q → ⊥) → node nodes.new.entries q
        ≡ option_map (more (times q entries)) (node nodes.old.entries q)) }
    ensures in_order { OnOk result (IsOrdered nat_cmp nodes.new) }
    ensures err { OnErr result (nodes.new.entries ≡ nodes.old.entries) }
{
    let links = 0;
    let body = NodeBody::Folder {
        attrs,
        entries: Entries::of(Vec::new(alloc)),
    };
    nodes.insert(number, NodeRow { label, links, body })?;
    gain_all(nodes, entries.as_slice());
    if let Some(row) = nodes.get_mut(&number) {
        set_entries(row, entries);
    }
    let _ = nodes.len();
    Ok(())
}
