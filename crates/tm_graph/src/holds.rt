//! Whether a new folder may have its entries.
ghost use Rattle.std.specs.Prelude.{◌≡◌, ◌↔◌, ℕ, ◌<◌, ◌+◌, ◌≤◌, ◌^◌, IfOk, IsTrue};
ghost use Rattle.std.specs.Option.{unwrap_or};
ghost use Rattle.std.specs.List.{list_all};
ghost use Rattle.std.specs.Ordering.{nat_cmp};
ghost use Rattle.std.specs.BTreeMap.{get};
ghost use Rattle.tm_graph.specs.Nodes.{MayHold, NamesRise, has_room, node};

use crate::losses::count_all;
use std::alloc::{AllocError, Global};
use std::collections::BTreeMap;
use tm_tree::{Child, NodeRow};

const MOST_LINKS: u64 = 4_611_686_018_427_387_904;

/// Whether names rise, and each entry's node is there and may have so many links more.
pub fn may_hold(
    alloc: Global,
    nodes: &BTreeMap<u64, NodeRow>,
    children: &[Child],
) -> Result<bool, AllocError>
    ensures { IfOk result (λ may. IsTrue may ↔ MayHold nodes.now.entries children.now) }
{
    if !names_rise(children) {
        return Ok(false);
    }
    let mut counts = BTreeMap::new(alloc);
    count_all(&mut counts, children)?;
    Ok(all_have_room(nodes, &counts, children))
}

fn names_rise(children: &[Child]) -> bool
    ensures { IsTrue result ↔ NamesRise children.now }
{
    children.is_sorted_by(|a, b| a.name < b.name)
}

fn all_have_room(
    nodes: &BTreeMap<u64, NodeRow>,
    counts: &BTreeMap<u64, u64>,
    children: &[Child],
) -> bool
    ensures { result ≡ list_all (λ child. has_room (unwrap_or (get nat_cmp counts.now child.node) 0)
        (node nodes.now.entries child.node)) children.now }
{
    for child in children {
        let node = child.node;
        let count = counts.get(&node.0).copied().unwrap_or(0);
        if !has_room(nodes, node.0, count) {
            return false;
        }
    }
    true
}

fn has_room(nodes: &BTreeMap<u64, NodeRow>, number: u64, count: u64) -> bool
    ensures { result ≡ has_room count (node nodes.now.entries number) }
{
    match nodes.get(&number) {
        Some(row) => count <= MOST_LINKS && row.links <= MOST_LINKS - count,
        None => false,
    }
}
