//! How many links of a node are root links.
ghost use Rattle.std.specs.Prelude.{◌≡◌, ℕ, ◌<◌, ◌+◌, ◌≤◌, ◌^◌};
ghost use Rattle.tm_graph.specs.Nodes.{IsGraph, links_of, named, times};

use crate::row::children_of;
use std::collections::BTreeMap;
use tm_tree::{Child, NodeRow};

/// The links of a node, 0 where it isn't there.
pub fn links_of(nodes: &BTreeMap<u64, NodeRow>, number: u64) -> u64
    ensures { result ≡ links_of nodes.now.entries number }
{
    match nodes.get(&number) {
        Some(row) => row.links,
        None => 0,
    }
}

/// How many entries of all nodes name a node.
pub fn named(nodes: &BTreeMap<u64, NodeRow>, number: u64) -> u64
    requires { IsGraph nodes.now.entries }
    ensures { result ≡ named nodes.now.entries number }
{
    let mut named = 0;
    for row in nodes.values() {
        named += times(children_of(row), number);
    }
    named
}

fn times(children: &[Child], number: u64) -> u64
    ensures { result ≡ times number children.now }
{
    children
        .iter()
        .filter(|child| child.node.0 == number)
        .count() as u64
}
