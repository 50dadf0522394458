//! Nodes that come together.
ghost use Rattle.std.specs.Prelude.{◌≡◌, ℕ, ◌<◌, ◌+◌, ◌≤◌, ◌^◌, ◌++◌, IfOk, OnOk, OnErr, length, take};
ghost use Rattle.std.specs.Option.{option_map, unwrap_or};
ghost use Rattle.std.specs.Ordering.{nat_cmp};
ghost use Rattle.std.specs.List.Sorted.{IsStrictlySortedBy};
ghost use Rattle.std.specs.Map.{keys_of};
ghost use Rattle.std.specs.BTreeMap.{IsOrdered, get, insert_entry};
ghost use Rattle.tm_graph.specs.Nodes.{IsGraph, links_of, more, node, with_links};
ghost use Rattle.tm_graph.specs.Growing.{MayGrow, gain, grown, unlinked};

use crate::gains::put;
use crate::losses::count_all;
use crate::row::{children_of, gain_links};
use std::alloc::{AllocError, Global};
use std::collections::BTreeMap;
use tm_tree::{NodeId, NodeRow};

/// Adds nodes after all others, and a root link; each entry is a link more of its node. Where memory
/// is refused, the nodes stay as they were.
pub fn grow(
    alloc: Global,
    nodes: &mut BTreeMap<u64, NodeRow>,
    new: Vec<(NodeId, NodeRow)>,
    root: u64,
) -> Result<(), AllocError>
    requires graph { IsGraph nodes.old.entries }
    requires may { MayGrow nodes.old.entries new.items root }
    ensures ok { OnOk result (nodes.new.entries ≡ grown nodes.old.entries new.items root) }
    ensures err { OnErr result (nodes.new.entries ≡ nodes.old.entries) }
{
    let gains = count_gains(alloc, new.as_slice(), root)?;
    put_all(nodes, new)?;
    gain_counted(nodes, gains);
    Ok(())
}

/// The links that nodes gain by these nodes' entries and a root link.
fn count_gains(
    alloc: Global,
    new: &[(NodeId, NodeRow)],
    root: u64,
) -> Result<BTreeMap<u64, u64>, AllocError>
    requires { (q : ℕ) → gain new.now root q ≤ 2 ^ 62 }
    ensures { IfOk result (λ gains. (q : ℕ) → unwrap_or (get nat_cmp gains q) 0
        ≡ gain new.now root q) }
{
    let mut gains = BTreeMap::new(alloc);
    gains.insert(root, 1)?;
    for (_, row) in new {
        count_all(&mut gains, children_of(row))?;
    }
    Ok(gains)
}

/// Puts nodes after all others, without links. Where memory is refused, it takes them off again.
fn put_all(
    nodes: &mut BTreeMap<u64, NodeRow>,
    new: Vec<(NodeId, NodeRow)>,
) -> Result<(), AllocError>
    requires { IsStrictlySortedBy nat_cmp (keys_of (nodes.old.entries ++ new.items)) }
    ensures ok { OnOk result (nodes.new.entries ≡ nodes.old.entries ++ unlinked new.items) }
    ensures err { OnErr result (nodes.new.entries ≡ nodes.old.entries) }
{
    let count = nodes.len();
    for (number, row) in new {
        if let Err(error) = put_unlinked(nodes, number.0, row) {
            cut_to(nodes, count);
            return Err(error);
        }
    }
    Ok(())
}

fn put_unlinked(
    nodes: &mut BTreeMap<u64, NodeRow>,
    number: u64,
    mut row: NodeRow,
) -> Result<(), AllocError>
    ensures ok { OnOk result (nodes.new.entries
        ≡ insert_entry nat_cmp nodes.old.entries number (with_links row 0)) }
    ensures err { OnErr result (nodes.new.entries ≡ nodes.old.entries) }
{
    row.links = 0;
    put(nodes, number, row)
}

/// Takes off all but the first so many nodes.
fn cut_to(nodes: &mut BTreeMap<u64, NodeRow>, count: usize)
    requires { count ≤ length nodes.old.entries }
    ensures { nodes.new.entries ≡ take count nodes.old.entries }
{
    while nodes.len() > count {
        let _ = nodes.pop_last();
    }
}

/// So many links more for each node.
fn gain_counted(nodes: &mut BTreeMap<u64, NodeRow>, mut gains: BTreeMap<u64, u64>)
    requires { (q : ℕ) → links_of nodes.old.entries q + unwrap_or (get nat_cmp gains q) 0 ≤ 2 ^ 62 }
    ensures each { (q : ℕ) → node nodes.new.entries q
        ≡ option_map (more (unwrap_or (get nat_cmp gains q) 0)) (node nodes.old.entries q) }
    ensures in_order { IsOrdered nat_cmp nodes.new }
{
    while let Some((number, count)) = gains.pop_last() {
        gain_by(nodes, number, count);
    }
    // This shows that the numbers are in order.
    let _ = nodes.len();
}

fn gain_by(nodes: &mut BTreeMap<u64, NodeRow>, number: u64, count: u64)
    requires { links_of nodes.old.entries number + count ≤ 2 ^ 62 }
    ensures here { node nodes.new.entries number
        ≡ option_map (more count) (node nodes.old.entries number) }
    ensures others { (q : ℕ) → (number ≡ q → ⊥)
        → node nodes.new.entries q ≡ node nodes.old.entries q }
{
    if let Some(row) = nodes.get_mut(&number) {
        gain_links(row, count);
    }
}
