//! The rules of nodes.
ghost use Rattle.std.specs.Prelude.{◌≡◌, ◌↔◌, ◌<◌, ◌≤◌, ◌^◌, ◌==◌, ◌+◌, ◌&&◌, ◌||◌, ℕ, List, Some, None, IsTrue, IfOk, IfSome, IfNone, is_some, nat_lt, slice_get, length, count_by};
ghost use Rattle.std.specs.List.{list_all};
ghost use Rattle.std.specs.List.Sorted.{IsStrictlySortedBy};
ghost use Rattle.std.specs.Option.{unwrap_or};
ghost use Rattle.std.specs.Ordering.{nat_cmp};
ghost use Rattle.std.specs.Map.{keys_of};
ghost use Rattle.std.specs.BTreeMap.{get};
ghost use Rattle.std.specs.BTreeSet.{contains};
ghost use Rattle.tm_graph.specs.Nodes.{node, named};
ghost use Rattle.tm_tree.specs.declared.node.NodeRow.{NodeRow};
ghost use Rattle.tm_store_records.specs.Found.{roots_of};
ghost use Rattle.tm_store_records.specs.Rules.{IsGoodNode};
ghost use Rattle.tm_store_records.specs.Located.{AllRise};
ghost use Rattle.tm_store_records.specs.Drafts.{IsGoodAlone, IsTaken, IsFirstBadNode, pair_cmp};

use crate::links::count_links;
use crate::locations::{Location, find_locations};
use crate::lookups::find_node;
use crate::snapshot::Snapshot;
use std::alloc::{AllocError, Global};
use std::collections::{BTreeMap, BTreeSet};
use tm_base::limits::MAX_NODES;
use tm_graph::children_of;
use tm_tree::{Child, NodeId, NodeRow};

/// Whether all these entries name nodes below a number.
fn are_lower(nodes: &[(NodeId, NodeRow)], number: u64, children: &[Child]) -> bool
    requires { IsStrictlySortedBy nat_cmp (keys_of nodes.now) }
    ensures { result ≡ list_all (λ child. nat_lt child.node number && is_some (node nodes.now child.node)) children.now }
{
    for child in children {
        let node = child.node;
        if number <= node.0 || find_node(nodes, node.0).is_none() {
            return false;
        }
    }
    true
}

/// Whether a node keeps the rules but for those of where it stands.
fn is_good_alone(
    nodes: &[(NodeId, NodeRow)],
    counts: &BTreeMap<u64, u64>,
    number: u64,
    place: usize,
    entry: &(NodeId, NodeRow),
) -> bool
    requires sorted { IsStrictlySortedBy nat_cmp (keys_of nodes.now) }
    requires number { number ≤ 2 ^ 40 }
    ensures { (roots : List ℕ) → ((q : ℕ) → unwrap_or (get nat_cmp counts.now q) 0 ≡ named nodes.now q + count_by (λ r. r == q) roots) → IsTrue result ↔ IsGoodAlone nodes.now roots number place entry.now.0 entry.now.1 }
{
    let id = entry.0;
    let row = &entry.1;
    let links = counts.get(&id.0).copied().unwrap_or(0);
    (place as u64) < MAX_NODES
        && 1 <= id.0
        && id.0 <= MAX_NODES * number.saturating_sub(1)
        && 1 <= row.label
        && row.label < number
        && 1 <= row.links
        && row.links == links
        && are_lower(nodes, id.0, children_of(row))
}

/// Notes that a node with this label stands at this location, and tells whether it stands at one path at
/// most, and is the first there with its label.
fn take_location(
    seen: &mut BTreeSet<(u64, u64)>,
    label: u64,
    location: Option<Location>,
) -> Result<bool, AllocError>
    ensures { IfOk result (IsTaken (λ q. contains pair_cmp seen.old q) (λ q. contains pair_cmp seen.new q) label location) }
{
    match location {
        None => Ok(true),
        Some(Location::Misplaced) => Ok(false),
        Some(Location::At { path, .. }) => Ok(seen.insert((label, path))?),
    }
}

/// The place of the first node that breaks a rule, if one does.
pub(crate) fn first_bad_node(
    alloc: Global,
    nodes: &[(NodeId, NodeRow)],
    snapshots: &[Snapshot],
    number: u64,
) -> Result<Option<usize>, AllocError>
    requires sorted { IsStrictlySortedBy nat_cmp (keys_of nodes.now) }
    requires rise { AllRise nodes.now }
    requires number { number ≤ 2 ^ 40 }
    ensures none { IfOk result (λ place. IfNone place ((i : ℕ) (e : ℕ × NodeRow) → slice_get nodes.now i ≡ Some e → IsGoodNode nodes.now (roots_of snapshots.now) number i e.0 e.1)) }
    ensures some { IfOk result (λ place. IfSome place (λ i. IsFirstBadNode nodes.now (roots_of snapshots.now) number i)) }
{
    let counts = count_links(alloc, nodes, snapshots)?;
    let locations = find_locations(alloc, nodes, snapshots)?;
    let mut seen = BTreeSet::new(alloc);
    for (place, entry) in nodes.iter().enumerate() {
        if !is_good_alone(nodes, &counts, number, place, entry) {
            return Ok(Some(place));
        }
        let id = entry.0;
        let label = entry.1.label;
        if !take_location(&mut seen, label, locations.locations.get(&id.0).copied())? {
            return Ok(Some(place));
        }
    }
    Ok(None)
}
