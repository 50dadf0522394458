//! How often nodes are named.
ghost use Rattle.std.specs.Prelude.{◌≡◌, ◌+◌, ◌==◌, ℕ, OnOk, IfOk, count_by};
ghost use Rattle.std.specs.Option.{unwrap_or};
ghost use Rattle.std.specs.Ordering.{nat_cmp};
ghost use Rattle.std.specs.BTreeMap.{get};
ghost use Rattle.tm_graph.specs.Nodes.{named, times};
ghost use Rattle.tm_store_records.specs.Found.{roots_of};

use crate::snapshot::Snapshot;
use std::alloc::{AllocError, Global};
use std::collections::BTreeMap;
use tm_graph::children_of;
use tm_tree::{Child, NodeId, NodeRow};

/// Counts each of these entries. A count beyond 64 bits would need more memory than there is.
fn count_entries(counts: &mut BTreeMap<u64, u64>, children: &[Child]) -> Result<(), AllocError>
    ensures { OnOk result ((q : ℕ) → unwrap_or (get nat_cmp counts.new q) 0 ≡ unwrap_or (get nat_cmp counts.old q) 0 + times q children.now) }
{
    for child in children {
        let node = child.node;
        let count = counts.get(&node.0).copied().unwrap_or(0);
        counts.insert(node.0, count.checked_add(1).ok_or(AllocError)?)?;
    }
    Ok(())
}

/// Counts the entries of all these nodes.
fn count_nodes(
    counts: &mut BTreeMap<u64, u64>,
    nodes: &[(NodeId, NodeRow)],
) -> Result<(), AllocError>
    ensures { OnOk result ((q : ℕ) → unwrap_or (get nat_cmp counts.new q) 0 ≡ unwrap_or (get nat_cmp counts.old q) 0 + named nodes.now q) }
{
    for (_number, row) in nodes {
        count_entries(counts, children_of(row))?;
    }
    Ok(())
}

/// Counts the roots of these snapshots.
fn count_roots(counts: &mut BTreeMap<u64, u64>, snapshots: &[Snapshot]) -> Result<(), AllocError>
    ensures { OnOk result ((q : ℕ) → unwrap_or (get nat_cmp counts.new q) 0 ≡ unwrap_or (get nat_cmp counts.old q) 0 + count_by (λ r. r == q) (roots_of snapshots.now)) }
{
    for snapshot in snapshots {
        let root = snapshot.root;
        let count = counts.get(&root.0).copied().unwrap_or(0);
        counts.insert(root.0, count.checked_add(1).ok_or(AllocError)?)?;
    }
    Ok(())
}

/// How many entries of nodes and roots of snapshots name each number.
pub(crate) fn count_links(
    alloc: Global,
    nodes: &[(NodeId, NodeRow)],
    snapshots: &[Snapshot],
) -> Result<BTreeMap<u64, u64>, AllocError>
    ensures { IfOk result (λ counts. (q : ℕ) → unwrap_or (get nat_cmp counts q) 0 ≡ named nodes.now q + count_by (λ r. r == q) (roots_of snapshots.now)) }
{
    let mut counts = BTreeMap::new(alloc);
    count_nodes(&mut counts, nodes)?;
    count_roots(&mut counts, snapshots)?;
    Ok(counts)
}
