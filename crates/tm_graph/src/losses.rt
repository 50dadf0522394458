//! How many links each node loses, counted downwards.
ghost use Rattle.std.specs.Prelude.{◌≡◌, ℕ, ◌<◌, ◌+◌, ◌==◌, ◌≤◌, ◌^◌, count_by, IfOk, OnOk, IfSome, IfNone, Some, None};
ghost use Rattle.std.specs.Option.{unwrap_or};
ghost use Rattle.std.specs.Ordering.{nat_cmp};
ghost use Rattle.std.specs.BTreeMap.{get, IsOrdered};
ghost use Rattle.tm_graph.specs.Nodes.{IsGraph, node, times};
ghost use Rattle.tm_graph.specs.Losing.{is_spent, less};
ghost use Rattle.tm_graph.specs.Unlinking.{is_thinned, lost_all, AreLost, HaveRootLinks};

use crate::row::{children_of, lose_links};
use std::alloc::{AllocError, Global};
use std::collections::BTreeMap;
use tm_tree::{Child, NodeId, NodeRow};

/// The links that each node loses, the nodes that go, and those that are left with fewer links, the
/// greatest first.
#[derive(Drop)]
pub struct Losses {
    pub counts: BTreeMap<u64, u64>,
    pub gone: Vec<NodeId>,
    pub thinned: Vec<NodeId>,
}

/// What the nodes lose with these root links.
///
/// A child's number is below its folder's, so all that a node can lose is counted when the walk
/// comes down to it.
pub fn collect(
    alloc: Global,
    nodes: &BTreeMap<u64, NodeRow>,
    roots: &[NodeId],
) -> Result<Losses, AllocError>
    requires graph { IsGraph nodes.now.entries }
    requires linked { HaveRootLinks nodes.now.entries roots.now }
    ensures lost { IfOk result (λ losses. AreLost nodes.now.entries roots.now losses.gone.items
        losses.thinned.items) }
    ensures counts { IfOk result (λ losses. (q : ℕ) → unwrap_or (get nat_cmp losses.counts q) 0
        ≡ lost_all nodes.now.entries roots.now losses.gone.items q) }
{
    let mut counts = count_roots(alloc, roots)?;
    let mut gone = Vec::new(alloc);
    let mut thinned = Vec::new(alloc);
    // Numbers are at most 2^62.
    let mut above = u64::MAX;
    while let Some((number, count)) = last_below(&counts, above) {
        above = number;
        if let Some(row) = nodes.get(&number) {
            if is_spent(row.links, count) {
                gone.push(NodeId(number))?;
                count_all(&mut counts, children_of(row))?;
            } else if is_thinned(row.links, count) {
                thinned.push(NodeId(number))?;
            }
        }
    }
    Ok(Losses {
        counts,
        gone,
        thinned,
    })
}

/// How often each number is among the roots.
fn count_roots(alloc: Global, roots: &[NodeId]) -> Result<BTreeMap<u64, u64>, AllocError>
    requires { (q : ℕ) → count_by (λ r. r == q) roots.now ≤ 2 ^ 62 }
    ensures { IfOk result (λ counts. (q : ℕ) → unwrap_or (get nat_cmp counts q) 0
        ≡ count_by (λ r. r == q) roots.now) }
{
    let mut counts = BTreeMap::new(alloc);
    for root in roots {
        let count = counts.get(&root.0).copied().unwrap_or(0);
        counts.insert(root.0, count + 1)?;
    }
    Ok(counts)
}

/// Takes the links from the nodes, and the nodes that have none left.
pub fn apply(nodes: &mut BTreeMap<u64, NodeRow>, mut counts: BTreeMap<u64, u64>)
    ensures each { (q : ℕ) → node nodes.new.entries q
        ≡ less (unwrap_or (get nat_cmp counts q) 0) (node nodes.old.entries q) }
    ensures in_order { IsOrdered nat_cmp nodes.new }
{
    while let Some((number, count)) = counts.pop_last() {
        lose(nodes, number, count);
    }
    // This shows that the numbers are in order.
    let _ = nodes.len();
}

fn lose(nodes: &mut BTreeMap<u64, NodeRow>, number: u64, count: u64)
    ensures here { node nodes.new.entries number ≡ less count (node nodes.old.entries number) }
    ensures others { (q : ℕ) → (number ≡ q → ⊥)
        → node nodes.new.entries q ≡ node nodes.old.entries q }
{
    let spent = match nodes.get(&number) {
        Some(row) => is_spent(row.links, count),
        None => true,
    };
    if spent {
        let _ = nodes.remove(&number);
    } else if let Some(row) = nodes.get_mut(&number) {
        lose_links(row, count);
    }
}

fn is_spent(links: u64, count: u64) -> bool
    ensures { result ≡ is_spent links count }
{
    0 < count && links <= count
}

fn is_thinned(links: u64, count: u64) -> bool
    ensures { result ≡ is_thinned links count }
{
    0 < count && count < links
}

/// Counts one more for each of the entries.
pub fn count_all(counts: &mut BTreeMap<u64, u64>, children: &[Child]) -> Result<(), AllocError>
    requires { (q : ℕ) → unwrap_or (get nat_cmp counts.old q) 0 + times q children.now < 2 ^ 64 }
    ensures { OnOk result ((q : ℕ) → unwrap_or (get nat_cmp counts.new q) 0
        ≡ unwrap_or (get nat_cmp counts.old q) 0 + times q children.now) }
{
    for child in children {
        let node = child.node;
        let count = counts.get(&node.0).copied().unwrap_or(0);
        counts.insert(node.0, count + 1)?;
    }
    Ok(())
}

/// The count at the greatest number below `above`.
fn last_below(counts: &BTreeMap<u64, u64>, above: u64) -> Option<(u64, u64)>
    ensures none { IfNone result ((q : ℕ) → q < above → get nat_cmp counts.now q ≡ None) }
    ensures below { IfSome result (λ last. last.0 < above) }
    ensures found { IfSome result (λ last. get nat_cmp counts.now last.0 ≡ Some last.1) }
    ensures greatest { IfSome result (λ last. (q : ℕ) → last.0 < q → q < above
        → get nat_cmp counts.now q ≡ None) }
{
    match counts.range(..above).next_back() {
        Some((number, count)) => Some((*number, *count)),
        None => None,
    }
}
