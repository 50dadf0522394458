//! The records that a finished backup puts.
ghost use Rattle.std.specs.Prelude.{◌≡◌, ◌<◌, ◌≤◌, ◌+◌, ◌++◌, ◌^◌, ℕ, [], true, Some, is_some, IfOk, OnOk};
ghost use Rattle.std.specs.List.{All, cons_option};
ghost use Rattle.tm_graph.specs.Nodes.{entries_of, node, times};
ghost use Rattle.tm_nodes.specs.Nodes.{IsNodeRow};
ghost use Rattle.tm_tree.specs.declared.node.NodeRow.{NodeRow as Row};
ghost use Rattle.tm_snapshot.specs.Puts.{all_puts, bare_put, file_puts, body_is_file, node_put, old_put, old_puts, puts_at, root_puts, snapshot_put, meta_at, tree_puts};

use std::alloc::Global;
use tm_codec::Memory;
use tm_graph::{Graph, NodeBlobs, children_of};
use tm_nodes::{SnapshotRow, node_meta, snapshot_meta};
use tm_records::{Body, Put};
use tm_store_records::{NODE_KEY, SNAPSHOT_KEY, Snapshot};
use tm_tree::{Child, LeafRow, NodeBody, NodeId};
use tm_world::Bytes;

fn record_of(alloc: Global, snapshot: &Snapshot) -> Result<Put, Memory>
    requires { snapshot.now.number < 2 ^ 62 }
    ensures { IfOk result (λ put. put ≡ snapshot_put snapshot.now) }
{
    let row = SnapshotRow {
        date: snapshot.date,
        id: snapshot.id,
        mark: snapshot.mark,
        volume: snapshot.volume.clone()?,
        root: snapshot.root,
    };
    Ok(Put {
        key: SNAPSHOT_KEY + snapshot.number,
        meta: snapshot_meta(alloc, &row)?,
        body: Body::Empty,
    })
}

/// The meta of a node's record.
fn meta_of(alloc: Global, graph: &Graph, number: NodeId) -> Result<Bytes, Memory>
    requires there { is_some (node graph.now number) ≡ true }
    requires rules { (q : ℕ) (row : Row) → node graph.now q ≡ Some row → IsNodeRow row }
    ensures meta { IfOk result (λ meta. meta ≡ meta_at graph.now number) }
    ensures low { number ≤ 2 ^ 62 }
{
    match graph.node(number) {
        Some(row) => node_meta(alloc, row),
        None => unreachable!(),
    }
}

/// The record of a node, with these data.
fn record_at(alloc: Global, graph: &Graph, number: NodeId, body: Body) -> Result<Put, Memory>
    requires there { is_some (node graph.now number) ≡ true }
    requires rules { (q : ℕ) (row : Row) → node graph.now q ≡ Some row → IsNodeRow row }
    ensures { IfOk result (λ put. put ≡ node_put graph.now number body) }
{
    let meta = meta_of(alloc, graph, number)?;
    Ok(Put {
        key: NODE_KEY + number.0,
        meta,
        body,
    })
}

/// The record of a node that was there before, with the data that it has.
fn put_if_old(
    alloc: Global,
    puts: &mut Vec<Put>,
    graph: &Graph,
    last: u64,
    number: NodeId,
) -> Result<(), Memory>
    requires there { is_some (node graph.now number) ≡ true }
    requires rules { (q : ℕ) (row : Row) → node graph.now q ≡ Some row → IsNodeRow row }
    ensures { OnOk result (puts.new.items ≡ puts.old.items ++ root_puts graph.now last number) }
{
    if number.0 > last {
        return Ok(());
    }
    puts.push(record_at(alloc, graph, number, Body::Kept)?)?;
    Ok(())
}

/// The records of those of a folder's entries that were there before, with the data that they have.
fn put_old(
    alloc: Global,
    puts: &mut Vec<Put>,
    graph: &Graph,
    last: u64,
    children: &[Child],
) -> Result<(), Memory>
    requires there { (q : ℕ) → 0 < times q children.now → is_some (node graph.now q) ≡ true }
    requires rules { (q : ℕ) (row : Row) → node graph.now q ≡ Some row → IsNodeRow row }
    ensures { OnOk result (puts.new.items ≡ puts.old.items ++ old_puts graph.now last children.now) }
{
    for child in children {
        put_if_old(alloc, puts, graph, last, child.node)?;
    }
    Ok(())
}

/// The record of a new node that isn't a file.
fn put_bare(
    alloc: Global,
    puts: &mut Vec<Put>,
    graph: &Graph,
    number: NodeId,
    body: &NodeBody,
) -> Result<(), Memory>
    requires there { is_some (node graph.now number) ≡ true }
    requires rules { (q : ℕ) (row : Row) → node graph.now q ≡ Some row → IsNodeRow row }
    ensures { OnOk result (puts.new.items ≡ puts.old.items ++ bare_put graph.now number body.now) }
{
    if body_is_file(body) {
        return Ok(());
    }
    puts.push(record_at(alloc, graph, number, Body::Empty)?)?;
    Ok(())
}

fn body_is_file(body: &NodeBody) -> bool
    ensures { result ≡ body_is_file body.now }
{
    match body {
        NodeBody::Leaf(LeafRow::File { .. }) => true,
        NodeBody::Leaf(LeafRow::Link { .. }) => false,
        NodeBody::Folder { .. } => false,
    }
}

/// The records of a new node, unless it is a file, and of the old ones that it names.
fn put_node(
    alloc: Global,
    puts: &mut Vec<Put>,
    graph: &Graph,
    last: u64,
    number: NodeId,
) -> Result<(), Memory>
    requires there { (n q : ℕ) (row : Row) → node graph.now n ≡ Some row → 0 < times q (entries_of row) → is_some (node graph.now q) ≡ true }
    requires rules { (q : ℕ) (row : Row) → node graph.now q ≡ Some row → IsNodeRow row }
    ensures { OnOk result (puts.new.items ≡ puts.old.items ++ puts_at graph.now last number (node graph.now number)) }
{
    let Some(row) = graph.node(number) else {
        return Ok(());
    };
    put_bare(alloc, puts, graph, number, &row.body)?;
    put_old(alloc, puts, graph, last, children_of(row))
}

/// The records of new nodes but for the files, and those of the old ones that they name.
fn put_tree(
    alloc: Global,
    puts: &mut Vec<Put>,
    graph: &Graph,
    last: u64,
    count: u64,
) -> Result<(), Memory>
    requires low { last + count < 2 ^ 63 }
    requires there { (n q : ℕ) (row : Row) → node graph.now n ≡ Some row → 0 < times q (entries_of row) → is_some (node graph.now q) ≡ true }
    requires rules { (q : ℕ) (row : Row) → node graph.now q ≡ Some row → IsNodeRow row }
    ensures { OnOk result (puts.new.items ≡ puts.old.items ++ tree_puts graph.now last count) }
{
    for place in 0..count {
        put_node(alloc, puts, graph, last, NodeId(last + 1 + place))?;
    }
    Ok(())
}

/// The records of new files, each with its blob.
fn put_files(
    alloc: Global,
    puts: &mut Vec<Put>,
    graph: &Graph,
    blobs: NodeBlobs,
) -> Result<(), Memory>
    requires there { All (λ b. is_some (node graph.now b.0) ≡ true) blobs }
    requires rules { (q : ℕ) (row : Row) → node graph.now q ≡ Some row → IsNodeRow row }
    ensures { OnOk result (puts.new.items ≡ puts.old.items ++ file_puts graph.now blobs) }
{
    for (number, blob) in blobs.into_list() {
        puts.push(record_at(alloc, graph, number, Body::New(blob))?)?;
    }
    Ok(())
}

/// The records that a finished backup puts: those of its snapshot, of its nodes, which are so many
/// above the last one before, and of the old nodes that the snapshot and they name.
pub fn all_records(
    alloc: Global,
    graph: &Graph,
    last: u64,
    count: u64,
    blobs: NodeBlobs,
    snapshot: &Snapshot,
) -> Result<Vec<Put>, Memory>
    requires number { snapshot.now.number < 2 ^ 62 }
    requires root { is_some (node graph.now snapshot.now.root) ≡ true }
    requires low { last + count < 2 ^ 63 }
    requires there { (n q : ℕ) (row : Row) → node graph.now n ≡ Some row → 0 < times q (entries_of row) → is_some (node graph.now q) ≡ true }
    requires files { All (λ b. is_some (node graph.now b.0) ≡ true) blobs }
    requires rules { (q : ℕ) (row : Row) → node graph.now q ≡ Some row → IsNodeRow row }
    ensures { IfOk result (λ puts. puts.items ≡ all_puts graph.now last count blobs snapshot.now) }
{
    let mut puts = Vec::new(alloc);
    puts.push(record_of(alloc, snapshot)?)?;
    put_if_old(alloc, &mut puts, graph, last, snapshot.root)?;
    put_tree(alloc, &mut puts, graph, last, count)?;
    put_files(alloc, &mut puts, graph, blobs)?;
    Ok(puts)
}
