//! The record of a node of a store (`docs/RECORDS.md`, "Nodes").
ghost use Rattle.std.specs.Prelude.{◌≡◌, ◌≢◌, ◌++◌, ℕ, Some, IfOk, OnOk, flat_map, option_map};
ghost use Rattle.tm_base.specs.Paths.{name_cmp};
ghost use Rattle.tm_tree.specs.declared.attrs.Attrs.{Attrs};
ghost use Rattle.tm_tree.specs.declared.node.NodeRow.{NodeRow};
ghost use Rattle.tm_nodes.specs.Answers.{IfBad, Tells};
ghost use Rattle.tm_nodes.specs.Nodes.{node_kind, node_attrs, node_tail, child_text, entries_text, node_text, AreEntries, IsNodeTail, IsNodeRow, IsNode};
ghost use Rattle.tm_nodes.specs.Readers.{Gives, many};
ghost use Rattle.tm_nodes.specs.Reading.{is_after, last_of, child_at, next_child_at, entries_at, node_body_at, node_at};
ghost use Rattle.tm_nodes.specs.Records.{node_of};
ghost use Rattle.tm_nodes.specs.Spelled.{IsUnspelled};

use crate::attrs::{put_attrs, take_attrs};
use crate::error::{NodeError, ReadError, alone};
use crate::field::{put_name, take_name, take_u32, take_u64};
use crate::kind::{Kind, put_kind, take_kind};
use crate::leaf::{attrs_of_leaf, kind_of_leaf, put_leaf_tail, take_file, take_link};
use std::alloc::Global;
use tm_base::Name;
use tm_codec::{Memory, put_u32, put_u64};
use tm_tree::{Attrs, Child, Entries, NodeBody, NodeId, NodeRow};
use tm_world::Bytes;

fn kind_of_body(body: &NodeBody) -> Kind
    ensures { result ≡ node_kind body.now }
{
    match body {
        NodeBody::Folder { .. } => Kind::Folder,
        NodeBody::Leaf(leaf) => kind_of_leaf(leaf),
    }
}

fn attrs_of_body(body: &NodeBody) -> &Attrs
    ensures { result.now ≡ node_attrs body.now }
{
    match body {
        NodeBody::Folder { attrs, .. } => attrs,
        NodeBody::Leaf(leaf) => attrs_of_leaf(leaf),
    }
}

#[tactic(auto, unfolding(crate::specs::Nodes::child_text))]
fn put_child(out: &mut Vec<u8>, child: &Child) -> Result<(), Memory>
    ensures { OnOk result (out.new.items ≡ out.old.items ++ child_text child.now) }
{
    put_name(out, &child.name)?;
    put_u64(out, child.node.0)
}

fn put_each_child(out: &mut Vec<u8>, entries: &[Child]) -> Result<(), Memory>
    ensures { OnOk result (out.new.items ≡ out.old.items ++ flat_map child_text entries.now) }
{
    for child in entries {
        put_child(out, child)?;
    }
    Ok(())
}

#[tactic(auto, unfolding(crate::specs::Nodes::entries_text))]
fn put_entries(out: &mut Vec<u8>, entries: &Entries) -> Result<(), Memory>
    requires { AreEntries entries.now }
    ensures { OnOk result (out.new.items ≡ out.old.items ++ entries_text entries.now) }
{
    let entries = entries.as_slice();
    put_u32(out, entries.len() as u32)?;
    put_each_child(out, entries)
}

fn put_tail(out: &mut Vec<u8>, body: &NodeBody) -> Result<(), Memory>
    requires { IsNodeTail body.now }
    ensures { OnOk result (out.new.items ≡ out.old.items ++ node_tail body.now) }
{
    match body {
        NodeBody::Folder { entries, .. } => put_entries(out, entries),
        NodeBody::Leaf(leaf) => put_leaf_tail(out, leaf),
    }
}

/// The meta of a node's record; only want of memory can refuse it.
#[tactic(auto, unfolding(crate::specs::Nodes::node_text))]
pub fn node_meta(alloc: Global, row: &NodeRow) -> Result<Bytes, Memory>
    requires { IsNodeRow row.now }
    ensures { IfOk result (λ meta. meta ≡ node_text row.now) }
{
    let mut out = Vec::new(alloc);
    put_kind(&mut out, kind_of_body(&row.body))?;
    put_u64(&mut out, row.label)?;
    put_u64(&mut out, row.links)?;
    put_attrs(&mut out, attrs_of_body(&row.body))?;
    put_tail(&mut out, &row.body)?;
    Ok(Bytes::of(out))
}

/// The entry in front.
#[tactic(auto, unfolding(crate::specs::Reading::child_at, crate::specs::Readers::and_then, crate::specs::Readers::done))]
fn take_child(alloc: Global, bytes: &[u8]) -> Result<(Child, &[u8]), ReadError>
    ensures { Gives (λ x. (x.0, x.1.now)) result (child_at bytes.now) }
{
    let (name, rest) = take_name(alloc, bytes)?;
    let (number, rest) = take_u64(rest)?;
    let child = Child {
        name,
        node: NodeId(number),
    };
    Ok((child, rest))
}

/// Whether a name is above that of the last entry there.
fn is_above(entries: &[Child], name: &Name) -> bool
    ensures { result ≡ is_after name_cmp (option_map (λ x. x.name) (last_of entries.now)) name.now }
{
    match entries.last() {
        None => true,
        Some(last) => &last.name < name,
    }
}

/// One more entry, its name above that of the last one there.
#[tactic(auto, unfolding(crate::specs::Reading::next_child_at, crate::specs::Readers::and_then, crate::specs::Readers::only_if))]
fn take_next_child<'a>(
    alloc: Global,
    entries: &[Child],
    bytes: &'a [u8],
) -> Result<(Child, &'a [u8]), ReadError>
    ensures { Gives (λ x. (x.0, x.1.now)) result (next_child_at (last_of entries.now) bytes.now) }
{
    let (child, rest) = take_child(alloc, bytes)?;
    if !is_above(entries, &child.name) {
        return Err(ReadError::Broken);
    }
    Ok((child, rest))
}

/// So many entries, by rising name.
fn take_each_child(
    alloc: Global,
    count: u32,
    bytes: &[u8],
) -> Result<(Vec<Child>, &[u8]), ReadError>
    ensures { Gives (λ x. (x.0.items, x.1.now)) result (many next_child_at count None bytes.now) }
{
    let mut entries = Vec::new(alloc);
    let mut rest = bytes;
    for _ in 0..count {
        let (child, after) = take_next_child(alloc, &entries, rest)?;
        entries.push(child)?;
        rest = after;
    }
    Ok((entries, rest))
}

/// The entries after their number.
#[tactic(auto, unfolding(crate::specs::Reading::entries_at, crate::specs::Readers::and_then))]
fn take_entries(alloc: Global, bytes: &[u8]) -> Result<(Entries, &[u8]), ReadError>
    ensures { Gives (λ x. (x.0, x.1.now)) result (entries_at bytes.now) }
{
    let (count, rest) = take_u32(bytes)?;
    let (entries, rest) = take_each_child(alloc, count, rest)?;
    Ok((Entries::of(entries), rest))
}

/// What follows the attributes.
#[tactic(auto, unfolding(crate::specs::Reading::node_body_at, crate::specs::Readers::and_then, crate::specs::Readers::done))]
fn take_body(
    alloc: Global,
    length: u64,
    attrs: Attrs,
    kind: Kind,
    bytes: &[u8],
) -> Result<(NodeBody, &[u8]), ReadError>
    ensures { Gives (λ x. (x.0, x.1.now)) result (node_body_at length attrs kind bytes.now) }
{
    match kind {
        Kind::Folder => {
            let (entries, rest) = take_entries(alloc, bytes)?;
            Ok((NodeBody::Folder { attrs, entries }, rest))
        }
        Kind::File => {
            let (leaf, rest) = take_file(attrs, length, bytes)?;
            Ok((NodeBody::Leaf(leaf), rest))
        }
        Kind::Link => {
            let (leaf, rest) = take_link(alloc, attrs, bytes)?;
            Ok((NodeBody::Leaf(leaf), rest))
        }
    }
}

/// The node in front.
#[tactic(auto, unfolding(crate::specs::Reading::node_at, crate::specs::Readers::and_then, crate::specs::Readers::done))]
fn take_node(alloc: Global, length: u64, bytes: &[u8]) -> Result<(NodeRow, &[u8]), ReadError>
    ensures { Gives (λ x. (x.0, x.1.now)) result (node_at length bytes.now) }
{
    let (kind, rest) = take_kind(bytes)?;
    let (label, rest) = take_u64(rest)?;
    let (links, rest) = take_u64(rest)?;
    let (attrs, rest) = take_attrs(alloc, rest)?;
    let (body, rest) = take_body(alloc, length, attrs, kind, rest)?;
    let row = NodeRow { label, links, body };
    Ok((row, rest))
}

/// The node whose record under `key` has this meta and `length` bytes of data;
/// [`NodeError::BadNode`] with `key` exactly where the meta is no node's. The length is a file's
/// own; for other kinds it isn't read.
pub fn read_node(alloc: Global, key: u64, meta: &[u8], length: u64) -> Result<NodeRow, NodeError>
    ensures row { IfOk result (IsNode meta.now length) }
    ensures bad { IfBad result (λ k. (k ≡ key) × IsUnspelled node_text IsNodeRow meta.now) }
    ensures told { Tells key result (node_of meta.now length) }
{
    alone(key, take_node(alloc, length, meta))
}
