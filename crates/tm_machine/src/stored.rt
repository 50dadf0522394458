//! The data lines of items in snapshots.
ghost use Rattle.std.specs.Prelude.{◌≡◌, ◌≤◌, ◌++◌, ◌∷◌, [], ℕ, true, is_some, IfOk, IfSome, OnOk, Err, length};
ghost use Rattle.std.specs.List.{cons_option};
ghost use Rattle.std.specs.Option.{option_copied};
ghost use Rattle.tm_base.specs.declared.refused.Refused.{Refused};
ghost use Rattle.tm_graph.specs.Nodes.{node};
ghost use Rattle.tm_identity.specs.Stored.{node_length};
ghost use Rattle.tm_store_records.specs.Held.{IsWhole, files_of};
ghost use Rattle.tm_world.specs.Faults.{NeverLess, Blames};
ghost use Rattle.tm_world.specs.Log.{now, Steps};
ghost use Rattle.tm_world.specs.Outside.{disk};
ghost use Rattle.tm_world.specs.declared.world.Side.TheVariants.{Store as StoreSide};
ghost use Rattle.tm_machine.specs.Queries.{attributes, leaf_in, child_line, child_lines, extra_rows, node_attributes, node_line, node_lines};

use std::alloc::{AllocError, Global};
use tm_base::{LineFault, Path, Side};
use tm_graph::{Graph, children_of};
use tm_reply::{Attributes, ListedName, ReplyRow, ReplyRows};
use tm_store::{Store, held_files};
use tm_tree::{Attrs, Child, LeafRow, NodeBody, NodeId, NodeRow};
use tm_world::{Bytes, Failed, World};

pub(crate) fn attributes(attrs: &Attrs) -> Attributes
    ensures { result ≡ attributes attrs.now }
{
    Attributes {
        mode: attrs.mode,
        uid: attrs.uid,
        gid: attrs.gid,
        modified: attrs.modified,
        extras: attrs.extra.len() as u64,
    }
}

// Adds the lines of an item's extras.
pub(crate) fn push_extras(rows: &mut ReplyRows, attrs: &Attrs) -> Result<(), AllocError>
    ensures { OnOk result (rows.new ≡ rows.old ++ extra_rows attrs.now) }
{
    for (name, value) in attrs.extra.values() {
        rows.push(ReplyRow::Extra {
            name: name.clone()?,
            value: value.clone()?,
        })?;
    }
    Ok(())
}

fn attrs_of(body: &NodeBody) -> &Attrs
    ensures { result.now ≡ node_attributes body.now }
{
    match body {
        NodeBody::Folder { attrs, .. } => attrs,
        NodeBody::Leaf(LeafRow::File { attrs, .. }) => attrs,
        NodeBody::Leaf(LeafRow::Link { attrs, .. }) => attrs,
    }
}

/// The file or link that a node is; none of a folder.
pub(crate) fn leaf_of(body: &NodeBody) -> Option<&LeafRow>
    ensures { option_copied result ≡ leaf_in body.now }
{
    match body {
        NodeBody::Folder { .. } => None,
        NodeBody::Leaf(leaf) => Some(leaf),
    }
}

// The line of a node under this name.
fn node_line(body: &NodeBody, name: ListedName) -> Result<ReplyRow, AllocError>
    ensures { IfOk result (λ row. row ≡ node_line body.now name) }
{
    Ok(match body {
        NodeBody::Folder { attrs, .. } => ReplyRow::Folder {
            attributes: attributes(attrs),
            name,
        },
        NodeBody::Leaf(
            LeafRow::File {
                attrs,
                stamp,
                length,
            },
        ) => ReplyRow::File {
            attributes: attributes(attrs),
            length: *length,
            stamp: *stamp,
            name,
        },
        NodeBody::Leaf(
            LeafRow::Link {
                attrs,
                stamp,
                target,
            },
        ) => ReplyRow::Link {
            attributes: attributes(attrs),
            stamp: *stamp,
            name,
            target: target.clone()?,
        },
    })
}

// Adds the line of a folder's entry.
fn push_child(rows: &mut ReplyRows, graph: &Graph, child: &Child) -> Result<(), AllocError>
    ensures { OnOk result (rows.new ≡ rows.old ++ cons_option (child_line graph.now child.now) []) }
{
    match graph.node(child.node) {
        Some(row) => {
            let name = ListedName::Entry(child.name.clone()?);
            rows.push(node_line(&row.body, name)?)?;
            Ok(())
        }
        None => Ok(()),
    }
}

// Adds the lines of a folder's entries.
fn push_children(rows: &mut ReplyRows, graph: &Graph, children: &[Child]) -> Result<(), AllocError>
    ensures { OnOk result (rows.new ≡ rows.old ++ child_lines graph.now children.now) }
{
    for child in children {
        push_child(rows, graph, child)?;
    }
    Ok(())
}

/// The lines of a node that stands at a path: its own, those of its extras, and of its entries.
pub(crate) fn node_lines(
    alloc: Global,
    graph: &Graph,
    row: &NodeRow,
    path: &Path,
) -> Result<ReplyRows, AllocError>
    ensures { IfOk result (λ rows. rows ≡ node_lines graph.now row.now path.now) }
{
    let mut rows = ReplyRows::new(alloc);
    rows.push(node_line(&row.body, ListedName::Path(path.clone()?))?)?;
    push_extras(&mut rows, attrs_of(&row.body))?;
    push_children(&mut rows, graph, children_of(row))?;
    Ok(rows)
}

/// All bytes of a file's node, which has so many.
pub(crate) fn read_stored<W: World>(
    alloc: Global,
    world: &mut W,
    store: &Store,
    number: NodeId,
    size: u64,
) -> Result<Bytes, LineFault>
    requires whole { IsWhole store.now }
    requires count { length store.now.image.used ≡ W.blocks world.old StoreSide }
    requires there { is_some (node store.now.nodes number) ≡ true }
    requires size { IfSome (node store.now.nodes number) (λ row. size ≡ node_length row) }
    ensures bytes { W.told → IfOk result (λ found. found ≡ files_of store.now.image.records (disk StoreSide (now (W.log world.old))).bytes number) }
    ensures refused { (why : Refused) → result ≡ Err (LineFault.Refused why) → ⊥ }
    ensures steps { W.told → Steps (W.log world.old) (W.log world.new) (now (W.log world.old)) }
    ensures blocks { W.blocks world.new ≡ W.blocks world.old }
    ensures never_less { NeverLess (W.faults world.old) (W.faults world.new) }
    ensures fault { Blames result (W.faults world.old) (W.faults world.new) }
{
    held_files();
    let mut bytes = Vec::new(alloc);
    bytes.resize(size as usize, 0u8)?;
    match store.read_file(world, number, 0, bytes.as_mut_slice()) {
        Ok(()) => Ok(Bytes::of(bytes)),
        Err(Failed) => Err(LineFault::Fault(Side::Store)),
    }
}
