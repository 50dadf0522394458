//! What no clause says: that the calls succeed, and two backups by hand.
use crate::{Builder, base_child, kept_file, kept_folder, kept_link};
use std::alloc::Global;
use std::process::Abort;
use std::test::Fail;
use tm_base::{Moment, Name};
use tm_graph::Graph;
use tm_tree::{Attrs, Child, Entries, LeafRow, NodeId};
use tm_world::{Blob, Blocks, Bytes};

/// The greatest number after which a node can be added.
const LIMIT: u64 = 4_611_686_018_427_387_904;

fn attrs(alloc: Global, mode: u16) -> Result<Attrs, Fail> {
    Ok(Attrs::new(alloc, mode, Moment::from_seconds(0).ok_or("moment")?))
}

fn name(alloc: Global, bytes: &[u8]) -> Result<Name, Fail> {
    Ok(Name::read(alloc, bytes)?)
}

fn bytes(alloc: Global, from: &[u8]) -> Result<Bytes, Fail> {
    let mut list = Vec::new(alloc);
    list.extend_from_slice(from)?;
    Ok(Bytes::of(list))
}

fn blob(alloc: Global, length: u64) -> Blob {
    Blob {
        length,
        blocks: Blocks::of(Vec::new(alloc)),
    }
}

/// One entry, `f`.
fn entry(alloc: Global, node: NodeId) -> Result<Entries, Fail> {
    let mut list = Vec::new(alloc);
    list.push(Child {
        name: name(alloc, b"f")?,
        node,
    })?;
    Ok(Entries::of(list))
}

/// A graph of the file 1 with the stamp 5, and of the folder 2 that holds it as `f`.
fn one_backup(rt: &impl Abort, alloc: Global) -> Result<Graph, Fail> {
    let mut graph = Graph::new(alloc);
    let file = LeafRow::File {
        attrs: attrs(alloc, 0o644)?,
        stamp: 5,
        length: 0,
    };
    assert!(rt; graph.greatest() < LIMIT);
    let number = graph.add_file(1, file)?;
    let entries = entry(alloc, number)?;
    assert!(rt; graph.greatest() < LIMIT);
    assert!(rt; graph.may_hold(&entries)?);
    graph.add_folder(1, attrs(alloc, 0o755)?, entries)?;
    Ok(graph)
}

#[test]
fn a_first_backup_makes_each_node(rt: HostRuntime) -> Result<(), Fail> {
    let alloc = rt.alloc();
    let graph = Graph::new(alloc);
    let mut builder = Builder::new(alloc, &graph, 1);
    let file = builder.file(attrs(alloc, 0o644)?, 7, blob(alloc, 0))?;
    assert!(rt; file == NodeId(1));
    let target = bytes(alloc, b"t")?;
    let link = builder.link(&graph, None, attrs(alloc, 0o755)?, 8, target)?;
    assert!(rt; link == NodeId(2));
    let root = builder.folder(&graph, None, attrs(alloc, 0o755)?, entry(alloc, file)?)?;
    assert!(rt; root == NodeId(3));
    let built = builder.finish(root);
    assert!(rt; built.root == root);
    assert!(rt; built.nodes.as_slice().len() == 3);
    assert!(rt; built.blobs.as_slice().len() == 1);
    Ok(())
}

#[test]
fn a_second_backup_keeps_what_is_as_it_was(rt: HostRuntime) -> Result<(), Fail> {
    let alloc = rt.alloc();
    let graph = one_backup(&rt, alloc)?;
    let base = Some(NodeId(2));
    let child = base_child(&graph, base, &name(alloc, b"f")?);
    assert!(rt; child == Some(NodeId(1)));
    assert!(rt; base_child(&graph, base, &name(alloc, b"g")?).is_none());
    assert!(rt; kept_file(&graph, child, 5) == Some(NodeId(1)));
    assert!(rt; kept_file(&graph, child, 6).is_none());
    assert!(rt; kept_link(&graph, child, 5).is_none());
    let mode = attrs(alloc, 0o755)?;
    let entries = entry(alloc, NodeId(1))?;
    assert!(rt; kept_folder(&graph, base, &mode, &entries) == base);
    let other = attrs(alloc, 0o700)?;
    assert!(rt; kept_folder(&graph, base, &other, &entries).is_none());
    let mut builder = Builder::new(alloc, &graph, 2);
    let root = builder.folder(&graph, base, mode, entries)?;
    assert!(rt; root == NodeId(2));
    let built = builder.finish(root);
    assert!(rt; built.nodes.as_slice().is_empty());
    Ok(())
}
