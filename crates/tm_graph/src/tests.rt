//! What no clause says: that the calls succeed, and links counted by hand.
use crate::{Graph, NodeRows, Walk, children_of};
use std::alloc::Global;
use std::process::Abort;
use std::test::Fail;
use tm_base::{Moment, Name, Path};
use tm_tree::{Attrs, Child, Entries, LeafRow, NodeBody, NodeId, NodeRow};

const LIMIT: u64 = 4_611_686_018_427_387_904;

fn attrs(alloc: Global) -> Result<Attrs, Fail> {
    Ok(Attrs::new(alloc, 0o755, Moment::from_seconds(0).ok_or("moment")?))
}

fn file(alloc: Global, length: u64) -> Result<LeafRow, Fail> {
    Ok(LeafRow::File {
        attrs: attrs(alloc)?,
        stamp: length,
        length,
    })
}

fn add_file(rt: &impl Abort, alloc: Global, graph: &mut Graph, label: u64) -> Result<NodeId, Fail> {
    assert!(rt; graph.greatest() < LIMIT);
    Ok(graph.add_file(label, file(alloc, 5)?)?)
}

fn add_folder(
    rt: &impl Abort,
    alloc: Global,
    graph: &mut Graph,
    label: u64,
    children: &[(&[u8], NodeId)],
) -> Result<NodeId, Fail> {
    let mut list = Vec::new(alloc);
    for (name, node) in children {
        list.push(Child {
            name: Name::read(alloc, name)?,
            node: *node,
        })?;
    }
    let entries = Entries::of(list);
    assert!(rt; graph.greatest() < LIMIT);
    assert!(rt; graph.may_hold(&entries)?);
    Ok(graph.add_folder(label, attrs(alloc)?, entries)?)
}

fn link_root(rt: &impl Abort, graph: &mut Graph, root: NodeId) -> Result<(), Fail> {
    let row = graph.node(root).ok_or("root")?;
    assert!(rt; row.links < LIMIT);
    graph.link_root(root);
    Ok(())
}

fn path(alloc: Global, names: &[&[u8]]) -> Result<Path, Fail> {
    let mut path = Path::root(alloc);
    for name in names {
        path = path.child(&Name::read(alloc, name)?)?;
    }
    Ok(path)
}

fn has_links(rt: &impl Abort, graph: &Graph, links: &[(u64, u64, u64)]) -> Result<(), Fail> {
    assert_eq!(rt; graph.len(), links.len());
    for (number, count, roots) in links {
        let row = graph.node(NodeId(*number)).ok_or("node")?;
        assert_eq!(rt; row.links, *count, "links of {number}");
        assert_eq!(rt;
            graph.root_links(NodeId(*number)),
            *roots,
            "root links of {number}"
        );
    }
    Ok(())
}

// Backup 1 holds /b, /docs/a and /docs/c; before backup 2 only /b changed.
#[test]
fn two_backups_share_a_folder(rt: HostRuntime) -> Result<(), Fail> {
    let alloc = rt.alloc();
    let mut graph = Graph::new(alloc);
    assert!(rt; graph.is_empty() && graph.greatest() == 0);
    let a = add_file(&rt, alloc, &mut graph, 1)?;
    let c = add_file(&rt, alloc, &mut graph, 1)?;
    let docs = add_folder(&rt, alloc, &mut graph, 1, &[(b"a", a), (b"c", c)])?;
    let b = add_file(&rt, alloc, &mut graph, 1)?;
    let first = add_folder(&rt, alloc, &mut graph, 1, &[(b"b", b), (b"docs", docs)])?;
    link_root(&rt, &mut graph, first)?;
    let new_b = add_file(&rt, alloc, &mut graph, 2)?;
    let second = add_folder(&rt, alloc, &mut graph, 2, &[(b"b", new_b), (b"docs", docs)])?;
    link_root(&rt, &mut graph, second)?;

    // The number of each node, its links and its root links.
    has_links(
        &rt,
        &graph,
        &[
            (1, 1, 0),
            (2, 1, 0),
            (3, 2, 0),
            (4, 1, 0),
            (5, 1, 1),
            (6, 1, 0),
            (7, 1, 1),
        ],
    )?;
    assert!(rt; graph.node_at(first, &path(alloc, &[b"docs", b"a"])?) == Ok(a));
    assert!(rt; graph.node_at(second, &path(alloc, &[b"b"])?) == Ok(new_b));
    assert!(rt; graph.node_at(second, &path(alloc, &[b"docs", b"x"])?) == Err(Walk::NotFound));
    assert!(rt; graph.node_at(second, &path(alloc, &[b"b", b"x"])?) == Err(Walk::NotFolder));
    assert!(rt; graph.node_from(6) == Some(NodeId(6)) && graph.node_from(8).is_none());
    assert_eq!(rt; children_of(graph.node(docs).ok_or("docs")?).len(), 2);

    // Without backup 1 its root and the old /b go, and the folder stays for backup 2.
    assert!(rt; graph.root_links(first) > 0);
    let gone = graph.unlink_root(first)?;
    assert!(rt; gone.as_slice() == [NodeId(5), NodeId(4)].as_slice());
    has_links(
        &rt,
        &graph,
        &[(1, 1, 0), (2, 1, 0), (3, 1, 0), (6, 1, 0), (7, 1, 1)],
    )
}

#[test]
fn a_chain_goes_down_64_names(rt: HostRuntime) -> Result<(), Fail> {
    let alloc = rt.alloc();
    let mut graph = Graph::new(alloc);
    let leaf = add_file(&rt, alloc, &mut graph, 1)?;
    let mut top = leaf;
    let mut down = Path::root(alloc);
    let name = Name::read(alloc, b"d")?;
    for _ in 0..64 {
        top = add_folder(&rt, alloc, &mut graph, 1, &[(b"d", top)])?;
        down = down.child(&name)?;
    }
    link_root(&rt, &mut graph, top)?;
    assert!(rt; graph.node_at(top, &down) == Ok(leaf));
    assert!(rt; graph.root_links(top) > 0);
    assert_eq!(rt; graph.unlink_root(top)?.as_slice().len(), 65);
    assert!(rt; graph.is_empty());
    Ok(())
}

#[test]
fn a_graph_is_made_of_its_nodes(rt: HostRuntime) -> Result<(), Fail> {
    let alloc = rt.alloc();
    let body = NodeBody::Leaf(file(alloc, 5)?);
    let row = NodeRow {
        label: 1,
        links: 0,
        body,
    };
    let graph = Graph::from_nodes(alloc, NodeRows::of(vec![in alloc; (NodeId(1), row)]?))?;
    assert!(rt; graph.greatest() == 1 && graph.root_links(NodeId(1)) == 0);
    Ok(())
}

// A file comes to an empty graph as its root.
#[test]
fn a_graph_grows(rt: HostRuntime) -> Result<(), Fail> {
    let alloc = rt.alloc();
    let mut graph = Graph::new(alloc);
    assert_eq!(rt; graph.stored_bytes(), 0);
    let row = NodeRow {
        label: 1,
        links: 0,
        body: NodeBody::Leaf(file(alloc, 5)?),
    };
    graph.grow(NodeRows::of(vec![in alloc; (NodeId(1), row)]?), NodeId(1))?;
    has_links(&rt, &graph, &[(1, 1, 1)])
}
