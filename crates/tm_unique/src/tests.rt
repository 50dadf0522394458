//! What no clause says: that the calls succeed, and bytes counted by hand.
ghost use Rattle.std.specs.Prelude.{◌≡◌, ◌<◌, ◌≤◌, ◌^◌};

use crate::{stored_bytes, unique_bytes};
use std::alloc::Global;
use std::process::Abort;
use std::test::Fail;
use tm_base::{Moment, Name, Path};
use tm_graph::{Graph, NodeRows};
use tm_tree::{Attrs, Child, Entries, LeafRow, NodeBody, NodeId, NodeRow};

fn attrs(alloc: Global) -> Result<Attrs, Fail> {
    Ok(Attrs::new(alloc, 0o755, Moment::from_seconds(0).ok_or("moment")?))
}

fn file(attrs: Attrs) -> NodeRow
    ensures { result ≡ record { label = 1; links = 1; body = NodeBody.Leaf (LeafRow.File attrs 1 5) } }
{
    NodeRow {
        label: 1,
        links: 1,
        body: NodeBody::Leaf(LeafRow::File {
            attrs,
            stamp: 1,
            length: 5,
        }),
    }
}

fn folder(attrs: Attrs, entries: Entries, links: u64) -> NodeRow
    ensures { result ≡ record { label = 1; links = links; body = NodeBody.Folder attrs entries } }
{
    NodeRow {
        label: 1,
        links,
        body: NodeBody::Folder { attrs, entries },
    }
}

// Of a folder with a file of 5 bytes under `f`, in so many snapshots, so many bytes are unique.
fn counts(rt: &impl Abort, alloc: Global, snapshots: u64, unique: u64) -> Result<(), Fail>
    requires some { 0 < snapshots }
    requires few { snapshots ≤ 2 ^ 62 }
{
    let name = Name::read(alloc, b"f")?;
    let path = Path::root(alloc).child(&name)?;
    let entries = Entries::of(vec![in alloc;
        Child {
            name,
            node: NodeId(1)
        },
    ]?);
    let inner = file(attrs(alloc)?);
    let outer = folder(attrs(alloc)?, entries, snapshots);
    let rows = vec![in alloc; (NodeId(1), inner), (NodeId(2), outer)]?;
    let graph = Graph::from_nodes(alloc, NodeRows::of(rows))?;
    let root = NodeId(2);
    assert_eq!(rt;
        unique_bytes(alloc, &graph, root, &Path::root(alloc))?,
        unique
    );
    assert_eq!(rt; unique_bytes(alloc, &graph, root, &path)?, unique);
    assert_eq!(rt; stored_bytes(&graph), 5);
    Ok(())
}

#[test]
fn a_second_snapshot_shares(rt: HostRuntime) -> Result<(), Fail> {
    counts(&rt, rt.alloc(), 1, 5)?;
    counts(&rt, rt.alloc(), 2, 0)
}
