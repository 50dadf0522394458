//! What no clause says: that the calls succeed.
use crate::{Snapshot, SnapshotList};
use std::alloc::Global;
use std::process::Abort;
use std::test::Fail;
use tm_base::{Moment, Name};
use tm_tree::{Mark, NodeId};

fn snapshot(alloc: Global, number: u64) -> Result<Snapshot, Fail> {
    Ok(Snapshot {
        number,
        date: Moment::from_seconds(number).ok_or("moment")?,
        volume: Name::read(alloc, b"disk")?,
        id: 7,
        mark: Mark {
            generation: 1,
            cursor: 0,
        },
        root: NodeId(number),
    })
}

// The last snapshot is taken off, and of an empty list none.
#[test]
fn snapshots_come_and_go(rt: HostRuntime) -> Result<(), Fail> {
    let alloc = rt.alloc();
    let mut snapshots = SnapshotList::of(Vec::new(alloc));
    snapshots.push(snapshot(alloc, 1)?)?;
    snapshots.push(snapshot(alloc, 2)?)?;
    snapshots.take_last();
    assert!(rt; matches!(snapshots.as_slice(), [only] if only.number == 1));
    snapshots.take_last();
    snapshots.take_last();
    assert!(rt; snapshots.as_slice().is_empty());
    Ok(())
}
