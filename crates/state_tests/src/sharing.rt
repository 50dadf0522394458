//! What snapshots share: the labels and links of nodes, and what a store holds in all.
use std::alloc::Global;
use std::test::Fail;
use tm_memworld::MemWorld;
use tm_run::Status;
use tm_run_testing::{FORMAT_BOTH, df, read_store, run_next, stat};
use tm_store::Store;
use tm_testing::pair;

/// The date of a snapshot and a path, which backup made what stands there, and how many links it has.
pub(crate) type NodeAt = (&'static str, &'static str, u64, u64);

/// The lines before a first backup, those before a second one an hour later; nodes of both
/// snapshots; and the numbers of free blocks, nodes and stored bytes.
type Case = (
    &'static str,
    &'static str,
    &'static [NodeAt],
    (u64, u64, u64),
);

const FIRST: &str = "2009-03-02-090000";

const SECOND: &str = "2009-03-02-100000";

const CASES: [Case; 9] = [
    // Nothing changed: the root is shared.
    (
        "write /f hello\n",
        "",
        &[
            (FIRST, "/", 1, 2),
            (SECOND, "/", 1, 2),
            (SECOND, "/f", 1, 1),
        ],
        (59, 2, 5),
    ),
    // What was made and removed again dates its folder.
    (
        "mkdir /a\n",
        "write /a/x 1\nrm /a/x\n",
        &[(SECOND, "/", 2, 1), (SECOND, "/a", 2, 1)],
        (60, 4, 0),
    ),
    // A file that changed is new, and so are the folders above it; all else is shared.
    (
        "mkdir /a\nmkdir /a/b\nmkdir /a/b/c\nwrite /a/b/c/f one\nwrite /a/s two\n",
        "write /a/b/c/f three\n",
        &[
            (FIRST, "/", 1, 1),
            (FIRST, "/a/b/c/f", 1, 1),
            (SECOND, "/", 2, 1),
            (SECOND, "/a", 2, 1),
            (SECOND, "/a/b", 2, 1),
            (SECOND, "/a/b/c", 2, 1),
            (SECOND, "/a/b/c/f", 2, 1),
            (SECOND, "/a/s", 1, 2),
        ],
        (57, 11, 11),
    ),
    // A folder that is the same is shared with all in it.
    (
        "mkdir /a\nwrite /a/f one\n",
        "write /g two\n",
        &[
            (SECOND, "/", 2, 1),
            (SECOND, "/a", 1, 2),
            (SECOND, "/a/f", 1, 1),
            (SECOND, "/g", 2, 1),
        ],
        (58, 5, 6),
    ),
    // A folder of other attributes is new, and what it holds is shared.
    (
        "mkdir /a\nwrite /a/f one\nln /a/l f\n",
        "chmod /a 700\n",
        &[
            (FIRST, "/a", 1, 1),
            (SECOND, "/", 2, 1),
            (SECOND, "/a", 2, 1),
            (SECOND, "/a/f", 1, 2),
            (SECOND, "/a/l", 1, 2),
        ],
        (59, 6, 3),
    ),
    // A file or link of other attributes is new.
    (
        "write /f one\nln /l f\nwrite /g two\n",
        "chmod /f 600\nsetx /l color red\n",
        &[
            (SECOND, "/f", 2, 1),
            (SECOND, "/l", 2, 1),
            (SECOND, "/g", 1, 2),
        ],
        (57, 7, 9),
    ),
    // A file that was written anew with the same bytes is new.
    (
        "write /f one\n",
        "write /f one\n",
        &[(SECOND, "/", 2, 1), (SECOND, "/f", 2, 1)],
        (58, 4, 6),
    ),
    // What moved is new at its new path.
    (
        "mkdir /a\nwrite /a/f one\n",
        "mv /a /b\n",
        &[
            (FIRST, "/a", 1, 1),
            (SECOND, "/", 2, 1),
            (SECOND, "/b", 2, 1),
            (SECOND, "/b/f", 2, 1),
        ],
        (58, 6, 6),
    ),
    // What moved away and back again is the same, but for the dates of the folder.
    (
        "mkdir /a\nwrite /a/f one\nmkdir /b\n",
        "mv /a/f /b/f\nmv /b/f /a/f\n",
        &[
            (SECOND, "/", 2, 1),
            (SECOND, "/a", 2, 1),
            (SECOND, "/b", 2, 1),
            (SECOND, "/a/f", 1, 2),
        ],
        (59, 7, 3),
    ),
];

/// Runs the lines before each of two backups, each with its backup in a run of its own. Whether both
/// runs did all their lines.
fn backs_up(alloc: Global, world: &mut MemWorld, first: &str, second: &str) -> Result<bool, Fail> {
    let script = format!(in alloc; "{FORMAT_BOTH}{first}tmutil startbackup --block\n")?;
    let ended = run_next(alloc, world, &script)?;
    let script = format!(in alloc; "at {SECOND}\n{second}tmutil startbackup --block\n")?;
    let also = run_next(alloc, world, &script)?;
    Ok(ended == Status::Done && also == Status::Done)
}

/// The first of these nodes that has another label or other links.
pub(crate) fn first_other<'a>(
    alloc: Global,
    store: &Store,
    nodes: &'a [NodeAt],
) -> Result<Option<&'a NodeAt>, Fail> {
    for node in nodes {
        let (date, word, label, links) = *node;
        if stat(alloc, store, date, word)? != Some((label, links)) {
            return Ok(Some(node));
        }
    }
    Ok(None)
}

#[test]
fn snapshots_share_what_did_not_change(rt: HostRuntime) -> Result<(), Fail> {
    let alloc = rt.alloc();
    for (first, second, nodes, numbers) in CASES {
        let mut world = pair(alloc, 64, 64)?;
        assert!(rt; backs_up(alloc, &mut world, first, second)?, "{second}");
        let store = read_store(alloc, &mut world).or(Err("reads"))?;
        assert_eq!(rt; first_other(alloc, &store, nodes)?, None, "{second}");
        let held = df(alloc, &mut world).or(Err("reads"))?;
        assert_eq!(rt; (held.free, held.nodes, held.stored), numbers, "{second}");
        assert_eq!(rt; (held.blocks, held.snapshots), (64, 2));
    }
    Ok(())
}
