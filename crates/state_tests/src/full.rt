//! Stores in which the table of a backup has no room.
use crate::sharing::first_other;
use std::alloc::{AllocError, Global};
use std::ops::Range;
use std::test::Fail;
use tm_run::Status;
use tm_run_testing::{FORMAT_BOTH, df, joined, read_store, run_next, said};
use tm_testing::pair;

/// A script that makes a folder for each of these numbers after some lines, and then has other lines.
fn folders(
    alloc: Global,
    before: &str,
    numbers: Range<u64>,
    after: &str,
) -> Result<String, AllocError> {
    let mut script = joined(alloc, before, "")?;
    for number in numbers {
        script.push_str(&format!(in alloc; "mkdir /{number}\n")?)?;
    }
    script.push_str(after)?;
    Ok(script)
}

#[test]
fn a_table_that_does_not_fit_is_full(rt: HostRuntime) -> Result<(), Fail> {
    let alloc = rt.alloc();
    // With 111 folders a table has 8,147 bytes, and takes two blocks; with 112 it has 8,219, and takes
    // three. Of 8 blocks 4 are free beside the table of a new store, which has one block.
    for (end, says) in [
        (
            211,
            "finished 2009-03-02-090000 walked 112\nok\n/Backups.backupdb/Mac/2009-03-02-090000\nok\n",
        ),
        (212, "ok\nrefused 15 Full 5 4\nok\n"),
    ] {
        let after = "tmutil startbackup --block\ntmutil listbackups\n";
        let script = folders(alloc, FORMAT_BOTH, 100..end, after)?;
        let mut world = pair(alloc, 64, 8)?;
        run_next(alloc, &mut world, &script)?;
        let said = said(&world);
        assert!(rt; said.ends_with(says), "folders below {end} said {said}");
    }
    Ok(())
}

#[test]
fn a_refused_backup_leaves_the_nodes_as_they_were(rt: HostRuntime) -> Result<(), Fail> {
    let alloc = rt.alloc();
    let mut world = pair(alloc, 64, 8)?;
    // With 20 folders a table has 1,595 bytes. With a snapshot more, of 107 folders, it has 8,230, and
    // takes three blocks; of 106 folders 8,158, and two.
    let script = folders(alloc, FORMAT_BOTH, 100..120, "tmutil startbackup --block\n")?;
    let first = run_next(alloc, &mut world, &script)?;
    let after = "\
tmutil startbackup --block\n\
rmdir /206\n\
tmutil startbackup --block\n";
    let script = folders(alloc, "at 2009-03-02-100000\n", 120..207, after)?;
    let second = run_next(alloc, &mut world, &script)?;
    let says = "ok\nrefused 15 Full 5 4\nok\nfinished 2009-03-02-100000 walked 107\nok\n";
    let said = said(&world);
    assert!(rt; said.ends_with(says), "{said}");
    assert_eq!(rt; (first, second), (Status::Done, Status::DoneRefused));
    let store = read_store(alloc, &mut world).or(Err("reads"))?;
    let nodes = [
        ("2009-03-02-090000", "/", 1, 1),
        ("2009-03-02-100000", "/", 2, 1),
        ("2009-03-02-100000", "/100", 1, 2),
        ("2009-03-02-100000", "/205", 2, 1),
    ];
    assert_eq!(rt; first_other(alloc, &store, &nodes)?, None);
    let held = df(alloc, &mut world).or(Err("reads"))?;
    assert_eq!(rt; (held.free, held.nodes, held.snapshots), (3, 108, 2));
    Ok(())
}
