//! Stores at the limits of snapshots, names, files and numbers.
use crate::store_records::MACHINE;
use crate::told::store_tells;
use std::alloc::{AllocError, Global};
use std::test::Fail;
use tm_run::Status;
use tm_run_testing::{FORMAT_VOLUME, Run, first_other};
use tm_testing::{
    HEAD_KEY, Meta, NODE, Record, SNAPSHOT, chain_of, put_record, put_records, store_world,
};
use tm_world::Cause;

/// A folder without entries.
const NOTHING: &[u8] = b"\0\0\0\0";

/// The machine.
const FIRST: Record<'static> = (HEAD_KEY, MACHINE, 0, &[]);

/// The table of a store with so many snapshots of one folder without entries, of dates from 1 on.
fn snapshots(alloc: Global, count: u64) -> Result<Vec<u8>, AllocError> {
    let mut text = put_records(alloc, &[FIRST])?;
    for number in 1..count.saturating_add(1) {
        let snapshot = Meta::Snapshot(number, 1, 1, 1);
        let key = SNAPSHOT.saturating_add(number);
        put_record(alloc, &mut text, (key, snapshot, 0, &[]))?;
    }
    let root = Meta::Folder(1, count, NOTHING);
    put_record(alloc, &mut text, (NODE + 1, root, 0, &[]))?;
    Ok(text)
}

/// How many snapshots a store has, what a backup and a line then say, and how the run ends. Without a
/// moment the backup after it is refused for the snapshots first.
const BACKUPS: [(u64, [Run; 2]); 2] = [
    (
        1023,
        [
            (
                FORMAT_VOLUME,
                "tmutil startbackup --block\ntmutil latestbackup\n",
                "finished 2009-03-02-090000 walked 1\nok\n/Backups.backupdb/Mac/2009-03-02-090000\nok\n",
                Status::Done,
            ),
            (
                "",
                "tmutil startbackup --block\n",
                "refused 13 TooMany 1025\n",
                Status::DoneRefused,
            ),
        ],
    ),
    (
        1024,
        [
            (
                FORMAT_VOLUME,
                "tmutil startbackup --block\ntmutil latestbackup\n",
                "refused 13 TooMany 1025\n/Backups.backupdb/Mac/1970-01-01-001704\nok\n",
                Status::DoneRefused,
            ),
            (
                "",
                "tmutil startbackup --block\n",
                "refused 13 TooMany 1025\n",
                Status::DoneRefused,
            ),
        ],
    ),
];

#[test]
fn an_image_has_1024_snapshots(rt: HostRuntime) -> Result<(), Fail> {
    let alloc = rt.alloc();
    for (count, runs) in BACKUPS {
        let text = snapshots(alloc, count)?;
        let mut world = store_world(alloc, 64, 1025, &text, &chain_of(alloc, 10, &text)?)?;
        let other = first_other(alloc, &mut world, &runs)?;
        assert_eq!(rt; other.as_str(), "");
    }
    // A snapshot more breaks the rule.
    let text = snapshots(alloc, 1025)?;
    let mut world = store_world(alloc, 64, 1026, &text, &chain_of(alloc, 10, &text)?)?;
    let bad = Some((Cause::Record, SNAPSHOT + 1025));
    assert!(rt; store_tells(alloc, &mut world, bad)?);
    Ok(())
}

#[test]
fn backups_have_numbers_below_2_to_40(rt: HostRuntime) -> Result<(), Fail> {
    let alloc = rt.alloc();
    let text = put_records(alloc, &[FIRST])?;
    let lines = "\
tmutil startbackup --block\n\
at 2009-03-02-100000\n\
tmutil startbackup --block\n\
tmutil listbackups\n";
    for (number, says) in [
        (
            SNAPSHOT - 1,
            "\
finished 2009-03-02-090000 walked 1\n\
ok\n\
ok\n\
refused 25 IdsSpent\n\
/Backups.backupdb/Mac/2009-03-02-090000\n\
ok\n",
        ),
        (
            SNAPSHOT,
            "refused 25 IdsSpent\nok\nrefused 25 IdsSpent\nok\n",
        ),
    ] {
        let mut world = store_world(alloc, 64, number, &text, &[5])?;
        assert!(rt; store_tells(alloc, &mut world, None)?);
        let mut world = store_world(alloc, 64, number, &text, &[5])?;
        let run = (FORMAT_VOLUME, lines, says, Status::DoneRefused);
        let other = first_other(alloc, &mut world, &[run])?;
        assert_eq!(rt; other.as_str(), "");
    }
    Ok(())
}

/// The table of a store with one snapshot whose root holds `c`, which holds `c`, so many in all.
fn nested(alloc: Global, count: u64) -> Result<Vec<u8>, AllocError> {
    let root = count.saturating_add(1);
    let snapshot = (
        SNAPSHOT + 1,
        Meta::Snapshot(100, 1, 1, root),
        0,
        &[] as &[u32],
    );
    let last = (NODE + 1, Meta::Folder(1, 1, NOTHING), 0, &[] as &[u32]);
    let mut text = put_records(alloc, &[FIRST, snapshot, last])?;
    for number in 1..root {
        let mut entries = Vec::new(alloc);
        entries.extend_from_slice(b"\0\0\0\x01\x01c")?;
        entries.extend_from_slice(&number.to_be_bytes())?;
        let key = NODE.saturating_add(number).saturating_add(1);
        put_record(
            alloc,
            &mut text,
            (key, Meta::Folder(1, 1, &entries), 0, &[]),
        )?;
    }
    Ok(text)
}

#[test]
fn a_node_stands_under_64_names(rt: HostRuntime) -> Result<(), Fail> {
    let alloc = rt.alloc();
    for (count, bad) in [
        (1, None),
        (64, None),
        (65, Some((Cause::Record, NODE + 1))),
        (66, Some((Cause::Record, NODE + 1))),
    ] {
        let text = nested(alloc, count)?;
        let mut world = store_world(alloc, 64, 2, &text, &chain_of(alloc, 3, &text)?)?;
        assert!(rt; store_tells(alloc, &mut world, bad)?, "{count}");
    }
    Ok(())
}

#[test]
fn a_stored_file_has_16_mib(rt: HostRuntime) -> Result<(), Fail> {
    let alloc = rt.alloc();
    let snapshot = (SNAPSHOT + 1, Meta::Snapshot(100, 1, 2, 2), 0, &[] as &[u32]);
    let root = Meta::Folder(1, 1, b"\0\0\0\x01\x01f\0\0\0\0\0\0\0\x01");
    for (length, last, bad) in [
        (16_777_216, 4196, None),
        (16_777_217, 4197, Some((Cause::Record, NODE + 1))),
    ] {
        let blocks: Vec<u32> = (100..last).collect(alloc)?;
        let file = (NODE + 1, Meta::File(1, 1, 1), length, blocks.as_slice());
        let text = put_records(alloc, &[FIRST, snapshot, file, (NODE + 2, root, 0, &[])])?;
        let mut world = store_world(alloc, 4200, 2, &text, &chain_of(alloc, 3, &text)?)?;
        assert!(rt; store_tells(alloc, &mut world, bad)?, "{length}");
    }
    Ok(())
}
