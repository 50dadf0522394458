//! A volume with all items that it may have, and a store with all nodes.
use crate::store_records::MACHINE;
use crate::told::store_tells;
use crate::volume_records::GOOD;
use std::alloc::{AllocError, Global};
use std::test::Fail;
use tm_memworld::{MemWorld, Memory};
use tm_run::Status;
use tm_run_testing::{FORMAT_VOLUME, joined, run_next, said};
use tm_testing::{
    HEAD_KEY, ITEM, Meta, NODE, SNAPSHOT, chain_of, put_record, put_records, store_world,
    volume_world,
};
use tm_world::Cause;

/// What stands before the attributes of a folder in the root, which is called by its number: a name of
/// five digits.
fn front(alloc: Global, number: u64) -> Result<Vec<u8>, AllocError> {
    let mut front = Vec::new(alloc);
    front.extend_from_slice(b"\x01\0\0\0\x01\x05")?;
    front.extend_from_slice(format!(in alloc; "{number:05}")?.as_bytes())?;
    Ok(front)
}

/// A world with a volume of 65,536 items: those of the good volume, and folders in the root.
fn all_items(alloc: Global) -> Result<MemWorld, Memory> {
    let mut text = put_records(alloc, &GOOD)?;
    for number in 6..65_537u64 {
        let front = front(alloc, number)?;
        let record = (
            ITEM.saturating_add(number),
            Meta::Item(&front, b""),
            0,
            &[] as &[u32],
        );
        put_record(alloc, &mut text, record)?;
    }
    let mut world = volume_world(alloc, 2000, false, &text, &chain_of(alloc, 3, &text)?)?;
    world.room(10_000, 2000, 0)?;
    Ok(world)
}

#[test]
fn a_volume_has_65536_items(rt: HostRuntime) -> Result<(), Fail> {
    let alloc = rt.alloc();
    let mut world = all_items(alloc)?;
    let script =
        "at 2009-03-02-090000\nmkdir /x\nwrite /x x\nappend /x x\nfill /x 1 1\nln /x x\nmv /f /x\n";
    let ended = run_next(alloc, &mut world, script)?;
    let says = "ok\nrefused 13 TooMany 65537\nrefused 13 TooMany 65537\n\
refused 13 TooMany 65537\nrefused 13 TooMany 65537\nrefused 13 TooMany 65537\nok\n";
    assert_eq!(rt; said(&world), says);
    assert_eq!(rt; ended, Status::DoneRefused);
    Ok(())
}

/// The number of the root's entries, and each entry: a name of six digits and the number of a file.
fn entries(alloc: Global, count: u32) -> Result<Vec<u8>, AllocError> {
    let mut entries = Vec::new(alloc);
    entries.extend_from_slice(&count.to_be_bytes())?;
    for number in 1..count.saturating_add(1) {
        let name = format!(in alloc; "{}", number.saturating_add(100_000))?;
        entries.push(6)?;
        entries.extend_from_slice(name.as_bytes())?;
        entries.extend_from_slice(&u64::from(number).to_be_bytes())?;
    }
    Ok(entries)
}

/// A world with a store of one snapshot, whose root holds so many files.
fn files(alloc: Global, count: u32) -> Result<MemWorld, Memory> {
    let root = u64::from(count).saturating_add(1);
    let snapshot = Meta::Snapshot(100, 1, 2, root);
    let mut text = put_records(
        alloc,
        &[
            (HEAD_KEY, MACHINE, 0, &[]),
            (SNAPSHOT + 1, snapshot, 0, &[]),
        ],
    )?;
    for number in 1..root {
        let key = NODE.saturating_add(number);
        put_record(alloc, &mut text, (key, Meta::File(1, 1, 1), 0, &[]))?;
    }
    let entries = entries(alloc, count)?;
    let key = NODE.saturating_add(root);
    put_record(
        alloc,
        &mut text,
        (key, Meta::Folder(1, 1, &entries), 0, &[]),
    )?;
    let mut world = store_world(alloc, 12_000, 3, &text, &chain_of(alloc, 3, &text)?)?;
    world.room(40_000, 20_000, 0)?;
    Ok(world)
}

#[test]
fn a_node_more_than_262144_is_bad(rt: HostRuntime) -> Result<(), Fail> {
    let bad = Some((Cause::Record, NODE + 262_145));
    assert!(rt; store_tells(rt.alloc(), &mut files(rt.alloc(), 262_144)?, bad)?);
    Ok(())
}

#[test]
fn a_backup_ends_with_262144_nodes_and_no_more(rt: HostRuntime) -> Result<(), Fail> {
    let alloc = rt.alloc();
    let mut world = files(alloc, 262_142)?;
    // A backup of a new volume has one node, and one after a change of the root has one more.
    let first = joined(alloc, FORMAT_VOLUME, "tmutil startbackup --block\n")?;
    run_next(alloc, &mut world, &first)?;
    let second = "at 2009-03-02-090001\nchmod / 700\ntmutil startbackup --block\n";
    run_next(alloc, &mut world, second)?;
    let says = "\
ok\n\
ok\n\
finished 2009-03-02-090000 walked 1\n\
ok\n\
ok\n\
ok\n\
refused 13 TooMany 262145\n";
    assert_eq!(rt; said(&world), says);
    Ok(())
}
