//! Stores of which one block or one record breaks a rule (`docs/FORMATS.md`, "What is bad", and
//! `docs/RECORDS.md`, "Records of a store").
use crate::store_records::{EDITS, GOOD, MACHINE};
use crate::told::{Bad, store_tells};
use std::alloc::{AllocError, Global};
use std::test::Fail;
use tm_memworld::{MemWorld, Memory};
use tm_run::Status;
use tm_run_testing::{FORMAT_VOLUME, read_volume, run_next, said};
use tm_testing::{
    HEAD_KEY, Meta, NODE, Record, SNAPSHOT, change, put_edited, put_records, store_world,
};
use tm_world::{Cause, Side};

/// A block of the good store, a place in it, what is put there, and what is bad then, if something
/// is. The slot stands on block 1, and the table of 603 bytes on block 5.
const CHANGES: [(u32, usize, &[u8], Bad); 33] = [
    // The slot that isn't named may hold anything, and so may all bits of the selector but one.
    (2, 0, b"TMIMAGE1", None),
    (0, 0, b"\xfe\xff", None),
    // A volume, another version, and what stands after it.
    (1, 8, b"\x01", Some((Cause::Slot, 8))),
    (1, 8, b"\x03", Some((Cause::Slot, 8))),
    (1, 9, b"\0", Some((Cause::Slot, 9))),
    (1, 9, b"\x02", Some((Cause::Slot, 9))),
    (1, 10, b"\x01", Some((Cause::Slot, 10))),
    (1, 11, b"\x01", Some((Cause::Slot, 10))),
    // A table that begins below block 3, or past the last block.
    (1, 12, b"\0\0\0\x02", Some((Cause::Slot, 12))),
    (1, 12, b"\0\0\0\x40", Some((Cause::Slot, 12))),
    // Any sequence.
    (1, 16, b"\xff\xff\xff\xff\xff\xff\xff\xff", None),
    // A table without a text, and one that 61 blocks don't hold.
    (1, 24, b"\0\0\0\0\0\0\0\0", Some((Cause::Slot, 24))),
    (1, 24, b"\0\0\0\0\0\x03\xcf\x0d", Some((Cause::Slot, 24))),
    // A backup that runs with a date, and with one that is too late; without one there is no date.
    (1, 32, b"\x01\0\0\0\0\0\0\0\0\0\0\0\0\0\0\x01", None),
    (1, 32, b"\x01", None),
    (1, 32, b"\x01\0\0\0\0\0\0\0\0\0\0\x3a\xff\xf4\x41\x7f", None),
    (
        1,
        32,
        b"\x01\0\0\0\0\0\0\0\0\0\0\x3a\xff\xf4\x41\x80",
        Some((Cause::Slot, 40)),
    ),
    (1, 47, b"\x01", Some((Cause::Slot, 40))),
    (1, 32, b"\x02", Some((Cause::Slot, 32))),
    (1, 33, b"\x01", Some((Cause::Slot, 33))),
    (1, 39, b"\x01", Some((Cause::Slot, 33))),
    // The number of the next backup is 1 to 2^40.
    (1, 55, b"\0", Some((Cause::Slot, 48))),
    (1, 48, b"\0\0\x01\0\0\0\0\0", None),
    (1, 48, b"\0\0\x01\0\0\0\0\x01", Some((Cause::Slot, 48))),
    (1, 56, b"\x01", Some((Cause::Slot, 56))),
    (1, 95, b"\x01", Some((Cause::Slot, 56))),
    (1, 96, b"\x01", Some((Cause::Slot, 96))),
    (1, 4095, b"\x01", Some((Cause::Slot, 96))),
    // A chain that goes on after its last block, and bytes after the text.
    (5, 0, b"\0\0\0\x08", Some((Cause::Chain, 5))),
    (5, 607, b"\x01", Some((Cause::Chain, 5))),
    (5, 4095, b"\x01", Some((Cause::Chain, 5))),
    // A text that ends within the last record, and one that goes on after it.
    (1, 31, b"\x5a", Some((Cause::Table, 523))),
    (1, 31, b"\x5c", Some((Cause::Table, 603))),
];

/// Records of the good store with others in their place, and what is bad then. The table stands on
/// block 5, the data on the blocks 4, 6 and 7.
const LAID: [(Record<'static>, Bad); 10] = [
    // Data that are longer than all 64 blocks, and blocks below 3 and past the last.
    (
        (NODE + 1, Meta::File(1, 1, 1), 262_145, &[4]),
        Some((Cause::Table, 166)),
    ),
    (
        (NODE + 1, Meta::File(1, 1, 1), 5, &[2]),
        Some((Cause::Table, 166)),
    ),
    (
        (NODE + 1, Meta::File(1, 1, 1), 5, &[64]),
        Some((Cause::Table, 166)),
    ),
    ((NODE + 1, Meta::File(1, 1, 1), 5, &[63]), None),
    (
        (NODE + 5, Meta::File(2, 1, 2), 6000, &[6, 0]),
        Some((Cause::Table, 451)),
    ),
    // A block of the table, one of another file, and one twice.
    (
        (NODE + 1, Meta::File(1, 1, 1), 5, &[5]),
        Some((Cause::Block, 5)),
    ),
    (
        (NODE + 5, Meta::File(2, 1, 2), 6000, &[6, 4]),
        Some((Cause::Block, 4)),
    ),
    (
        (NODE + 1, Meta::File(1, 1, 1), 5, &[7]),
        Some((Cause::Block, 7)),
    ),
    (
        (NODE + 5, Meta::File(2, 1, 2), 6000, &[6, 6]),
        Some((Cause::Block, 6)),
    ),
    // A block that is taken twice comes before a record that breaks a rule.
    (
        (NODE + 1, Meta::File(1, 2, 1), 5, &[5]),
        Some((Cause::Block, 5)),
    ),
];

/// A world with the good store, with these records in the place of its own.
fn good_world(alloc: Global, edits: &[Record<'static>]) -> Result<MemWorld, Memory> {
    let text = put_edited(alloc, &GOOD, edits)?;
    store_world(alloc, 64, 3, &text, &[5])
}

/// The same with bytes in the place of some of a block.
fn changed_world(alloc: Global, block: u32, at: usize, part: &[u8]) -> Result<MemWorld, Memory> {
    let mut world = good_world(alloc, &[])?;
    change(&mut world, Side::Store, block, at, part).or(Err(Memory))?;
    Ok(world)
}

#[test]
fn a_written_store_is_read(rt: HostRuntime) -> Result<(), Fail> {
    let alloc = rt.alloc();
    let mut world = changed_world(alloc, 4, 0, b"hello")?;
    let script = "\
tmutil listbackups\n\
store ls /Backups.backupdb/Mac/Latest\n\
store ls /Backups.backupdb/Mac/Latest/HD\n\
store cat /Backups.backupdb/Mac/1970-01-01-000140/HD/f\n\
store cat /Backups.backupdb/Mac/Latest/HD/a/l\n";
    let ended = run_next(alloc, &mut world, script)?;
    let says = "\
/Backups.backupdb/Mac/1970-01-01-000140\n\
/Backups.backupdb/Mac/1970-01-01-000320\n\
ok\n\
volume HD 00000000-0000-0000-0000-000000000001\n\
ok\n\
folder 0 0 0 1970-01-01-000000 0 /\n\
folder 0 0 0 1970-01-01-000000 0 a\n\
file 0 0 0 1970-01-01-000000 0 6000 2 f\n\
ok\n\
bytes 5 hello\n\
ok\n\
target f\n\
ok\n";
    assert_eq!(rt; said(&world), says);
    assert_eq!(rt; ended, Status::Done);
    Ok(())
}

#[test]
fn each_record_of_a_store_that_breaks_a_rule_is_bad(rt: HostRuntime) -> Result<(), Fail> {
    let alloc = rt.alloc();
    for (place, (edits, bad)) in EDITS.iter().enumerate() {
        let bad = bad.map(|key| (Cause::Record, key));
        let is_told = store_tells(alloc, &mut good_world(alloc, edits)?, bad)?;
        assert!(rt; is_told, "edit {place}");
    }
    for (place, (record, bad)) in LAID.iter().enumerate() {
        let is_told = store_tells(alloc, &mut good_world(alloc, &[*record])?, *bad)?;
        assert!(rt; is_told, "record {place}");
    }
    Ok(())
}

#[test]
fn each_field_of_a_store_that_breaks_a_rule_is_bad(rt: HostRuntime) -> Result<(), Fail> {
    let alloc = rt.alloc();
    assert_eq!(rt; put_records(alloc, &GOOD)?.len(), 603);
    for (block, at, part, bad) in CHANGES {
        let is_told = store_tells(alloc, &mut changed_world(alloc, block, at, part)?, bad)?;
        assert!(rt; is_told, "{at} of block {block}");
    }
    Ok(())
}

#[test]
fn a_store_without_the_magic_is_none(rt: HostRuntime) -> Result<(), Fail> {
    let alloc = rt.alloc();
    // The magic is gone, or the selector names the other slot.
    for (block, byte) in [(1, b't'), (0, 1)] {
        let mut world = changed_world(alloc, block, 0, &[byte])?;
        let ended = run_next(alloc, &mut world, "tmutil listbackups\n")?;
        assert_eq!(rt; said(&world), "refused 2 NoStore\n");
        assert_eq!(rt; ended, Status::DoneRefused);
    }
    Ok(())
}

/// The text of a store with a machine, a file with data, and its root.
fn one_file(alloc: Global, length: u64, blocks: &[u32], links: u64) -> Result<Vec<u8>, AllocError> {
    let snapshot = Meta::Snapshot(100, 1, 2, 2);
    let root = Meta::Folder(1, links, b"\0\0\0\x01\x01f\0\0\0\0\0\0\0\x01");
    let records: [Record<'_>; 4] = [
        (HEAD_KEY, MACHINE, 0, &[]),
        (SNAPSHOT + 1, snapshot, 0, &[]),
        (NODE + 1, Meta::File(1, 1, 1), length, blocks),
        (NODE + 2, root, 0, &[]),
    ];
    put_records(alloc, &records)
}

#[test]
fn a_store_that_is_cut_is_bad(rt: HostRuntime) -> Result<(), Fail> {
    let alloc = rt.alloc();
    // The file stands on block 4, and the table on block 5. Where there is no such block, the slot names
    // it still. Without a free block there is no room for a new table.
    let table: [(u32, u64, &[u32], u64, Bad); 7] = [
        (64, 5, &[4], 1, None),
        (64, 5, &[5], 1, Some((Cause::Block, 5))),
        (5, 5, &[4], 1, Some((Cause::Slot, 12))),
        (6, 5, &[4], 1, None),
        (64, 5, &[4], 2, Some((Cause::Record, NODE + 2))),
        (7, 5000, &[4, 3], 1, None),
        (6, 5000, &[4, 3], 1, Some((Cause::Room, 0))),
    ];
    for (total, length, blocks, links, bad) in table {
        let text = one_file(alloc, length, blocks, links)?;
        let mut world = store_world(alloc, total, 2, &text, &[5])?;
        let is_told = store_tells(alloc, &mut world, bad)?;
        assert!(rt; is_told, "{blocks:?} of {total} blocks, {links} links");
    }
    Ok(())
}

#[test]
fn keys_of_a_table_rise(rt: HostRuntime) -> Result<(), Fail> {
    let alloc = rt.alloc();
    for (first, second, bad) in [
        (1, SNAPSHOT + 3, (Cause::Record, SNAPSHOT + 3)),
        (1, 1, (Cause::Table, 24)),
        (1, 0, (Cause::Table, 24)),
    ] {
        let records: [Record<'_>; 2] = [(first, MACHINE, 0, &[]), (second, MACHINE, 0, &[])];
        let text = put_records(alloc, &records)?;
        let mut world = store_world(alloc, 64, 3, &text, &[5])?;
        let is_told = store_tells(alloc, &mut world, Some(bad))?;
        assert!(rt; is_told, "{first} and {second}");
    }
    Ok(())
}

#[test]
fn a_chain_has_each_block_once(rt: HostRuntime) -> Result<(), Fail> {
    let alloc = rt.alloc();
    // A record of 4,117 bytes takes two blocks.
    let text = put_records(alloc, &[(HEAD_KEY, Meta::Plain(&[b'x'; 4097]), 0, &[])])?;
    for (block, next, bad) in [
        (5, 9, (Cause::Record, 1)),
        // The second block is the first again, none, one of the gate, past the last, or one of zeros, which
        // is read as any other.
        (5, 5, (Cause::Chain, 5)),
        (5, 0, (Cause::Chain, 5)),
        (5, 2, (Cause::Chain, 5)),
        (5, 64, (Cause::Chain, 5)),
        (5, 63, (Cause::Record, 1)),
        // The last block has no next one.
        (9, 10, (Cause::Chain, 9)),
        (9, 5, (Cause::Chain, 9)),
    ] {
        let mut world = store_world(alloc, 64, 1, &text, &[5, 9])?;
        change(&mut world, Side::Store, block, 0, &u32::to_be_bytes(next))?;
        let is_told = store_tells(alloc, &mut world, Some(bad))?;
        assert!(rt; is_told, "{next} after {block}");
    }
    Ok(())
}

#[test]
fn a_good_volume_is_opened_beside_a_bad_store(rt: HostRuntime) -> Result<(), Fail> {
    let alloc = rt.alloc();
    let mut world = good_world(alloc, &[])?;
    run_next(alloc, &mut world, FORMAT_VOLUME)?;
    change(&mut world, Side::Store, 1, 8, b"\x01")?;
    // The volume is opened first, which begins a generation; then the store is found bad.
    let ended = run_next(alloc, &mut world, "ls /\n")?;
    assert_eq!(rt; said(&world), "ok\nok\nbad image store slot 8\n");
    let status = Status::BadImage {
        side: tm_base::Side::Store,
        cause: Cause::Slot,
        place: 8,
    };
    assert_eq!(rt; ended, status);
    assert_eq!(rt;
        read_volume(alloc, &mut world).or(Err("reads"))?.generation,
        2
    );
    Ok(())
}
