//! Volumes of which one record breaks a rule (`docs/FORMATS.md`, "Records of a volume").
use crate::told::volume_tells;
use crate::volume_records::{EMPTY, FILE, GOOD, PUTS, ROWS, TAKEN};
use std::alloc::{AllocError, Global};
use std::test::Fail;
use tm_testing::{
    ITEM, JOURNAL_KEY, Meta, Record, chain_of, change, put_edited, put_record, put_records,
    volume_world,
};
use tm_world::{Cause, Side};

/// The block on which the data of a record that is put stand.
const DATA: u32 = 4;

/// Whether a run says that of the good volume with these records in the place of its own. One of them
/// may have data, of less than a block.
fn tells(
    alloc: Global,
    is_clean: bool,
    edits: &[Record<'static>],
    data: &[u8],
    bad: Option<u64>,
) -> Result<bool, AllocError> {
    let text = put_edited(alloc, &GOOD, edits)?;
    let mut world = volume_world(alloc, 64, is_clean, &text, &[5]).or(Err(AllocError))?;
    change(&mut world, Side::Volume, DATA, 0, data).or(Err(AllocError))?;
    volume_tells(alloc, &mut world, bad.map(|key| (Cause::Record, key)))
}

/// A record with these data.
fn record(key: u64, meta: Meta<'static>, data: &[u8]) -> Record<'static> {
    let blocks: &[u32] = if data.is_empty() { &[] } else { &[DATA] };
    (key, meta, data.len() as u64, blocks)
}

#[test]
fn each_record_that_breaks_a_rule_is_bad(rt: HostRuntime) -> Result<(), Fail> {
    let alloc = rt.alloc();
    assert!(rt; tells(alloc, false, &[], b"", None)?);
    for (key, meta, data, bad) in PUTS {
        let is_told = tells(alloc, false, &[record(key, meta, data)], data, Some(bad))?;
        assert!(rt; is_told, "{key} with {data:?}");
    }
    for (key, bad) in TAKEN {
        let is_told = tells(alloc, false, &[(key, Meta::Gone, 0, &[])], b"", Some(bad))?;
        assert!(rt; is_told, "without {key}");
    }
    Ok(())
}

#[test]
fn a_journal_is_read_where_the_volume_was_closed_cleanly(rt: HostRuntime) -> Result<(), Fail> {
    let alloc = rt.alloc();
    for (rows, bad) in ROWS {
        let journal = [record(JOURNAL_KEY, EMPTY, rows)];
        let clean = tells(alloc, true, &journal, rows, bad)?;
        let unclean = tells(alloc, false, &journal, rows, None)?;
        assert!(rt; clean && unclean, "{rows:?}");
    }
    // A clean volume without a journal.
    assert!(rt; tells(alloc, true, &[], b"", Some(JOURNAL_KEY))?);
    Ok(())
}

#[test]
fn a_file_has_16_mib(rt: HostRuntime) -> Result<(), Fail> {
    let alloc = rt.alloc();
    for (length, last, bad) in [
        (16_777_216, 4196, None),
        (16_777_217, 4197, Some((Cause::Record, ITEM + 4))),
    ] {
        let blocks: Vec<u32> = (100..last).collect(alloc)?;
        let text = put_edited(alloc, &GOOD, &[(ITEM + 4, FILE, length, &blocks)])?;
        let mut world = volume_world(alloc, 4200, false, &text, &chain_of(alloc, 5, &text)?)?;
        assert!(rt; volume_tells(alloc, &mut world, bad)?, "{length} bytes");
    }
    Ok(())
}

/// The good volume with folders down to the item of this number: each from the item 6 on stands under
/// the one before, and the item 6 under the item 3, which stands under two names.
fn nested(alloc: Global, last: u8) -> Result<Vec<u8>, AllocError> {
    let mut text = put_records(alloc, &GOOD)?;
    let mut parent = 3u8;
    for number in 6..last.saturating_add(1) {
        let front = [1, 0, 0, 0, parent, 1, b'c'];
        let key = ITEM + u64::from(number);
        put_record(alloc, &mut text, (key, Meta::Item(&front, b""), 0, &[]))?;
        parent = number;
    }
    Ok(text)
}

#[test]
fn an_item_stands_under_64_names(rt: HostRuntime) -> Result<(), Fail> {
    let alloc = rt.alloc();
    // The item 67 stands under 64 names.
    for (last, bad) in [(67, None), (68, Some((Cause::Record, ITEM + 68)))] {
        let text = nested(alloc, last)?;
        let mut world = volume_world(alloc, 64, false, &text, &chain_of(alloc, 5, &text)?)?;
        assert!(rt; volume_tells(alloc, &mut world, bad)?, "{last}");
    }
    Ok(())
}
