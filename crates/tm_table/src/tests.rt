//! A table by hand, and tables that break a rule.
use super::*;
use std::collections::BTreeMap;
use std::test::Fail;
use tm_records::Record;

/// The text of a record at the key 1 with the meta `ab` and 5,000 bytes in the blocks 4 and 9.
const FIRST: &[u8; 30] =
    b"\x00\x00\x00\x00\x00\x00\x00\x01\x00\x00\x00\x02ab\x00\x00\x00\x00\x00\x00\x13\x88\x00\x00\x00\x04\x00\x00\x00\x09";

/// The text of an empty record at the key 258.
const SECOND: &[u8; 20] =
    b"\x00\x00\x00\x00\x00\x00\x01\x02\x00\x00\x00\x00\x00\x00\x00\x00\x00\x00\x00\x00";

#[test]
fn a_table_of_two_records(rt: HostRuntime) -> Result<(), Fail> {
    let alloc = rt.alloc();
    let mut text = FIRST.to_vec(alloc)?;
    text.extend_from_slice(SECOND)?;
    let records = decode(alloc, &text, 10).or(Err("a good table"))?;
    assert_eq!(rt; records.len(), 2);
    let first = records.get(&1).ok_or("the first")?;
    assert_eq!(rt; first.meta.as_slice(), &b"ab"[..]);
    assert_eq!(rt; first.length, 5000);
    assert_eq!(rt; first.blocks.as_slice(), &[4, 9][..]);
    let second = records.get(&258).ok_or("the second")?;
    assert_eq!(rt; second.length, 0);
    Ok(())
}

#[test]
fn no_records_have_no_text(rt: HostRuntime) -> Result<(), Fail> {
    let records: BTreeMap<u64, Record> = BTreeMap::new(rt.alloc());
    assert_eq!(rt; encode(rt.alloc(), &records, &[])?.len(), 0);
    Ok(())
}

#[test]
fn tables_that_break_a_rule(rt: HostRuntime) -> Result<(), Fail> {
    let alloc = rt.alloc();
    let mut twice = FIRST.to_vec(alloc)?;
    twice.extend_from_slice(FIRST)?;
    let mut cut = FIRST.to_vec(alloc)?;
    cut.extend_from_slice(&SECOND[..19])?;
    let texts: [(&[u8], u32, u64); 4] = [
        (&FIRST[..29], 10, 0),
        (FIRST, 9, 0),
        (&twice, 10, 30),
        (&cut, 10, 30),
    ];
    for (text, total, place) in texts {
        assert!(rt;
            matches!(decode(alloc, text, total), Err(TableError::BadTable(at)) if at == place)
        );
    }
    Ok(())
}
