//! Records of a volume and of a store as they are spelled, and breakings of that (`docs/RECORDS.md`).
use std::alloc::{AllocError, Global};
use std::collections::BTreeMap;

/// The key of a volume's head, and of a store's machine.
pub const HEAD_KEY: u64 = 1;

/// The key of a volume's journal.
pub const JOURNAL_KEY: u64 = 2;

/// The key of a store's snapshot 0, which is none.
pub const SNAPSHOT: u64 = 1_099_511_627_776;

/// The key of a store's node 0, which is none.
pub const NODE: u64 = 4_611_686_018_427_387_904;

/// The key of a volume's item 0, which is none.
pub const ITEM: u64 = 4_611_686_018_427_387_904;

/// Attributes of zeros: the mode, the user, the group, the date, and no extra attributes.
const ZEROS: [u8; 19] = [0u8; 19];

/// The meta of a record.
#[derive(Clone, Copy)]
pub enum Meta<'a> {
    /// There is no such record.
    Gone,
    /// These bytes.
    Plain(&'a [u8]),
    /// An item of a volume with attributes of zeros: what stands before them, and after them.
    Item(&'a [u8], &'a [u8]),
    /// A snapshot of the volume `HD` with the id 1: its date, generation, cursor and root.
    Snapshot(u64, u64, u64, u64),
    /// A folder of a store with attributes of zeros: its label, its links, and the number of its
    /// entries with those.
    Folder(u64, u64, &'a [u8]),
    /// A file of a store with attributes of zeros: its label, its links and its stamp.
    File(u64, u64, u64),
    /// A link of a store with attributes of zeros: its label, its links, and its stamp and target.
    Link(u64, u64, &'a [u8]),
}

/// A record: its key and meta, how many bytes its data have, and on which blocks these lie.
pub type Record<'a> = (u64, Meta<'a>, u64, &'a [u32]);

// What stands in front of the attributes of a node, and the attributes.
fn put_front(meta: &mut Vec<u8>, kind: u8, label: u64, links: u64) -> Result<(), AllocError> {
    meta.push(kind)?;
    meta.extend_from_slice(&label.to_be_bytes())?;
    meta.extend_from_slice(&links.to_be_bytes())?;
    meta.extend_from_slice(&ZEROS)
}

// The meta of a snapshot.
fn put_snapshot(
    meta: &mut Vec<u8>,
    date: u64,
    generation: u64,
    cursor: u64,
    root: u64,
) -> Result<(), AllocError> {
    meta.extend_from_slice(&date.to_be_bytes())?;
    meta.extend_from_slice(b"\0\0\0\0\0\0\0\0\0\0\0\0\0\0\0\x01")?;
    meta.extend_from_slice(&generation.to_be_bytes())?;
    meta.extend_from_slice(&cursor.to_be_bytes())?;
    meta.extend_from_slice(b"\x02HD")?;
    meta.extend_from_slice(&root.to_be_bytes())
}

// The meta of an item of a volume.
fn put_item(meta: &mut Vec<u8>, front: &[u8], back: &[u8]) -> Result<(), AllocError> {
    meta.extend_from_slice(front)?;
    meta.extend_from_slice(&ZEROS)?;
    meta.extend_from_slice(back)
}

// The bytes of a meta.
fn spell(alloc: Global, meta: Meta<'_>) -> Result<Vec<u8>, AllocError> {
    let mut bytes = Vec::new(alloc);
    match meta {
        Meta::Gone => {}
        Meta::Plain(all) => bytes.extend_from_slice(all)?,
        Meta::Item(front, back) => put_item(&mut bytes, front, back)?,
        Meta::Snapshot(date, generation, cursor, root) => {
            put_snapshot(&mut bytes, date, generation, cursor, root)?
        }
        Meta::Folder(label, links, entries) => {
            put_front(&mut bytes, 1, label, links)?;
            bytes.extend_from_slice(entries)?;
        }
        Meta::File(label, links, stamp) => {
            put_front(&mut bytes, 2, label, links)?;
            bytes.extend_from_slice(&stamp.to_be_bytes())?;
        }
        Meta::Link(label, links, rest) => {
            put_front(&mut bytes, 3, label, links)?;
            bytes.extend_from_slice(rest)?;
        }
    }
    Ok(bytes)
}

/// Adds a record to the text of a table.
pub fn put_record(alloc: Global, text: &mut Vec<u8>, record: Record<'_>) -> Result<(), AllocError> {
    let (key, meta, length, blocks) = record;
    let meta = spell(alloc, meta)?;
    let size = u32::try_from(meta.len()).or(Err(AllocError))?;
    text.extend_from_slice(&key.to_be_bytes())?;
    text.extend_from_slice(&size.to_be_bytes())?;
    text.extend_from_slice(&meta)?;
    text.extend_from_slice(&length.to_be_bytes())?;
    for block in blocks {
        text.extend_from_slice(&block.to_be_bytes())?;
    }
    Ok(())
}

/// The text of a table of these records, whose keys rise.
pub fn put_records(alloc: Global, records: &[Record<'_>]) -> Result<Vec<u8>, AllocError> {
    let mut text = Vec::new(alloc);
    for record in records {
        put_record(alloc, &mut text, *record)?;
    }
    Ok(text)
}

/// The text of a table of these records with others in their place: each edit takes the place of
/// the record of its key, or comes to them.
pub fn put_edited<'a>(
    alloc: Global,
    good: &[Record<'a>],
    edits: &[Record<'a>],
) -> Result<Vec<u8>, AllocError> {
    let mut records = BTreeMap::new(alloc);
    for record in good.iter().chain(edits) {
        if matches!(record.1, Meta::Gone) {
            let _ = records.remove(&record.0);
        } else {
            let _ = records.insert(record.0, *record)?;
        }
    }
    let mut text = Vec::new(alloc);
    for (_key, record) in &records {
        put_record(alloc, &mut text, *record)?;
    }
    Ok(text)
}
