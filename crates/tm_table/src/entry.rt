//! Reading one record of a table.
ghost use Rattle.std.specs.Prelude.{◌≡◌, ◌+◌, ◌*◌, ◌<◌, ◌≤◌, ◌^◌, ℕ, List, Option, length, Err, IfOk, IsOkAnd, IsTrue, ◌↔◌};
ghost use Rattle.std.specs.List.{All};
ghost use Rattle.tm_codec.specs.Places.{IsTextAt};
ghost use Rattle.tm_table.specs.Text.{numbers, meta_text, record_text};
ghost use Rattle.tm_table.specs.Good.{IsAbove, IsRecord};
ghost use Rattle.tm_records.specs.declared.record.Record.{Record};

use crate::error::RecordError;
use std::alloc::Global;
use tm_codec::{get_u32, get_u64};
use tm_records::Record;
use tm_world::{Blocks, Bytes};

/// A record with its key, and the place where its text ends.
#[derive(Drop)]
pub(crate) struct Entry {
    pub key: u64,
    pub record: Record,
    pub end: usize,
}

/// The bytes of a meta after its length.
fn get_meta(text: &[u8], at: usize) -> Result<&[u8], RecordError>
    ensures stands { IfOk result (λ part. (length part.now < 2 ^ 32) × IsTextAt (meta_text part.now) at text.now) }
    ensures fits { IfOk result (λ part. at + 4 + length part.now ≤ length text.now) }
    ensures read { (part : List ℕ) → length part < 2 ^ 32 → IsTextAt (meta_text part) at text.now → IsOkAnd result (λ got. got.now ≡ part) }
{
    let count = get_u32(text, at)? as usize;
    if text.len() - (at + 4) < count {
        return Err(RecordError::Bad);
    }
    Ok(&text[at + 4..at + 4 + count])
}

/// Whether a number is that of a block that may hold data.
fn is_block(block: u32, total: u32) -> bool
    ensures { IsTrue result ↔ ((3 ≤ block) × (block < total)) }
{
    3 <= block && block < total
}

/// So many block numbers at a place of the text.
fn read_blocks(
    alloc: Global,
    text: &[u8],
    at: usize,
    count: usize,
    total: u32,
) -> Result<Blocks, RecordError>
    requires within { at ≤ length text.now }
    requires small { count < 2 ^ 61 }
    ensures many { IfOk result (λ blocks. length blocks ≡ count) }
    ensures each { IfOk result (λ blocks. All (λ b. (3 ≤ b) × (b < total)) blocks) }
    ensures stand { IfOk result (λ blocks. IsTextAt (numbers blocks) at text.now) }
    ensures bad { result ≡ Err RecordError.Bad → (blocks : List ℕ) → length blocks ≡ count → All (λ b. (3 ≤ b) × (b < total)) blocks → IsTextAt (numbers blocks) at text.now → ⊥ }
{
    if (text.len() - at) / 4 < count {
        return Err(RecordError::Bad);
    }
    let mut blocks = Vec::with_capacity(alloc, count)?;
    for i in 0..count {
        let block = get_u32(text, at + 4 * i)?;
        if !is_block(block, total) {
            return Err(RecordError::Bad);
        }
        blocks.push(block).unwrap();
    }
    Ok(Blocks::of(blocks))
}

/// Whether a key is above the one before, if there is one.
fn is_above(key: u64, before: Option<u64>) -> bool
    ensures { IsTrue result ↔ IsAbove before key }
{
    match before {
        None => true,
        Some(low) => low < key,
    }
}

/// Whether a key is above the one before, and data of this length fit into the image.
fn keeps_bounds(key: u64, before: Option<u64>, length: u64, total: u32) -> bool
    ensures { IsTrue result ↔ (IsAbove before key × (length ≤ 4096 * total)) }
{
    is_above(key, before) && length <= 4096 * u64::from(total)
}

/// The record at a place of the text of a table, where the one before it has the key `before`.
pub(crate) fn read_record(
    alloc: Global,
    text: &[u8],
    at: usize,
    before: Option<u64>,
    total: u32,
) -> Result<Entry, RecordError>
    requires { at ≤ length text.now }
    ensures good { IfOk result (λ entry. IsRecord total before (entry.key, entry.record)) }
    ensures stands { IfOk result (λ entry. IsTextAt (record_text (entry.key, entry.record)) at text.now) }
    ensures end { IfOk result (λ entry. entry.end ≡ at + length (record_text (entry.key, entry.record))) }
    ensures fits { IfOk result (λ entry. (at < entry.end) × (entry.end ≤ length text.now)) }
    ensures bad { result ≡ Err RecordError.Bad → (e : ℕ × Record) → IsRecord total before e → IsTextAt (record_text e) at text.now → ⊥ }
{
    let key = get_u64(text, at)?;
    let meta = get_meta(text, at + 8)?;
    let after = at + 12 + meta.len();
    let length = get_u64(text, after)?;
    if !keeps_bounds(key, before, length, total) {
        return Err(RecordError::Bad);
    }
    let count = ((length + 4095) / 4096) as usize;
    let blocks = read_blocks(alloc, text, after + 8, count, total)?;
    let record = Record {
        meta: Bytes::of(meta.to_vec(alloc)?),
        length,
        blocks,
    };
    let end = after + 8 + 4 * count;
    Ok(Entry { key, record, end })
}
