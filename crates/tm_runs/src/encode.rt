//! Spelling the text between two places from the records.
ghost use Rattle.std.specs.Prelude.{◌≡◌, ◌≤◌, ◌++◌, ◌<◌, ◌+◌, ◌^◌, ◌↔◌, IsTrue, OnOk, IfOk, length, take, drop};
ghost use Rattle.std.specs.List.{All};
ghost use Rattle.std.specs.List.Sorted.{IsStrictlyIncreasing};
ghost use Rattle.std.specs.Option.{unwrap_or};
ghost use Rattle.tm_records.specs.Removes.{without};
ghost use Rattle.tm_table.specs.Text.{record_text, table_text};
ghost use Rattle.tm_runs.specs.Marks.{end, part, one, text_between};

use crate::Holder;
use std::alloc::Global;
use std::collections::BTreeMap;
use tm_codec::Memory;
use tm_records::Record;
use tm_table::{is_among, push_record};
use tm_world::Bytes;

/// Adds the first bytes of the text of a record.
fn push_front(out: &mut Vec<u8>, key: u64, entry: &Record, count: usize) -> Result<(), Memory>
    requires { length entry.now.meta < 2 ^ 32 }
    ensures { OnOk result (out.new.items ≡ out.old.items ++ take count (record_text (key, entry.now))) }
{
    let before = out.len();
    push_record(out, key, entry)?;
    let added = out.len() - before;
    out.truncate(before + added.min(count));
    Ok(())
}

/// Whether a key is below that of a holder, the end of all where there is none.
fn is_below(key: u64, high: Option<Holder>) -> bool
    ensures { IsTrue result ↔ (key < (unwrap_or high end).key) }
{
    match high {
        Some(high) => key < high.key,
        None => true,
    }
}

/// How many bytes of the record at a key stand before the place of a holder with this key or a lower
/// one.
fn bytes_before(key: u64, high: Option<Holder>) -> usize
    ensures here { key ≡ (unwrap_or high end).key → result ≡ (unwrap_or high end).skip }
    ensures behind { (unwrap_or high end).key < key → result ≡ 0 }
{
    match high {
        Some(high) => { if key == high.key { high.skip } else { 0 } }
        None => 0,
    }
}

/// The text from the record at a key on to before the place of a holder, without the records at some
/// keys.
fn spell(
    alloc: Global,
    records: &BTreeMap<u64, Record>,
    left_out: &[u64],
    low: u64,
    high: Option<Holder>,
) -> Result<Vec<u8>, Memory>
    requires metas { All (λ e. length e.1.meta < 2 ^ 32) records.now.entries }
    requires rising { IsStrictlyIncreasing left_out.now }
    requires order { low ≤ (unwrap_or high end).key }
    ensures { IfOk result (λ text. text.items ≡ table_text (part low (unwrap_or high end).key (without left_out.now records.now.entries)) ++ take (unwrap_or high end).skip (table_text (one (unwrap_or high end).key (without left_out.now records.now.entries)))) }
{
    let mut text = Vec::new(alloc);
    for (key, record) in records.range(low..) {
        if is_among(*key, left_out) {
            continue;
        }
        if !is_below(*key, high) {
            push_front(&mut text, *key, record, bytes_before(*key, high))?;
            return Ok(text);
        }
        push_record(&mut text, *key, record)?;
    }
    Ok(text)
}

/// The text of the records without those at some keys, which rise, from the place of one holder on
/// to before that of another, or to the end: a walk over the records between. Only want of memory
/// can refuse it.
pub fn encode_run(
    alloc: Global,
    records: &BTreeMap<u64, Record>,
    left_out: &[u64],
    low: Holder,
    high: Option<Holder>,
) -> Result<Bytes, Memory>
    requires metas { All (λ e. length e.1.meta < 2 ^ 32) records.now.entries }
    requires rising { IsStrictlyIncreasing left_out.now }
    requires order { low.key ≤ (unwrap_or high end).key }
    ensures { IfOk result (λ text. text ≡ text_between (without left_out.now records.now.entries) low (unwrap_or high end)) }
{
    let text = spell(alloc, records, left_out, low.key, high)?;
    let skip = low.skip.min(text.len());
    let part = text[skip..].to_vec(alloc)?;
    Ok(Bytes::of(part))
}
