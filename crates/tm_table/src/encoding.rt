//! Writing the text of a table.
ghost use Rattle.std.specs.Prelude.{◌≡◌, ◌++◌, ◌<◌, ◌==◌, ◌^◌, OnOk, IfOk, length};
ghost use Rattle.std.specs.List.{All, list_any};
ghost use Rattle.std.specs.List.Sorted.{IsStrictlyIncreasing};
ghost use Rattle.tm_records.specs.Removes.{without};
ghost use Rattle.tm_table.specs.Text.{numbers, record_text, table_text};

use std::alloc::Global;
use std::collections::BTreeMap;
use tm_codec::{Memory, put_u32, put_u64};
use tm_records::Record;

/// Adds the numbers of the blocks.
fn push_numbers(out: &mut Vec<u8>, blocks: &[u32]) -> Result<(), Memory>
    ensures { OnOk result (out.new.items ≡ out.old.items ++ numbers blocks.now) }
{
    for block in blocks {
        put_u32(out, *block)?;
    }
    Ok(())
}

/// Adds the text of one record. Only want of memory can refuse it.
pub fn push_record(out: &mut Vec<u8>, key: u64, entry: &Record) -> Result<(), Memory>
    requires { length entry.now.meta < 2 ^ 32 }
    ensures { OnOk result (out.new.items ≡ out.old.items ++ record_text (key, entry.now)) }
{
    let meta = entry.meta.as_slice();
    put_u64(out, key)?;
    put_u32(out, meta.len() as u32)?;
    out.extend_from_slice(meta)?;
    put_u64(out, entry.length)?;
    push_numbers(out, entry.blocks.as_slice())?;
    Ok(())
}

/// Whether a key is one of these, which rise. It takes no memory.
pub fn is_among(key: u64, keys: &[u64]) -> bool
    requires { IsStrictlyIncreasing keys.now }
    ensures { result ≡ list_any (λ k. k == key) keys.now }
{
    keys.binary_search(&key).is_ok()
}

/// The text of the records without those at some keys, which rise. Only want of memory can refuse
/// it.
pub fn encode(
    alloc: Global,
    records: &BTreeMap<u64, Record>,
    left_out: &[u64],
) -> Result<Vec<u8>, Memory>
    requires metas { All (λ e. length e.1.meta < 2 ^ 32) records.now.entries }
    requires rising { IsStrictlyIncreasing left_out.now }
    ensures { IfOk result (λ text. text.items ≡ table_text (without left_out.now records.now.entries)) }
{
    let mut text = Vec::new(alloc);
    for (key, record) in records {
        if is_among(*key, left_out) {
            continue;
        }
        push_record(&mut text, *key, record)?;
    }
    Ok(text)
}
