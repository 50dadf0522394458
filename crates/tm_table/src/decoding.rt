//! Reading the text of a table.
ghost use Rattle.std.specs.Prelude.{◌≡◌, ℕ, None, Err, IfOk, IfErr, OnOk};
ghost use Rattle.std.specs.Ordering.{nat_cmp};
ghost use Rattle.std.specs.BTreeMap.{insert_entry};
ghost use Rattle.tm_table.specs.Text.{table_text};
ghost use Rattle.tm_table.specs.Good.{AreRecords};
ghost use Rattle.tm_table.specs.Breaks.{BreaksAt};

use crate::TableError;
use crate::entry::read_record;
use crate::error::RecordError;
use std::alloc::Global;
use std::collections::BTreeMap;
use tm_records::Record;

/// Puts a record at a key.
fn add(records: &mut BTreeMap<u64, Record>, key: u64, fresh: Record) -> Result<(), TableError>
    ensures ok { OnOk result (records.new.entries ≡ insert_entry nat_cmp records.old.entries key fresh) }
    ensures err { IfErr result (λ e. e ≡ TableError.Memory) }
{
    let _ = records.insert(key, fresh)?;
    Ok(())
}

/// The records whose text this is, in an image of so many blocks.
///
/// `BadTable` comes exactly where a record runs past the text or breaks a rule of
/// `docs/FORMATS.md`, "What is bad", and tells the offset of the first. So there are records
/// exactly where the text is theirs. It goes over the text once.
pub fn decode(alloc: Global, text: &[u8], total: u32) -> Result<BTreeMap<u64, Record>, TableError>
    ensures records { IfOk result (λ records. AreRecords total None records.entries) }
    ensures text { IfOk result (λ records. text.now ≡ table_text records.entries) }
    ensures bad { (offset : ℕ) → result ≡ Err (TableError.BadTable offset) → BreaksAt total text.now offset }
{
    let mut records = BTreeMap::new(alloc);
    let mut before = None;
    let mut at = 0usize;
    while at < text.len() {
        match read_record(alloc, text, at, before, total) {
            Ok(entry) => {
                add(&mut records, entry.key, entry.record)?;
                before = Some(entry.key);
                at = entry.end;
            }
            Err(RecordError::Bad) => return Err(TableError::BadTable(at as u64)),
            Err(RecordError::Memory) => return Err(TableError::Memory),
        }
    }
    Ok(records)
}
