//! Preparing a commit.
ghost use Rattle.std.specs.Prelude.{◌≡◌, ◌≢◌, ◌+◌, ◌-◌, ◌^◌, ◌<◌, ◌≤◌, ℕ, [], OnOk, OnErr, IfOk, Err, length, slice_index, sum};
ghost use Rattle.std.specs.List.{All};
ghost use Rattle.std.specs.List.Sorted.{IsStrictlyIncreasing};
ghost use Rattle.tm_blockmap.specs.Marks.{AreMarks};
ghost use Rattle.tm_blockmap.specs.Counts.{times};
ghost use Rattle.tm_blockmap.specs.Takes.{Takes};
ghost use Rattle.tm_records.specs.Removes.{without};
ghost use Rattle.tm_table.specs.Text.{table_text};
ghost use Rattle.tm_image.specs.Layout.{places, blocks_for};
ghost use Rattle.tm_image.specs.Content.{in_data};
ghost use Rattle.tm_image.specs.Reads.{data_len, blocks_of};
ghost use Rattle.tm_records.specs.Records.{at};
ghost use Rattle.tm_image.specs.Seen.{staged, content_of, IsSettled, IsSound};
ghost use Rattle.tm_image.specs.Room.{brought_len, need_of, free_of, table_len, HasRoom};
ghost use Rattle.tm_image.specs.Commit.{changed, brought_by, released_by, released, released_len, IsPut, IsFor, IsCovered};

use crate::{Image, ImageError};
use std::alloc::Global;
use std::collections::BTreeMap;
use tm_blockmap::BlockMap;
use tm_records::{Put, Record, Undo, put_all, remove_all, undo_all};
use tm_table::encode;

/// What a commit changes: keys that it removes, which rise, and records that it puts. No key is in
/// both.
#[derive(Drop)]
pub struct Changes {
    pub remove: Vec<u64>,
    pub put: Vec<Put>,
}

/// A commit that is ready to be written. It has to be spent by [`Image::finish`].
pub struct Prepared {
    /// The text of the table.
    pub text: Vec<u8>,
    /// The blocks for it.
    pub blocks: Vec<u32>,
    /// What the commit lets go.
    pub log: Vec<Undo>,
}

/// How many blocks of data were let go.
fn count_released(log: &[Undo]) -> u64
    requires { released_len log.now < 2 ^ 32 }
    ensures { result ≡ released_len log.now }
{
    let mut count = 0u64;
    for undo in log {
        if let Undo::Replaced(_, old) = undo {
            count += old.blocks.as_slice().len() as u64;
        }
    }
    count
}

/// How many blocks of data the record at a key has, 0 where none stands there.
fn blocks_at(records: &BTreeMap<u64, Record>, key: u64) -> u64
    ensures is { result ≡ blocks_of (at key records.now.entries) }
    ensures small { result < 2 ^ 63 }
{
    match records.get(&key) {
        Some(record) => record.blocks.as_slice().len() as u64,
        None => 0,
    }
}

/// How many blocks of data the records at these keys have.
fn count_removed(records: &BTreeMap<u64, Record>, keys: &[u64]) -> u64
    requires rising { IsStrictlyIncreasing keys.now }
    requires small { data_len records.now.entries < 2 ^ 32 }
    ensures { result + data_len (without keys.now records.now.entries) ≡ data_len records.now.entries }
{
    let mut count = 0u64;
    for key in keys {
        count += blocks_at(records, *key);
    }
    count
}

/// The text of the records without some keys, and blocks for it, by the rule of room.
fn plan(
    alloc: Global,
    records: &BTreeMap<u64, Record>,
    remove: &[u64],
    map: &mut BlockMap,
    table: usize,
    log: &[Undo],
) -> Result<(Vec<u8>, Vec<u32>), ImageError>
    requires metas { All (λ e. length e.1.meta < 2 ^ 32) records.now.entries }
    requires rising { IsStrictlyIncreasing remove.now }
    requires marks { AreMarks map.old }
    requires small { table + released_len log.now + data_len records.now.entries < 2 ^ 32 }
    ensures text { IfOk result (λ p. p.0.items ≡ table_text (without remove.now records.now.entries)) }
    ensures many { IfOk result (λ p. length p.1.items ≡ blocks_for (length p.0.items)) }
    ensures room { IfOk result (λ p. need_of table (length p.1.items) (released_len log.now + data_len records.now.entries - data_len (without remove.now records.now.entries)) + sum map.old ≤ length map.old) }
    ensures taken { IfOk result (λ p. Takes p.1.items map.old map.new) }
    ensures used { IfOk result (λ p. (b : ℕ) → slice_index map.new b ≡ slice_index map.old b + times b p.1.items) }
    ensures count { IfOk result (λ p. sum map.new ≡ sum map.old + length p.1.items) }
    ensures size { length map.new ≡ length map.old }
    ensures marks { AreMarks map.new }
    ensures full { (need free : ℕ) → result ≡ Err (ImageError.Full need free) → (free < need) × (free + sum map.old ≡ length map.old)
        × (need ≡ need_of table (blocks_for (length (table_text (without remove.now records.now.entries)))) (released_len log.now + data_len records.now.entries - data_len (without remove.now records.now.entries))) }
    ensures no_fault { result ≢ Err ImageError.Fault }
    ensures err { OnErr result (map.new ≡ map.old) }
{
    let text = encode(alloc, records, remove)?;
    let count = (text.len() + 4091) / 4092;
    let back = table as u64 + count_released(log) + count_removed(records, remove);
    let need = (count as u64).max((2 * count as u64).saturating_sub(back));
    let free = map.free() as u64;
    if need > free {
        return Err(ImageError::Full { need, free });
    }
    let blocks = map.take_all(alloc, count as u32)?;
    Ok((text, blocks))
}

impl Image {
    /// Makes the records the new ones, in memory alone, and takes all that the commit needs: the
    /// memory and the blocks of its table. It doesn't copy the records.
    ///
    /// Removed keys and keys whose data are kept are there, some key is there afterwards, and the
    /// blobs are staged, each standing once. `Full` comes exactly by the rule of room; after a
    /// refusal all is as before, and the blobs are staged. After `Ok` the next call is
    /// [`Image::finish`].
    pub fn prepare(&mut self, changes: Changes) -> Result<Prepared, ImageError>
        requires settled { IsSettled self.old }
        requires space { HasRoom self.old }
        requires rising { IsStrictlyIncreasing changes.remove.items }
        requires put { All (IsPut self.old.records) changes.put.items }
        requires staged { (b : ℕ) → brought_by b changes.put.items ≤ staged b self.old }
        requires some { changed changes.remove.items changes.put.items self.old.records ≢ [] }
        ensures records { OnOk result (self.new.records ≡ changed changes.remove.items changes.put.items self.old.records) }
        ensures same { OnOk result ((self.new.side ≡ self.old.side) × (self.new.layout ≡ self.old.layout) × (self.new.root ≡ self.old.root) × (self.new.named ≡ self.old.named)) }
        ensures ready { IfOk result (λ p. IsFor p.text.items p.blocks.items p.log.items self.new) }
        ensures covered { IfOk result (λ p. IsCovered (content_of self.old) self.new p.log.items) }
        ensures sound { IsSound self.old }
        ensures size { length self.new.used ≡ length self.old.used }
        ensures lowest { IfOk result (λ p. Takes p.blocks.items self.old.used self.new.used) }
        ensures used { IfOk result (λ p. (b : ℕ) → slice_index self.new.used b ≡ slice_index self.old.used b + times b p.blocks.items) }
        ensures count { IfOk result (λ p. sum self.new.used ≡ sum self.old.used + length p.blocks.items) }
        ensures balance { IfOk result (λ p. (b : ℕ) → in_data b self.new.records + released b p.log.items ≡ in_data b self.old.records + brought_by b changes.put.items) }
        ensures balance_len { IfOk result (λ p. data_len self.new.records + released_len p.log.items ≡ data_len self.old.records + brought_len changes.put.items) }
        ensures full { (need free : ℕ) → result ≡ Err (ImageError.Full need free) → (free < need) × (free ≡ free_of self.old)
            × (need ≡ need_of (table_len self.old.records) (table_len (changed changes.remove.items changes.put.items self.old.records)) (released_by changes.remove.items changes.put.items self.old.records)) }
        ensures fits { OnOk result (need_of (table_len self.old.records) (table_len (changed changes.remove.items changes.put.items self.old.records)) (released_by changes.remove.items changes.put.items self.old.records) ≤ free_of self.old) }
        ensures no_fault { result ≢ Err ImageError.Fault }
        ensures err { OnErr result (self.new ≡ self.old) }
    {
        let Changes { remove, put } = changes;
        let mut log = Vec::with_capacity(self.alloc, put.len() + remove.len())?;
        put_all(self.alloc, &mut self.records, put, &mut log)?;
        match plan(
            self.alloc,
            &self.records,
            &remove,
            &mut self.map,
            self.table.len(),
            &log,
        ) {
            Ok((text, blocks)) => {
                remove_all(&mut self.records, &remove, &mut log);
                Ok(Prepared { text, blocks, log })
            }
            Err(error) => {
                undo_all(self.alloc, &mut self.records, &mut log);
                Err(error)
            }
        }
    }
}
