//! An image in memory, and what it says.
ghost use Rattle.std.specs.Prelude.{◌≡◌, ◌≤◌, ◌<◌, ◌+◌, ℕ, List, length, option_map, IfSome, IfNone, Some, None, find, not, nat_lt};
ghost use Rattle.std.specs.Map.{keys_of};
ghost use Rattle.std.specs.List.{All};
ghost use Rattle.tm_records.specs.Records.{at};
ghost use Rattle.tm_image.specs.Layout.{places};
ghost use Rattle.tm_image.specs.Reads.{data_len};
ghost use Rattle.tm_image.specs.Seen.{IsSound, staged};
ghost use Rattle.tm_image.specs.Room.{free_of, AreStaged};

use std::alloc::Global;
use std::collections::BTreeMap;
use std::marker::Model;
use tm_blockmap::BlockMap;
use tm_gate::Gate;
use tm_records::Record;
use tm_world::Side;

/// The records and the tag of a side, and which of its blocks are used.
///
/// Seen as its records by rising key, the marks of its blocks, where its table lies, its root and
/// the slot that is named.
#[derive(Drop)]
pub struct Image {
    pub(crate) alloc: Global,
    pub(crate) side: Side,
    pub(crate) records: BTreeMap<u64, Record>,
    pub(crate) map: BlockMap,
    /// The blocks of the table, in the order of the chain.
    pub(crate) table: Vec<u32>,
    pub(crate) gate: Gate,
}

impl Model for Image {
    ghost use Rattle.tm_image.specs.Seen.{Seen, IsSound};

    ghost Value = { Seen };

    ghost view = { λ a. record { side = a.side; records = a.records.entries; used = a.map; layout = a.table.items; root = a.gate.root; named = a.gate.named } };

    ghost invariant = { λ a. IsSound (record { side = a.side; records = a.records.entries; used = a.map; layout = a.table.items; root = a.gate.root; named = a.gate.named }) };
}

impl Image {
    /// The meta of the record at a key, if one stands there. It takes no memory.
    pub fn meta(&self, key: u64) -> Option<&[u8]>
        ensures some { IfSome result (λ meta. option_map (λ r. r.meta) (at key self.now.records) ≡ Some meta.now) }
        ensures none { IfNone result (at key self.now.records ≡ None) }
    {
        match self.records.get(&key) {
            Some(record) => Some(record.meta.as_slice()),
            None => None,
        }
    }

    /// The length of the data of the record at a key, in bytes, if one stands there. It takes no
    /// memory.
    pub fn length(&self, key: u64) -> Option<u64>
        ensures { result ≡ option_map (λ r. r.length) (at key self.now.records) }
    {
        match self.records.get(&key) {
            Some(record) => Some(record.length),
            None => None,
        }
    }

    /// How many records there are. It takes no memory.
    pub fn count(&self) -> u64
        ensures { result ≡ length self.now.records }
    {
        self.records.len() as u64
    }

    /// The tag. It takes no memory.
    pub fn tag(&self) -> &[u8; 64]
        ensures { result.now ≡ self.now.root.tag }
    {
        &self.gate.root.tag
    }

    /// The number of blocks. It takes no memory.
    pub fn total(&self) -> u32
        ensures total { result ≡ length self.now.used }
        ensures sound { IsSound self.now }
    {
        self.map.size()
    }

    /// The number of free blocks: neither the gate's, nor the table's, nor of data, nor staged. It
    /// takes no memory.
    pub fn free(&self) -> u32
        ensures free { result ≡ free_of self.now }
        ensures rule { (blobs : List ℕ) → AreStaged blobs self.now → result + 3 + length (places self.now.layout) + data_len self.now.records + length blobs ≡ length self.now.used }
    {
        self.map.free()
    }

    /// The number of blocks of the table. It takes no memory.
    pub fn table_blocks(&self) -> u32
        ensures { result ≡ length (places self.now.layout) }
    {
        self.table.len() as u32
    }

    /// The least key that isn't below `least`, if there is one. It takes no memory.
    pub fn key_from(&self, least: u64) -> Option<u64>
        ensures { result ≡ find (λ k. not (nat_lt k least)) (keys_of self.now.records) }
    {
        match self.records.range(least..).next() {
            Some((key, _)) => Some(*key),
            None => None,
        }
    }
}
