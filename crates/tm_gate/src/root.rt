//! The root of an image, and its spelling in a slot.
ghost use Rattle.std.specs.Prelude.{◌≡◌, ◌≤◌, ◌<◌, ◌^◌, IsTrue};
ghost use Rattle.tm_gate.specs.Slot.{slot_of, HasMagic};
ghost use Rattle.tm_gate.specs.Fields.{bytes_at, is_kept, zeros, kind_of};

use tm_codec::{get_u32, get_u64};
use tm_world::Side;

/// What each slot begins with.
pub(crate) const MAGIC: &[u8; 8] = b"TMIMAGE1";

/// The version of the format.
pub(crate) const VERSION: u8 = 1;

/// What a slot holds: where the table of an image begins, how long it is, and the tag of its side
/// (`docs/FORMATS.md`, "Selector and slots").
#[derive(Clone, Copy, Debug, PartialEq, Eq)]
pub struct Root {
    /// The kind of image: 1 is a volume, 2 a store.
    pub kind: u8,
    /// The version of the format.
    pub version: u8,
    /// One more at each turn of the gate, wrapping. No rule reads it.
    pub sequence: u64,
    /// The length of the table text, in bytes.
    pub table_len: u64,
    /// The first block of the table.
    pub first: u32,
    /// What the volume or the store keeps beside its table.
    pub tag: [u8; 64],
}

/// The kind of image that stands at a side.
pub(crate) fn kind_of(side: Side) -> u8
    ensures { result ≡ kind_of side }
{
    match side {
        Side::Volume => 1,
        Side::Store => 2,
    }
}

impl Root {
    /// The first root of an image, in this version. Its table lies from block `first` on and has
    /// `table_len` bytes.
    pub fn new(side: Side, first: u32, table_len: u64, tag: [u8; 64]) -> Root
        ensures kind { result.kind ≡ kind_of side }
        ensures version { result.version ≡ 1 }
        ensures sequence { result.sequence ≡ 0 }
        ensures table_len { result.table_len ≡ table_len }
        ensures first { result.first ≡ first }
        ensures tag { result.tag ≡ tag }
    {
        Root {
            kind: kind_of(side),
            version: VERSION,
            sequence: 0,
            table_len,
            first,
            tag,
        }
    }

    /// The slot that holds this root.
    pub(crate) fn to_slot(&self) -> [u8; 4096]
        ensures { result ≡ slot_of self.now }
    {
        let mut slot = [0u8; 4096];
        slot[..8].copy_from_slice(MAGIC);
        slot[8..10].copy_from_slice(&[self.kind, self.version]);
        slot[12..16].copy_from_slice(&self.first.to_be_bytes());
        slot[16..24].copy_from_slice(&self.sequence.to_be_bytes());
        slot[24..32].copy_from_slice(&self.table_len.to_be_bytes());
        slot[32..96].copy_from_slice(&self.tag);
        slot
    }

    /// The root that a good slot holds.
    pub(crate) fn from_slot(slot: &[u8; 4096]) -> Root
        requires magic { HasMagic slot.now }
        requires after_version { IsTrue (is_kept slot.now (zeros 10 2)) }
        requires after_tag { IsTrue (is_kept slot.now (zeros 96 4000)) }
        ensures spelled { slot.now ≡ slot_of result }
        ensures first { result.first < 2 ^ 32 }
        ensures table_len { result.table_len < 2 ^ 64 }
        ensures tag { result.tag ≡ bytes_at 32 64 slot.now }
    {
        let mut tag = [0u8; 64];
        tag.copy_from_slice(&slot[32..96]);
        Root {
            kind: slot[8],
            version: slot[9],
            sequence: get_u64(slot, 16).unwrap(),
            table_len: get_u64(slot, 24).unwrap(),
            first: get_u32(slot, 12).unwrap(),
            tag,
        }
    }
}
