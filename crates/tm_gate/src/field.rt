//! The rules of a slot, as a table of its fields.
ghost use Rattle.std.specs.Prelude.{◌≡◌, ◌≤◌, ◌<◌, ◌+◌, ◌^◌, ℕ, All, SomeIff, slice_index};
ghost use Rattle.tm_gate.specs.Fields.{number, is_kept, field, zeros, tag_fields, fields, first_broken};

use crate::root::{VERSION, kind_of};
use std::marker::Model;
use tm_base::limits::LAST_MOMENT;
use tm_world::Side;

/// The greatest generation of a volume.
const MAX_GENERATION: u64 = (1 << 62) - 1;

/// The greatest next number of a volume.
const MAX_NEXT: u64 = 1 << 62;

/// The greatest number of a backup.
const MAX_BACKUP: u64 = 1 << 40;

/// A field of a slot: a number, big endian, with the bounds that it keeps. A run of zeros is one
/// field, whose number is 0.
#[derive(Drop)]
struct Field {
    at: usize,
    size: usize,
    least: u64,
    most: u64,
}

impl Model for Field {
    ghost use Rattle.tm_gate.specs.Fields.{FieldRule};

    ghost Value = { FieldRule };

    ghost view = { λ f. record { at = f.at; size = f.size; least = f.least; most = f.most } };
}

/// The number that bytes spell, big endian, or None where it is above what `u64` holds.
fn read_number(bytes: &[u8]) -> Option<u64>
    ensures { SomeIff result (number bytes.now < 2 ^ 64) (number bytes.now) }
{
    let mut value = 0u64;
    for byte in bytes {
        value = value.checked_mul(256)?.checked_add(u64::from(*byte))?;
    }
    Some(value)
}

impl Field {
    /// A number of so many bytes at an offset, with its bounds.
    fn number(at: usize, size: usize, least: u64, most: u64) -> Field
        ensures { result ≡ field at size least most }
    {
        Field {
            at,
            size,
            least,
            most,
        }
    }

    /// So many zeros at an offset.
    fn zeros(at: usize, size: usize) -> Field
        ensures { result ≡ zeros at size }
    {
        Field::number(at, size, 0, 0)
    }

    /// Whether the number that a slot holds here is within its bounds.
    fn is_kept(&self, slot: &[u8; 4096]) -> bool
        requires { self.now.at + self.now.size ≤ 4096 }
        ensures { result ≡ is_kept slot.now self.now }
    {
        match read_number(&slot[self.at..self.at + self.size]) {
            Some(value) => self.least <= value && value <= self.most,
            None => false,
        }
    }
}

/// The fields of a tag whose first byte is `flag`. A volume has its mark, its generation and its
/// next number. A store has whether a backup runs, its date, which is 0 where none runs, and the
/// number of the next backup.
fn tag_fields(side: Side, flag: u8) -> [Field; 5]
    ensures { result ≡ tag_fields side flag }
{
    match side {
        Side::Volume => [
            Field::number(32, 1, 0, 1),
            Field::zeros(33, 7),
            Field::number(40, 8, 1, MAX_GENERATION),
            Field::number(48, 8, 1, MAX_NEXT),
            Field::zeros(56, 40),
        ],
        Side::Store => [
            Field::number(32, 1, 0, 1),
            Field::zeros(33, 7),
            Field::number(40, 8, 0, if flag == 0 { 0 } else { LAST_MOMENT }),
            Field::number(48, 8, 1, MAX_BACKUP),
            Field::zeros(56, 40),
        ],
    }
}

/// The fields of a slot that have a rule, by rising offset, in an image of so many blocks.
fn fields(side: Side, blocks: u32, flag: u8) -> [Field; 11]
    requires { 3 ≤ blocks }
    ensures table { result ≡ fields side blocks flag }
    ensures within { All (λ f. f.at + f.size ≤ 4096) result }
{
    let kind = u64::from(kind_of(side));
    let version = u64::from(VERSION);
    let blocks = u64::from(blocks);
    let [mark, after_mark, first_number, second_number, after_tag] = tag_fields(side, flag);
    [
        Field::number(8, 1, kind, kind),
        Field::number(9, 1, version, version),
        Field::zeros(10, 2),
        Field::number(12, 4, 3, blocks - 1),
        Field::number(24, 8, 1, 4092 * (blocks - 3)),
        mark,
        after_mark,
        first_number,
        second_number,
        after_tag,
        Field::zeros(96, 4000),
    ]
}

/// The offset of the first bad field of a slot, in an image of so many blocks.
pub(crate) fn first_bad(slot: &[u8; 4096], side: Side, blocks: u32) -> Option<usize>
    requires { 3 ≤ blocks }
    ensures { result ≡ first_broken (fields side blocks (slice_index slot.now 32)) slot.now }
{
    fields(side, blocks, slot[32])
        .iter()
        .find(|field| !field.is_kept(slot))
        .map(|field| field.at)
}
