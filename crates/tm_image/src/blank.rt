//! A new image.
ghost use Rattle.std.specs.Prelude.{◌≡◌, ◌≢◌, ◌+◌, ◌-◌, ◌*◌, ◌^◌, ◌<◌, ◌≤◌, ◌++◌, ℕ, [], replicate, IfOk, OnErr, IsOk, IsErrOf, Err, length, slice_index};
ghost use Rattle.std.specs.List.{All};
ghost use Rattle.std.specs.Map.{keys_of, values_of};
ghost use Rattle.std.specs.Ordering.{nat_cmp};
ghost use Rattle.std.specs.BTreeMap.{IsOrdered};
ghost use Rattle.tm_base.specs.Limits.{max_blocks};
ghost use Rattle.tm_world.specs.Outside.{disk, part_of};
ghost use Rattle.tm_world.specs.Log.{now, Steps};
ghost use Rattle.tm_world.specs.Runs.{Runs};
ghost use Rattle.tm_world.specs.Faults.{NeverLess, Rose};
ghost use Rattle.tm_gate.specs.Selector.{named_by};
ghost use Rattle.tm_gate.specs.Tag.{IsTag};
ghost use Rattle.tm_blockmap.specs.Marks.{AreMarks};
ghost use Rattle.tm_blockmap.specs.Counts.{times};
ghost use Rattle.tm_blockmap.specs.Takes.{Takes};
ghost use Rattle.tm_records.specs.Puts.{with_puts};
ghost use Rattle.tm_table.specs.Text.{table_text};
ghost use Rattle.tm_image.specs.Layout.{blocks_for};
ghost use Rattle.tm_image.specs.Reads.{kept, entries_of};
ghost use Rattle.tm_image.specs.Seen.{staged, IsSound, IsSettled, Stands};
ghost use Rattle.tm_image.specs.Room.{table_len, HasRoom};
ghost use Rattle.tm_image.specs.Blank.{IsBlank, IsDraft, IsFirstPut, IsWithoutData, LeavesNoneOr};

use crate::write::{first_block, write_out};
use crate::{Image, ImageError};
use std::alloc::{AllocError, Global};
use std::collections::BTreeMap;
use tm_blockmap::BlockMap;
use tm_gate::{Gate, Root};
use tm_records::{Put, Record, put_all};
use tm_table::encode;
use tm_world::{Failed, Side, World};

/// What a new image has in memory: its records, the text of its table, and the blocks for it.
#[derive(Drop)]
struct Draft {
    records: BTreeMap<u64, Record>,
    text: Vec<u8>,
    map: BlockMap,
    table: Vec<u32>,
}

/// The records that these puts make.
fn first_records(alloc: Global, put: Vec<Put>) -> Result<BTreeMap<u64, Record>, AllocError>
    requires { All IsFirstPut put.items }
    ensures records { IfOk result (λ records. records.entries ≡ with_puts put.items []) }
    ensures each { IfOk result (λ records. All IsWithoutData (values_of records.entries)) }
    ensures keys { IfOk result (λ records. All (λ k. k < 2 ^ 64) (keys_of records.entries)) }
    ensures ordered { IfOk result (λ records. IsOrdered nat_cmp records) }
{
    let mut records = BTreeMap::new(alloc);
    let mut log = Vec::with_capacity(alloc, put.len())?;
    put_all(alloc, &mut records, put, &mut log)?;
    Ok(records)
}

/// The records of a new image of so many blocks and its table, which takes the lowest blocks.
fn make_draft(alloc: Global, blocks: u32, put: Vec<Put>) -> Result<Draft, ImageError>
    requires put { All IsFirstPut put.items }
    requires some { put.items ≢ [] }
    requires small { blocks ≤ max_blocks }
    ensures records { IfOk result (λ d. d.records.entries ≡ with_puts put.items []) }
    ensures is { IfOk result (λ d. IsDraft blocks d.records.entries d.table.items d.map d.text.items) }
    ensures lowest { IfOk result (λ d. Takes d.table.items (replicate 3 1 ++ replicate (blocks - 3) 0) d.map) }
    ensures full { (need free : ℕ) → result ≡ Err (ImageError.Full need free) → (free < need) × (free ≡ blocks - 3) × (need ≡ 2 * table_len (with_puts put.items [])) }
    ensures no_fault { result ≢ Err ImageError.Fault }
{
    let records = first_records(alloc, put)?;
    let text = encode(alloc, &records, &[])?;
    let count = (text.len() + 4091) / 4092;
    let need = 2 * count as u64;
    let free = blocks.saturating_sub(3) as u64;
    if need > free {
        return Err(ImageError::Full { need, free });
    }
    let mut map = BlockMap::new(alloc, blocks, 3)?;
    let table = map.take_all(alloc, count as u32)?;
    Ok(Draft {
        records,
        text,
        map,
        table,
    })
}

/// The block of the slot that the selector of a side names.
fn read_named<W: World>(world: &mut W, side: Side) -> Result<u8, Failed>
    requires { 0 < W.blocks world.old side }
    ensures named { W.told → IfOk result (λ named. named_by ((disk side (now (W.log world.old))).bytes 0) ≡ named) }
    ensures within { IfOk result (λ named. (1 ≤ named) × (named ≤ 2)) }
    ensures steps { W.told → Steps (W.log world.old) (W.log world.new) (now (W.log world.old)) }
    ensures blocks { W.blocks world.new ≡ W.blocks world.old }
    ensures never_less { NeverLess (W.faults world.old) (W.faults world.new) }
    ensures cause { OnErr result (Rose (W.faults world.old (part_of side)) (W.faults world.new (part_of side))) }
{
    let mut selector = [0u8; 4096];
    world.read(side, 0, &mut selector)?;
    Ok(1 + selector[0] % 2)
}

impl Image {
    /// Formats a side of so many blocks: it has these records, which have no data, and this tag.
    ///
    /// The side is unformatted before. `Full` comes exactly where there are fewer blocks than 3 and
    /// twice as many as the table has. It and want of memory come before anything outside changes.
    /// A stop leaves the side unformatted, or with these records and this tag; so does a failure,
    /// after which the side is to be read again.
    pub fn blank<W: World>(
        alloc: Global,
        world: &mut W,
        side: Side,
        blocks: u32,
        put: Vec<Put>,
        tag: [u8; 64],
    ) -> Result<Image, ImageError>
        requires count { W.blocks world.old side ≡ blocks }
        requires small { blocks ≤ max_blocks }
        requires put { All IsFirstPut put.items }
        requires some { put.items ≢ [] }
        requires tag { IsTag side tag }
        requires blank { W.told → 3 ≤ blocks → IsBlank (disk side (now (W.log world.old))) }
        ensures any_moment { W.told → let old = disk side (now (W.log world.old)) in
            Runs side (LeavesNoneOr side (entries_of old.bytes (with_puts put.items [])) tag) (W.log world.old) (W.log world.new) }
        ensures stands { W.told → IfOk result (λ m. Stands m (disk side (now (W.log world.new)))) }
        ensures side { IfOk result (λ m. m.side ≡ side) }
        ensures records { IfOk result (λ m. m.records ≡ with_puts put.items []) }
        ensures tag { IfOk result (λ m. m.root.tag ≡ tag) }
        ensures count { IfOk result (λ m. length m.used ≡ blocks) }
        ensures lowest { IfOk result (λ m. Takes m.layout (replicate 3 1 ++ replicate (blocks - 3) 0) m.used) }
        ensures unstaged { IfOk result (λ m. (b : ℕ) → staged b m ≡ 0) }
        ensures sound { IfOk result IsSound }
        ensures settled { IfOk result IsSettled }
        ensures space { IfOk result HasRoom }
        ensures full { (need free : ℕ) → result ≡ Err (ImageError.Full need free) → (free < need) × (free ≡ blocks - 3) × (need ≡ 2 * table_len (with_puts put.items [])) }
        ensures fits { IsOk result → 3 + 2 * table_len (with_puts put.items []) ≤ blocks }
        ensures untouched { OnErr result (result ≢ Err ImageError.Fault → world.new ≡ world.old) }
        ensures blocks { W.blocks world.new ≡ W.blocks world.old }
        ensures never_less { NeverLess (W.faults world.old) (W.faults world.new) }
        ensures fault { IsErrOf result ImageError.Fault → Rose (W.faults world.old (part_of side)) (W.faults world.new (part_of side)) }
    {
        let Draft {
            records,
            text,
            map,
            table,
        } = make_draft(alloc, blocks, put)?;
        let named = read_named(world, side)?;
        let root = Root::new(side, first_block(&table), text.len() as u64, tag);
        let mut gate = Gate { named, root };
        write_out(world, side, &mut gate, &text, &table, root)?;
        Ok(Image {
            alloc,
            side,
            records,
            map,
            table,
            gate,
        })
    }
}
