//! Reading an image.
ghost use Rattle.std.specs.Prelude.{◌≡◌, ◌≢◌, ◌⊎◌, ◌≤◌, ◌<◌, ◌+◌, ℕ, None, false, IfOk, IfSome, IfNone, IsErrOf, Err, length, slice_index};
ghost use Rattle.std.specs.List.{All, flat_map};
ghost use Rattle.std.specs.Map.{values_of};
ghost use Rattle.tm_base.specs.Limits.{max_blocks};
ghost use Rattle.tm_world.specs.declared.cause.Cause.{Cause};
ghost use Rattle.tm_gate.specs.Root.{IsRoot};
ghost use Rattle.tm_blockmap.specs.Marks.{AreMarks};
ghost use Rattle.tm_blockmap.specs.Counts.{IsDistinct};
ghost use Rattle.tm_chain.specs.Chain.{IsBlockList, IsChain};
ghost use Rattle.tm_table.specs.Good.{AreRecords};
ghost use Rattle.tm_image.specs.Layout.{blocks_for};
ghost use Rattle.tm_image.specs.Content.{in_data};
ghost use Rattle.tm_image.specs.Reads.{data_len};
ghost use Rattle.tm_image.specs.Claim.{IsClaimed, IsRefused};
ghost use Rattle.tm_image.specs.Load.{IsClaimedAgain, claims, Fails};
ghost use Rattle.tm_image.specs.Seen.{staged, IsSound, IsSettled, Stands};
ghost use Rattle.tm_world.specs.Outside.{disk, part_of};
ghost use Rattle.tm_world.specs.Log.{now, Steps};
ghost use Rattle.tm_world.specs.Faults.{NeverLess, Rose};
ghost use Rattle.tm_gate.specs.Load.{IsBadGate, Shows};
ghost use Rattle.tm_image.specs.Blank.{LacksMagic};
ghost use Rattle.tm_chain.specs.Way.{BreaksAt};
ghost use Rattle.tm_table.specs.Breaks.{BreaksAt as TableBreaksAt};
ghost use Rattle.tm_table.specs.Text.{table_text};
ghost use Rattle.tm_image.specs.Room.{HasRoom};

use crate::{Image, LoadError};
use std::alloc::Global;
use std::collections::BTreeMap;
use tm_blockmap::BlockMap;
use tm_chain::{Chain, ChainError, read_chain};
use tm_gate::{Gate, GateError, load_gate};
use tm_records::Record;
use tm_table::{TableError, decode};
use tm_world::{Cause, Side, World};

/// Claims these blocks in order, or tells the first that was claimed before.
fn claim_list(map: &mut BlockMap, blocks: &[u32]) -> Option<u32>
    requires within { All (λ b. b < length map.old) blocks.now }
    requires marks { AreMarks map.old }
    ensures none { IfNone result (IsClaimed blocks.now map.old map.new) }
    ensures some { IfSome result (IsRefused blocks.now map.old) }
    ensures size { length map.new ≡ length map.old }
    ensures marks { AreMarks map.new }
{
    for block in blocks {
        if !map.claim(*block) {
            return Some(*block);
        }
    }
    None
}

/// Claims the blocks of these records in order, or tells the first that was claimed before.
fn claim_records(map: &mut BlockMap, records: &BTreeMap<u64, Record>) -> Option<u32>
    requires within { All (λ e. All (λ b. b < length map.old) e.1.blocks) records.now.entries }
    requires marks { AreMarks map.old }
    ensures none { IfNone result ((b : ℕ) → slice_index map.new b ≡ slice_index map.old b + in_data b records.now.entries) }
    ensures some { IfSome result (IsRefused (flat_map (λ r. r.blocks) (values_of records.now.entries)) map.old) }
    ensures size { length map.new ≡ length map.old }
    ensures marks { AreMarks map.new }
{
    for (_key, record) in records {
        if let Some(block) = claim_list(map, record.blocks.as_slice()) {
            return Some(block);
        }
    }
    None
}

/// The image of these parts, which were read from a side of so many blocks.
fn build(
    alloc: Global,
    side: Side,
    gate: Gate,
    table: Vec<u32>,
    records: BTreeMap<u64, Record>,
    blocks: u32,
) -> Result<Image, LoadError>
    requires small { blocks ≤ max_blocks }
    requires root { IsRoot side blocks gate.root }
    requires listed { IsBlockList gate.root.first blocks table.items }
    requires many { length table.items ≡ blocks_for gate.root.table_len }
    requires are { AreRecords blocks None records.entries }
    ensures parts { IfOk result (λ m. (m.side ≡ side) × (m.records ≡ records.entries) × (m.layout ≡ table.items) × (m.root ≡ gate.root) × (m.named ≡ gate.named)) }
    ensures count { IfOk result (λ m. length m.used ≡ blocks) }
    ensures unstaged { IfOk result (λ m. (b : ℕ) → staged b m ≡ 0) }
    ensures sound { IfOk result IsSound }
    ensures space { IfOk result HasRoom }
    ensures block { (place : ℕ) → result ≡ Err (LoadError.Bad Cause.Block place) → IsClaimedAgain (claims table.items records.entries) place }
    ensures room { (place : ℕ) → result ≡ Err (LoadError.Bad Cause.Room place) → IsDistinct (claims table.items records.entries) × (place + 3 + length table.items + data_len records.entries ≡ blocks) × (place < length table.items) }
    ensures causes { (cause : Cause) (place : ℕ) → result ≡ Err (LoadError.Bad cause place) → (cause ≡ Cause.Block) ⊎ (cause ≡ Cause.Room) }
    ensures others { (result ≢ Err LoadError.Unformatted) × (result ≢ Err LoadError.Fault) }
{
    let mut map = BlockMap::new(alloc, blocks, 3)?;
    if let Some(block) = claim_list(&mut map, &table) {
        return Err(LoadError::Bad {
            cause: Cause::Block,
            place: block as u64,
        });
    }
    if let Some(block) = claim_records(&mut map, &records) {
        return Err(LoadError::Bad {
            cause: Cause::Block,
            place: block as u64,
        });
    }
    let free = map.free();
    if (free as usize) < table.len() {
        return Err(LoadError::Bad {
            cause: Cause::Room,
            place: free as u64,
        });
    }
    Ok(Image {
        alloc,
        side,
        records,
        map,
        table,
        gate,
    })
}

/// The chain of the table that a gate names.
fn table_of<W: World>(
    alloc: Global,
    world: &mut W,
    side: Side,
    gate: &Gate,
    blocks: u32,
) -> Result<Chain, LoadError>
    requires count { W.blocks world.old side ≡ blocks }
    requires root { IsRoot side blocks gate.now.root }
    ensures listed { IfOk result (λ chain. IsBlockList gate.now.root.first blocks chain.blocks) }
    ensures size { IfOk result (λ chain. length chain.text ≡ gate.now.root.table_len) }
    ensures many { IfOk result (λ chain. length chain.blocks ≡ blocks_for gate.now.root.table_len) }
    ensures lies { W.told → IfOk result (λ chain. IsChain gate.now.root.first gate.now.root.table_len blocks chain.blocks chain.text (disk side (now (W.log world.old))).bytes) }
    ensures bad { W.told → (cause : Cause) (place : ℕ) → result ≡ Err (LoadError.Bad cause place) → (cause ≡ Cause.Chain) × BreaksAt gate.now.root.first gate.now.root.table_len blocks place (disk side (now (W.log world.old))).bytes }
    ensures formatted { result ≢ Err LoadError.Unformatted }
    ensures steps { W.told → Steps (W.log world.old) (W.log world.new) (now (W.log world.old)) }
    ensures blocks { W.blocks world.new ≡ W.blocks world.old }
    ensures never_less { NeverLess (W.faults world.old) (W.faults world.new) }
    ensures fault { IsErrOf result LoadError.Fault → Rose (W.faults world.old (part_of side)) (W.faults world.new (part_of side)) }
{
    match read_chain(
        alloc,
        world,
        side,
        gate.root.first,
        gate.root.table_len,
        blocks,
    ) {
        Ok(chain) => Ok(chain),
        Err(ChainError::BadChain(block)) => Err(LoadError::Bad {
            cause: Cause::Chain,
            place: block as u64,
        }),
        Err(ChainError::Fault) => Err(LoadError::Fault),
        Err(ChainError::Memory) => Err(LoadError::Memory),
    }
}

/// The records of a text.
fn records_of(alloc: Global, text: &[u8], blocks: u32) -> Result<BTreeMap<u64, Record>, LoadError>
    ensures are { IfOk result (λ records. AreRecords blocks None records.entries) }
    ensures text { IfOk result (λ records. text.now ≡ table_text records.entries) }
    ensures bad { (cause : Cause) (place : ℕ) → result ≡ Err (LoadError.Bad cause place) → (cause ≡ Cause.Table) × TableBreaksAt blocks text.now place }
    ensures others { (result ≢ Err LoadError.Unformatted) × (result ≢ Err LoadError.Fault) }
{
    match decode(alloc, text, blocks) {
        Ok(records) => Ok(records),
        Err(TableError::BadTable(offset)) => Err(LoadError::Bad {
            cause: Cause::Table,
            place: offset,
        }),
        Err(TableError::Memory) => Err(LoadError::Memory),
    }
}

/// The gate of an image.
fn gate_of<W: World>(world: &mut W, side: Side, blocks: u32) -> Result<Gate, LoadError>
    requires count { W.blocks world.old side ≡ blocks }
    ensures root { IfOk result (λ gate. IsRoot side blocks gate.root) }
    ensures shows { W.told → IfOk result (Shows (disk side (now (W.log world.old))).bytes) }
    ensures bad { W.told → (cause : Cause) (place : ℕ) → result ≡ Err (LoadError.Bad cause place) → (cause ≡ Cause.Slot) × IsBadGate side blocks (disk side (now (W.log world.old))).bytes place }
    ensures unformatted { W.told → result ≡ Err LoadError.Unformatted → 3 ≤ blocks → LacksMagic (disk side (now (W.log world.old))).bytes }
    ensures small { blocks < 3 → result ≡ Err LoadError.Unformatted }
    ensures steps { W.told → Steps (W.log world.old) (W.log world.new) (now (W.log world.old)) }
    ensures blocks { W.blocks world.new ≡ W.blocks world.old }
    ensures never_less { NeverLess (W.faults world.old) (W.faults world.new) }
    ensures fault { IsErrOf result LoadError.Fault → Rose (W.faults world.old (part_of side)) (W.faults world.new (part_of side)) }
{
    match load_gate(world, side, blocks) {
        Ok(gate) => Ok(gate),
        Err(GateError::Unformatted { named: _ }) => Err(LoadError::Unformatted),
        Err(GateError::BadSlot(place)) => Err(LoadError::Bad {
            cause: Cause::Slot,
            place,
        }),
        Err(GateError::Fault) => Err(LoadError::Fault),
    }
}

impl Image {
    /// Reads the image of a side of so many blocks. It writes nothing.
    ///
    /// The checks are made in the order of `docs/FORMATS.md`, "What is bad". `Unformatted` comes
    /// where there are fewer than 3 blocks or the named slot lacks the magic, and `Bad` where a
    /// check fails. `Fault` comes only where this side's count of faults rose. Nothing is staged
    /// afterwards.
    pub fn load<W: World>(
        alloc: Global,
        world: &mut W,
        side: Side,
        blocks: u32,
    ) -> Result<Image, LoadError>
        requires count { W.blocks world.old side ≡ blocks }
        requires small { blocks ≤ max_blocks }
        ensures side { IfOk result (λ m. m.side ≡ side) }
        ensures count { IfOk result (λ m. length m.used ≡ blocks) }
        ensures unstaged { IfOk result (λ m. (b : ℕ) → staged b m ≡ 0) }
        ensures sound { IfOk result IsSound }
        ensures settled { IfOk result IsSettled }
        ensures space { IfOk result HasRoom }
        ensures stands { W.told → ((b : ℕ) → (disk side (now (W.log world.old))).loose b ≡ false) → IfOk result (λ m. Stands m (disk side (now (W.log world.old)))) }
        ensures bad { W.told → (cause : Cause) (place : ℕ) → result ≡ Err (LoadError.Bad cause place) → Fails side blocks (disk side (now (W.log world.old))).bytes cause place }
        ensures unformatted { W.told → result ≡ Err LoadError.Unformatted → 3 ≤ blocks → LacksMagic (disk side (now (W.log world.old))).bytes }
        ensures few { blocks < 3 → result ≡ Err LoadError.Unformatted }
        ensures steps { W.told → Steps (W.log world.old) (W.log world.new) (now (W.log world.old)) }
        ensures blocks { W.blocks world.new ≡ W.blocks world.old }
        ensures never_less { NeverLess (W.faults world.old) (W.faults world.new) }
        ensures fault { IsErrOf result LoadError.Fault → Rose (W.faults world.old (part_of side)) (W.faults world.new (part_of side)) }
    {
        let gate = gate_of(world, side, blocks)?;
        let chain = table_of(alloc, world, side, &gate, blocks)?;
        let records = records_of(alloc, chain.text.as_slice(), blocks)?;
        let table = chain.blocks.as_slice().to_vec(alloc)?;
        let image = build(alloc, side, gate, table, records, blocks)?;
        Ok(image)
    }
}
