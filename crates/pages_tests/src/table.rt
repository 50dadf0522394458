//! A table in pages, as an image keeps it: the records, the pages with their holders, and the map.
ghost use Rattle.std.specs.Prelude.{◌≡◌, ◌≤◌, ◌<◌, ◌^◌, ◌*◌, ℕ, [], ◌∷◌, length, slice_index, IfOk, OnOk};
ghost use Rattle.std.specs.Ordering.{nat_cmp};
ghost use Rattle.std.specs.BTreeMap.{insert_entry, is_at};
ghost use Rattle.std.specs.Map.{remove_entry};
ghost use Rattle.std.specs.List.{All};
ghost use Rattle.std.specs.List.Sorted.{IsStrictlyIncreasing};
ghost use Rattle.tm_blockmap.specs.Marks.{AreMarks};
ghost use Rattle.tm_blockmap.specs.Counts.{times};
ghost use Rattle.tm_records.specs.Removes.{without};
ghost use Rattle.tm_pages.specs.Paged.{IsPaged, lengths, blocks_of};
ghost use Rattle.tm_runs.specs.Marks.{AreHolders};
ghost use Rattle.pages_tests.specs.Tables.{IsChange, ArePagesOf, HasPages};

use crate::failure::Failure;
use std::alloc::Global;
use std::collections::BTreeMap;
use tm_blockmap::{BlockMap, marks_count_blocks};
use tm_pages::{
    Page, Plan, Run, directory_of, give_gone, paged_texts_are_short, plan_pages, read_pages,
    write_pages,
};
use tm_records::Record;
use tm_runs::{
    Holder, changes_are_by_key, encode_run, holders_after_plan, holders_of, runs_fit_pages, runs_of,
};
use tm_table::decode;
use tm_testing::attach;
use tm_world::{Blocks, Bytes, Side, World};

/// A table in pages.
#[derive(Drop)]
pub(crate) struct Table {
    pub records: BTreeMap<u64, Record>,
    pub pages: Vec<Page>,
    pub holders: Vec<Holder>,
    pub map: BlockMap,
}

/// Pages, and their holders.
#[derive(Drop)]
pub(crate) struct Held {
    pub pages: Vec<Page>,
    pub holders: Vec<Holder>,
}

/// Writes the pages of changed records, and gives back those that go. The records after the change
/// are these without those at some keys.
fn save<W: World>(
    alloc: Global,
    world: &mut W,
    records: &BTreeMap<u64, Record>,
    left_out: &[u64],
    keys: &[u64],
    old: &[Page],
    holders: &[Holder],
    map: &mut BlockMap,
) -> Result<Held, Failure>
    requires metas { All (λ e. length e.1.meta < 2 ^ 32) records.now.entries }
    requires rising { IsStrictlyIncreasing keys.now }
    requires left_out { IsStrictlyIncreasing left_out.now }
    requires change { IsChange (without left_out.now records.now.entries) (lengths old.now) holders.now keys.now }
    requires used { (b : ℕ) → times b (blocks_of old.now) ≤ slice_index map.old b }
    requires marks { AreMarks map.old }
    requires count { length map.old ≡ W.blocks world.old Side.Volume }
    requires small { length map.old ≤ 2 ^ 32 }
    ensures held { IfOk result (λ new. ArePagesOf (without left_out.now records.now.entries) map.new new) }
    ensures marks { IfOk result (λ new. AreMarks map.new) }
    ensures count { length map.new ≡ W.blocks world.new Side.Volume }
    ensures size { length map.new ≡ length map.old }
{
    runs_fit_pages();
    marks_count_blocks();
    paged_texts_are_short();
    let runs = runs_of(alloc, records, left_out, holders, keys)?;
    let plan = plan_pages(alloc, old, &runs, map)?;
    write_pages(world, Side::Volume, &runs, &plan)?;
    let holders = holders_after_plan(alloc, records, left_out, holders, &runs, &plan)?;
    give_gone(map, old, &plan.cuts);
    let Plan {
        pages,
        cuts: _,
        blocks: _,
    } = plan;
    Ok(Held { pages, holders })
}

/// Puts a record at a key.
fn insert(records: &mut BTreeMap<u64, Record>, key: u64, fresh: Record) -> Result<(), Failure>
    ensures { OnOk result (records.new.entries ≡ insert_entry nat_cmp records.old.entries key fresh) }
{
    let _ = records.insert(key, fresh)?;
    Ok(())
}

/// Takes a key out, if it is there.
fn take_out(records: &mut BTreeMap<u64, Record>, key: u64)
    ensures { records.new.entries ≡ remove_entry (is_at (nat_cmp key)) records.old.entries }
{
    let _ = records.remove(&key);
}

/// A record without data whose meta has so many bytes.
fn record_of(alloc: Global, byte: u8, count: usize) -> Result<Record, Failure>
    requires { count < 2 ^ 32 }
    ensures { IfOk result (λ made. length made.meta < 2 ^ 32) }
{
    Ok(Record {
        meta: Bytes::of(vec![in alloc; byte; count]?),
        length: 0,
        blocks: Blocks::of(Vec::new(alloc)),
    })
}

/// A table of one record, in an attached volume.
fn first<W: World>(alloc: Global, world: &mut W, key: u64, fresh: Record) -> Result<Table, Failure>
    requires { length fresh.meta < 2 ^ 32 }
    ensures { IfOk result (λ table. HasPages table (W.blocks world.new Side.Volume)) }
{
    let total = attach(world, Side::Volume)?;
    changes_are_by_key();
    marks_count_blocks();
    paged_texts_are_short();
    let mut map = BlockMap::new(alloc, total, 3)?;
    let mut records = BTreeMap::new(alloc);
    insert(&mut records, key, fresh)?;
    let text = encode_run(alloc, &records, &[], Holder { key: 0, skip: 0 }, None)?;
    let runs = [Run {
        from: 0,
        to: 0,
        text,
    }];
    let plan = plan_pages(alloc, &[], &runs, &mut map)?;
    write_pages(world, Side::Volume, &runs, &plan)?;
    let holders = holders_of(alloc, &records, &plan.pages)?;
    let Plan {
        pages,
        cuts: _,
        blocks: _,
    } = plan;
    Ok(Table {
        records,
        pages,
        holders,
        map,
    })
}

/// The table with a record at a key.
fn put<W: World>(
    alloc: Global,
    world: &mut W,
    table: Table,
    key: u64,
    fresh: Record,
) -> Result<Table, Failure>
    requires stands { HasPages table (W.blocks world.old Side.Volume) }
    requires meta { length fresh.meta < 2 ^ 32 }
    ensures { IfOk result (λ table. HasPages table (W.blocks world.new Side.Volume)) }
{
    let Table {
        mut records,
        pages,
        holders,
        mut map,
    } = table;
    if pages.is_empty() {
        return Err(Failure::Other);
    }
    changes_are_by_key();
    insert(&mut records, key, fresh)?;
    let held = save(
        alloc,
        world,
        &records,
        &[],
        &[key],
        &pages,
        &holders,
        &mut map,
    )?;
    let Held { pages, holders } = held;
    Ok(Table {
        records,
        pages,
        holders,
        map,
    })
}

/// The table without a key.
fn remove<W: World>(alloc: Global, world: &mut W, table: Table, key: u64) -> Result<Table, Failure>
    requires { HasPages table (W.blocks world.old Side.Volume) }
    ensures { IfOk result (λ table. HasPages table (W.blocks world.new Side.Volume)) }
{
    let Table {
        mut records,
        pages,
        holders,
        mut map,
    } = table;
    if pages.is_empty() {
        return Err(Failure::Other);
    }
    changes_are_by_key();
    let held = save(
        alloc,
        world,
        &records,
        &[key],
        &[key],
        &pages,
        &holders,
        &mut map,
    )?;
    let Held { pages, holders } = held;
    take_out(&mut records, key);
    Ok(Table {
        records,
        pages,
        holders,
        map,
    })
}

/// A change of a table.
#[derive(Clone, Copy)]
pub(crate) enum Step {
    /// A record is put at a key, whose meta is a byte so many times.
    Put(u64, u8, u32),
    /// A key is taken out.
    Remove(u64),
}

/// The table after a change.
fn change<W: World>(
    alloc: Global,
    world: &mut W,
    table: Table,
    step: Step,
) -> Result<Table, Failure>
    requires { HasPages table (W.blocks world.old Side.Volume) }
    ensures { IfOk result (λ table. HasPages table (W.blocks world.new Side.Volume)) }
{
    match step {
        Step::Put(key, byte, count) => {
            put(
                alloc,
                world,
                table,
                key,
                record_of(alloc, byte, count as usize)?,
            )
        }
        Step::Remove(key) => remove(alloc, world, table, key),
    }
}

/// A table of one record at the key 1, and what it is after some changes, in an attached volume.
pub(crate) fn after<W: World>(
    alloc: Global,
    world: &mut W,
    count: u32,
    steps: &[Step],
) -> Result<Table, Failure>
    ensures { IfOk result (λ table. HasPages table (W.blocks world.new Side.Volume)) }
{
    let mut table = first(alloc, world, 1, record_of(alloc, b'a', count as usize)?)?;
    for step in steps {
        table = change(alloc, world, table, *step)?;
    }
    Ok(table)
}

/// The records of a table as they are read from its pages.
pub(crate) fn read_again<W: World>(
    alloc: Global,
    world: &mut W,
    table: &Table,
) -> Result<BTreeMap<u64, Record>, Failure>
    requires { HasPages table.now (W.blocks world.old Side.Volume) }
{
    let directory = directory_of(alloc, &table.pages)?;
    if directory.len() % 6 != 0 {
        return Err(Failure::Other);
    }
    let total = table.map.size();
    let mut used = BlockMap::new(alloc, total, 3)?;
    let paged = read_pages(alloc, world, Side::Volume, &directory, &mut used)?;
    Ok(decode(alloc, paged.text.as_slice(), total)?)
}
