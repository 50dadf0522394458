//! The head of a volume and its journal, as they are read.
ghost use Rattle.std.specs.Prelude.{◌≡◌, ◌≢◌, Err, ◌≤◌, ◌<◌, ◌↔◌, ℕ, List, Some, None, IfOk, OnOk, IfSome, IfNone, IsSome, IsErrOf, IsTrue, cond, length, All};
ghost use Rattle.std.specs.Option.{option_map};
ghost use Rattle.tm_image.specs.Reads.{entry_of, entries_of};
ghost use Rattle.tm_nodes.specs.Records.{paths_of};
ghost use Rattle.tm_nodes.specs.declared.volume.VolumeHead.{VolumeHead};
ghost use Rattle.tm_records.specs.Records.{at};
ghost use Rattle.tm_world.specs.Faults.{NeverLess, Rose};
ghost use Rattle.tm_world.specs.Log.{now, Steps};
ghost use Rattle.tm_world.specs.Outside.{disk};
ghost use Rattle.tm_volume_records.specs.Loads.{IfBadAt, HeadIn, AreRows};
ghost use Rattle.tm_volume_records.specs.Records.{head_key, journal_key, entry_at};
ghost use Rattle.tm_volume_records.specs.Rules.{HasHead, HasJournal, IsDrawn};
ghost use Rattle.tm_base.specs.Limits.{max_events};

use crate::fixed::FixedPaths;
use crate::record_keys::{HEAD_KEY, JOURNAL_KEY};
use std::alloc::{AllocError, Global};
use tm_base::limits::MAX_EVENTS;
use tm_image::{Image, LoadError};
use tm_nodes::{NodeError, VolumeHead, read_rows, read_volume};
use tm_tree::Row;
use tm_world::{Cause, Part, Side, World};

/// A record that breaks a rule.
pub(crate) fn bad_record(key: u64) -> LoadError
    ensures { result ≡ LoadError.Bad Cause.Record key }
{
    LoadError::Bad {
        cause: Cause::Record,
        place: key,
    }
}

/// So many zeros.
fn zeros(alloc: Global, count: u64) -> Result<Vec<u8>, AllocError>
    ensures { IfOk result (λ bytes. length bytes.items ≡ count) }
{
    vec![in alloc; 0u8; count as usize]
}

/// The data of the record at a key.
fn read_data<W: World>(
    alloc: Global,
    world: &mut W,
    image: &Image,
    key: u64,
) -> Result<Vec<u8>, LoadError>
    requires side { image.now.side ≡ Side.Volume }
    requires count { length image.now.used ≡ W.blocks world.old Side.Volume }
    requires there { IsSome (at key image.now.records) }
    ensures bytes { W.told → IfOk result (λ read. IfSome (at key image.now.records) (λ r. read.items ≡ (entry_of (disk Side.Volume (now (W.log world.old))).bytes r).bytes)) }
    ensures whole { IfBadAt result key ⊥ }
    ensures steps { W.told → Steps (W.log world.old) (W.log world.new) (now (W.log world.old)) }
    ensures blocks { W.blocks world.new ≡ W.blocks world.old }
    ensures never_less { NeverLess (W.faults world.old) (W.faults world.new) }
    ensures fault { IsErrOf result LoadError.Fault → Rose (W.faults world.old Part.Volume) (W.faults world.new Part.Volume) }
{
    let length = match image.length(key) {
        Some(length) => length,
        None => unreachable!(),
    };
    let mut bytes = match zeros(alloc, length) {
        Ok(bytes) => bytes,
        Err(_) => return Err(LoadError::Memory),
    };
    match image.read_part(world, key, 0, &mut bytes) {
        Ok(()) => Ok(bytes),
        Err(_) => Err(LoadError::Fault),
    }
}

/// The head of a volume, but for its data.
pub(crate) fn read_head(alloc: Global, image: &Image) -> Result<VolumeHead, LoadError>
    ensures no_fault { result ≢ Err LoadError.Fault }
    ensures head { IfOk result (λ head. HeadIn image.now.records head) }
    ensures capacity { IfOk result (λ head. (1 ≤ head.capacity) × (head.capacity ≤ max_events)) }
    ensures bad { (bytes : ℕ → List ℕ) → IfBadAt result head_key (¬ HasHead (entries_of bytes image.now.records)) }
{
    let Some(meta) = image.meta(HEAD_KEY) else {
        return Err(bad_record(HEAD_KEY));
    };
    match read_volume(alloc, meta) {
        Ok(head) => {
            if head.capacity < 1 || u64::from(head.capacity) > MAX_EVENTS {
                return Err(bad_record(HEAD_KEY));
            }
            Ok(head)
        }
        Err(NodeError::BadNode(_)) => Err(bad_record(HEAD_KEY)),
        Err(NodeError::Memory) => Err(LoadError::Memory),
    }
}

/// The fixed paths of a volume, which are the data of its head.
pub(crate) fn read_fixed<W: World>(
    alloc: Global,
    world: &mut W,
    image: &Image,
) -> Result<FixedPaths, LoadError>
    requires side { image.now.side ≡ Side.Volume }
    requires count { length image.now.used ≡ W.blocks world.old Side.Volume }
    requires there { IsSome (at head_key image.now.records) }
    ensures fixed { W.told → IfOk result (λ fixed. option_map (λ e. paths_of e.bytes) (entry_at head_key (entries_of (disk Side.Volume (now (W.log world.old))).bytes image.now.records)) ≡ Some (Some fixed)) }
    ensures bad { W.told → IfBadAt result head_key (¬ HasHead (entries_of (disk Side.Volume (now (W.log world.old))).bytes image.now.records)) }
    ensures steps { W.told → Steps (W.log world.old) (W.log world.new) (now (W.log world.old)) }
    ensures blocks { W.blocks world.new ≡ W.blocks world.old }
    ensures never_less { NeverLess (W.faults world.old) (W.faults world.new) }
    ensures fault { IsErrOf result LoadError.Fault → Rose (W.faults world.old Part.Volume) (W.faults world.new Part.Volume) }
{
    let bytes = read_data(alloc, world, image, HEAD_KEY)?;
    match FixedPaths::read(alloc, &bytes) {
        Ok(fixed) => Ok(fixed),
        Err(NodeError::BadNode(_)) => Err(bad_record(HEAD_KEY)),
        Err(NodeError::Memory) => Err(LoadError::Memory),
    }
}

/// Whether the ids of these rows were drawn.
fn are_drawn(rows: &[Row], next: u64) -> bool
    ensures { IsTrue result ↔ All (λ row. IsDrawn next row.id) rows.now }
{
    rows.iter().all(|row| 1 <= row.id && row.id < next)
}

/// Checks the rows of a journal.
fn check_rows<W: World>(
    alloc: Global,
    world: &mut W,
    image: &Image,
    capacity: u32,
    next: u64,
) -> Result<(), LoadError>
    requires side { image.now.side ≡ Side.Volume }
    requires count { length image.now.used ≡ W.blocks world.old Side.Volume }
    requires there { IsSome (at journal_key image.now.records) }
    ensures rows { W.told → OnOk result (IfSome (at journal_key image.now.records) (λ r. AreRows capacity next (entry_of (disk Side.Volume (now (W.log world.old))).bytes r).bytes)) }
    ensures bad { W.told → IfBadAt result journal_key (IfSome (at journal_key image.now.records) (λ r. ¬ AreRows capacity next (entry_of (disk Side.Volume (now (W.log world.old))).bytes r).bytes)) }
    ensures steps { W.told → Steps (W.log world.old) (W.log world.new) (now (W.log world.old)) }
    ensures blocks { W.blocks world.new ≡ W.blocks world.old }
    ensures never_less { NeverLess (W.faults world.old) (W.faults world.new) }
    ensures fault { IsErrOf result LoadError.Fault → Rose (W.faults world.old Part.Volume) (W.faults world.new Part.Volume) }
{
    let bytes = read_data(alloc, world, image, JOURNAL_KEY)?;
    let rows = match read_rows(alloc, &bytes) {
        Ok(rows) => rows,
        Err(NodeError::BadNode(_)) => return Err(bad_record(JOURNAL_KEY)),
        Err(NodeError::Memory) => return Err(LoadError::Memory),
    };
    if rows.as_slice().len() > capacity as usize || !are_drawn(rows.as_slice(), next) {
        return Err(bad_record(JOURNAL_KEY));
    }
    Ok(())
}

/// Checks the journal of a volume with this head.
pub(crate) fn check_journal<W: World>(
    alloc: Global,
    world: &mut W,
    image: &Image,
    capacity: u32,
    clean: bool,
    next: u64,
) -> Result<(), LoadError>
    requires side { image.now.side ≡ Side.Volume }
    requires count { length image.now.used ≡ W.blocks world.old Side.Volume }
    ensures kept { W.told → (head : VolumeHead) (generation : ℕ) → HeadIn image.now.records head → head.capacity ≡ capacity
        → OnOk result (HasJournal (entries_of (disk Side.Volume (now (W.log world.old))).bytes image.now.records) (record { clean = cond clean 1 0; generation = generation; next = next })) }
    ensures bad { W.told → (head : VolumeHead) (generation : ℕ) → HeadIn image.now.records head → head.capacity ≡ capacity
        → IfBadAt result journal_key (¬ HasJournal (entries_of (disk Side.Volume (now (W.log world.old))).bytes image.now.records) (record { clean = cond clean 1 0; generation = generation; next = next })) }
    ensures steps { W.told → Steps (W.log world.old) (W.log world.new) (now (W.log world.old)) }
    ensures blocks { W.blocks world.new ≡ W.blocks world.old }
    ensures never_less { NeverLess (W.faults world.old) (W.faults world.new) }
    ensures fault { IsErrOf result LoadError.Fault → Rose (W.faults world.old Part.Volume) (W.faults world.new Part.Volume) }
{
    let Some(meta) = image.meta(JOURNAL_KEY) else {
        if clean {
            return Err(bad_record(JOURNAL_KEY));
        }
        return Ok(());
    };
    if !meta.is_empty() {
        return Err(bad_record(JOURNAL_KEY));
    }
    if !clean {
        return Ok(());
    }
    check_rows(alloc, world, image, capacity, next)
}
