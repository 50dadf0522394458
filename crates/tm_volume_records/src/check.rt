//! The rules of all records of a volume.
ghost use Rattle.std.specs.Prelude.{◌≡◌, ◌≤◌, ◌<◌, ℕ, List, Some, None, IfOk, IfSome, IfNone, OnOk, IsSome, IsErrOf, length, cond};
ghost use Rattle.std.specs.Option.{option_map};
ghost use Rattle.tm_image.specs.Reads.{entries_of};
ghost use Rattle.tm_index.specs.Folders.{numbers_in};
ghost use Rattle.tm_items.specs.Index.{IsIndex};
ghost use Rattle.tm_items.specs.Rules.{IsSound};
ghost use Rattle.tm_nodes.specs.Records.{paths_of};
ghost use Rattle.tm_records.specs.Records.{at};
ghost use Rattle.tm_world.specs.Faults.{NeverLess, Rose};
ghost use Rattle.tm_world.specs.Log.{now, Steps};
ghost use Rattle.tm_world.specs.Outside.{disk};
ghost use Rattle.tm_volume_records.specs.Loads.{items_from, HeadIn, IfBadKey};
ghost use Rattle.tm_volume_records.specs.Records.{head_key, entry_at};
ghost use Rattle.tm_volume_records.specs.Rules.{AreShort, IsGoodVolume, IsLeastBad};

use crate::fixed::FixedPaths;
use crate::head::{bad_record, check_journal, read_fixed, read_head};
use crate::indexing::{ItemsError, load_items};
use crate::positions::ABOVE_NUMBERS;
use crate::record_keys::ITEM_KEY;
use std::alloc::Global;
use tm_image::{Image, LoadError};
use tm_index::Index;
use tm_nodes::VolumeHead;
use tm_world::{Part, Side, World};

/// What was read of the records of a volume.
#[derive(Drop)]
pub struct Contents {
    /// The name, the id and the capacity.
    pub head: VolumeHead,
    /// The paths that are excluded from backups.
    pub fixed: FixedPaths,
    /// The number of the item at each place.
    pub numbers: Index,
}

/// The least key from `least` on at which a record stands. It takes no memory.
pub fn first_from(image: &Image, least: u64) -> Option<u64>
    ensures none { IfNone result ((key : ℕ) → least ≤ key → at key image.now.records ≡ None) }
    ensures some { IfSome result (λ key. IsSome (at key image.now.records) × (least ≤ key) × ((other : ℕ) → least ≤ other → other < key → at other image.now.records ≡ None)) }
{
    // The total comes with the order of the records.
    let _ = image.total();
    image.key_from(least)
}

/// The least key from `least` to `most` at which a record stands.
fn stray(image: &Image, least: u64, most: u64) -> Option<u64>
    ensures none { IfNone result ((key : ℕ) → least ≤ key → key ≤ most → at key image.now.records ≡ None) }
    ensures some { IfSome result (λ key. IsSome (at key image.now.records) × (least ≤ key) × (key ≤ most) × ((other : ℕ) → least ≤ other → other < key → at other image.now.records ≡ None)) }
{
    match first_from(image, least) {
        Some(key) => { if key <= most { Some(key) } else { None } }
        None => None,
    }
}

/// Checks all records of a volume with this clean mark and next number, by rising key, and reads what
/// they say (`docs/FORMATS.md`, "Records of a volume"). It writes nothing.
///
/// `Bad` comes with the cause `Record` and the least key that breaks a rule; `Fault` only where the
/// volume's count of faults rose.
pub fn check_records<W: World>(
    alloc: Global,
    world: &mut W,
    image: &Image,
    clean: bool,
    next: u64,
) -> Result<Contents, LoadError>
    requires side { image.now.side ≡ Side.Volume }
    requires count { length image.now.used ≡ W.blocks world.old Side.Volume }
    ensures head { IfOk result (λ c. HeadIn image.now.records c.head) }
    ensures items { IfOk result (λ c. (bytes : ℕ → List ℕ) → IsSound (items_from image.now.records bytes) × IsIndex (items_from image.now.records bytes) (numbers_in c.numbers)) }
    ensures short { OnOk result (AreShort image.now.records) }
    ensures fixed { W.told → IfOk result (λ c. option_map (λ e. paths_of e.bytes) (entry_at head_key (entries_of (disk Side.Volume (now (W.log world.old))).bytes image.now.records)) ≡ Some (Some c.fixed)) }
    ensures good { W.told → (generation : ℕ) → OnOk result (IsGoodVolume (entries_of (disk Side.Volume (now (W.log world.old))).bytes image.now.records) (record { clean = cond clean 1 0; generation = generation; next = next })) }
    ensures bad { W.told → (generation : ℕ) → IfBadKey result (IsLeastBad (entries_of (disk Side.Volume (now (W.log world.old))).bytes image.now.records) (record { clean = cond clean 1 0; generation = generation; next = next })) }
    ensures steps { W.told → Steps (W.log world.old) (W.log world.new) (now (W.log world.old)) }
    ensures blocks { W.blocks world.new ≡ W.blocks world.old }
    ensures never_less { NeverLess (W.faults world.old) (W.faults world.new) }
    ensures fault { IsErrOf result LoadError.Fault → Rose (W.faults world.old Part.Volume) (W.faults world.new Part.Volume) }
{
    if let Some(key) = stray(image, 0, 0) {
        return Err(bad_record(key));
    }
    let head = read_head(alloc, image)?;
    let fixed = read_fixed(alloc, world, image)?;
    check_journal(alloc, world, image, head.capacity, clean, next)?;
    if let Some(key) = stray(image, 3, ITEM_KEY) {
        return Err(bad_record(key));
    }
    let numbers = match load_items(alloc, image, next) {
        Ok(numbers) => numbers,
        Err(ItemsError::Bad(number)) => return Err(bad_record(ITEM_KEY + number)),
        Err(ItemsError::Memory) => return Err(LoadError::Memory),
    };
    if let Some(key) = first_from(image, ITEM_KEY + ABOVE_NUMBERS) {
        return Err(bad_record(key));
    }
    Ok(Contents {
        head,
        fixed,
        numbers,
    })
}
