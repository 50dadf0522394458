//! All items with their contents.
ghost use Rattle.std.specs.Prelude.{◌≡◌, ◌≤◌, ◌<◌, ◌+◌, ℕ, Some, None, List, length, IfOk, IfSome, IfNone, OnOk, Err};
ghost use Rattle.std.specs.Option.{option_map};
ghost use Rattle.tm_base.specs.declared.refused.Refused.{Refused};
ghost use Rattle.tm_base.specs.declared.refused.Side.{Side as RefusedSide};
ghost use Rattle.tm_chain.specs.Blob.{bytes_in};
ghost use Rattle.tm_items.specs.Computed.{path_to, tree_of};
ghost use Rattle.tm_items.specs.Rules.{IsSound};
ghost use Rattle.tm_records.specs.Records.{at};
ghost use Rattle.tm_world.specs.Faults.{BlamesOnly, NeverLess};
ghost use Rattle.tm_world.specs.Log.{now, Steps};
ghost use Rattle.tm_world.specs.Outside.{disk};
ghost use Rattle.tm_image.specs.Reads.{entries_of};
ghost use Rattle.tm_volume_records.specs.Records.{item_key, items_in, placings_of, IsThere};
ghost use Rattle.tm_volume.specs.Listed.{AddsItem};
ghost use Rattle.tm_volume.specs.Room.{placed_row};
ghost use Rattle.tm_volume.specs.Seen.{IsReady, tree_on};
ghost use Rattle.tm_base.specs.Limits.{max_items, max_names};

use crate::Volume;
use crate::row::{found_row, item_row};
use std::alloc::{AllocError, Global};
use std::collections::BTreeMap;
use tm_base::limits::{MAX_ITEMS, MAX_NAMES};
use tm_base::{LineFault, Path};
use tm_image::Image;
use tm_tree::{Item, ItemBody, ItemRow, LeafRow};
use tm_volume_records::{ITEM_KEY, first_from};
use tm_world::{Bytes, Side, World};

/// The least number from `least` on under which a record stands, if there is one. It takes no memory.
fn number_from(image: &Image, least: u64) -> Option<u64>
    requires { (1 ≤ least) × (least ≤ max_items + 1) }
    ensures some { IfSome result (λ n. (least ≤ n) × (n ≤ max_items) × ((bytes : ℕ → List ℕ) (m : ℕ) → least ≤ m → m < n → items_in image.now.records bytes m ≡ None)) }
    ensures none { IfNone result ((bytes : ℕ → List ℕ) (m : ℕ) → least ≤ m → items_in image.now.records bytes m ≡ None) }
{
    // The total comes with the order of the records.
    let _ = image.total();
    match first_from(image, ITEM_KEY + least) {
        Some(key) => {
            let number = key - ITEM_KEY;
            if number <= MAX_ITEMS {
                Some(number)
            } else {
                None
            }
        }
        None => None,
    }
}

/// The path of the item under a number where one stands, over at most so many folders.
fn path_of(alloc: Global, image: &Image, number: u64, steps: usize) -> Result<Path, AllocError>
    requires sound { (bytes : ℕ → List ℕ) → IsSound (items_in image.now.records bytes) }
    requires there { IsThere image.now.records number }
    requires steps { steps ≤ max_names }
    ensures path { IfOk result (λ path. (bytes : ℕ → List ℕ) → path ≡ path_to steps (items_in image.now.records bytes) number) }
    ensures short { IfOk result (λ path. length path ≤ steps) }
{
    if number == 1 || steps == 0 {
        return Ok(Path::root(alloc));
    }
    let ItemRow { parent, name, .. } = item_row(alloc, image, number)?;
    let mut path = path_of(alloc, image, parent, steps - 1)?;
    match name {
        Some(name) => {
            path.push(name)?;
            Ok(path)
        }
        None => Ok(path),
    }
}

/// The data of the record under a number, which are so many bytes.
fn read_data<W: World>(
    alloc: Global,
    image: &Image,
    world: &mut W,
    number: u64,
    count: u64,
) -> Result<Bytes, LineFault>
    requires number { number ≤ max_items }
    requires blocks { length image.now.used ≡ W.blocks world.old Side.Volume }
    requires side { image.now.side ≡ Side.Volume }
    requires count { option_map (λ r. r.length) (at (item_key number) image.now.records) ≡ Some count }
    ensures data { W.told → IfOk result (λ bytes. option_map (λ r. bytes_in r.blocks (disk Side.Volume (now (W.log world.old))).bytes 0 r.length) (at (item_key number) image.now.records) ≡ Some bytes) }
    ensures refused { (why : Refused) → result ≡ Err (LineFault.Refused why) → ⊥ }
    ensures steps { W.told → Steps (W.log world.old) (W.log world.new) (now (W.log world.old)) }
    ensures blocks { W.blocks world.new ≡ W.blocks world.old }
    ensures never_less { NeverLess (W.faults world.old) (W.faults world.new) }
    ensures fault { BlamesOnly RefusedSide.Volume result (W.faults world.old) (W.faults world.new) }
{
    let mut bytes = vec![in alloc; 0u8; count as usize]?;
    match image.read_part(world, ITEM_KEY + number, 0, bytes.as_mut_slice()) {
        Ok(()) => Ok(Bytes::of(bytes)),
        Err(_) => Err(LineFault::Fault(tm_base::Side::Volume)),
    }
}

/// The item under a number where one stands, with its bytes.
fn whole_item<W: World>(
    alloc: Global,
    image: &Image,
    world: &mut W,
    number: u64,
    row: ItemRow,
) -> Result<Item, LineFault>
    requires number { (1 ≤ number) × (number ≤ max_items) }
    requires blocks { length image.now.used ≡ W.blocks world.old Side.Volume }
    requires side { image.now.side ≡ Side.Volume }
    requires row { (bytes : ℕ → List ℕ) → option_map placed_row (items_in image.now.records bytes number) ≡ Some row }
    ensures item { W.told → IfOk result (λ e. option_map (λ x. x.item) (items_in image.now.records (disk Side.Volume (now (W.log world.old))).bytes number) ≡ Some e) }
    ensures refused { (why : Refused) → result ≡ Err (LineFault.Refused why) → ⊥ }
    ensures steps { W.told → Steps (W.log world.old) (W.log world.new) (now (W.log world.old)) }
    ensures blocks { W.blocks world.new ≡ W.blocks world.old }
    ensures never_less { NeverLess (W.faults world.old) (W.faults world.new) }
    ensures fault { BlamesOnly RefusedSide.Volume result (W.faults world.old) (W.faults world.new) }
{
    // The total comes with the order of the records.
    let _ = image.total();
    let ItemRow { body, .. } = row;
    match body {
        ItemBody::Folder { attrs } => Ok(Item::Folder { attrs }),
        ItemBody::Leaf(
            LeafRow::File {
                attrs,
                stamp,
                length,
            },
        ) => Ok(Item::File {
            attrs,
            stamp,
            bytes: read_data(alloc, image, world, number, length)?,
        }),
        ItemBody::Leaf(
            LeafRow::Link {
                attrs,
                stamp,
                target,
            },
        ) => Ok(Item::Link {
            attrs,
            stamp,
            target,
        }),
    }
}

/// Adds the item under a number at its path, if one stands there.
fn add_item<W: World>(
    alloc: Global,
    image: &Image,
    world: &mut W,
    items: &mut BTreeMap<Path, Item>,
    number: u64,
) -> Result<(), LineFault>
    requires number { (1 ≤ number) × (number ≤ max_items) }
    requires blocks { length image.now.used ≡ W.blocks world.old Side.Volume }
    requires side { image.now.side ≡ Side.Volume }
    requires sound { (bytes : ℕ → List ℕ) → IsSound (items_in image.now.records bytes) }
    ensures added { W.told → OnOk result (AddsItem (items_in image.now.records (disk Side.Volume (now (W.log world.old))).bytes) number items.old.entries items.new.entries) }
    ensures refused { (why : Refused) → result ≡ Err (LineFault.Refused why) → ⊥ }
    ensures steps { W.told → Steps (W.log world.old) (W.log world.new) (now (W.log world.old)) }
    ensures blocks { W.blocks world.new ≡ W.blocks world.old }
    ensures never_less { NeverLess (W.faults world.old) (W.faults world.new) }
    ensures fault { BlamesOnly RefusedSide.Volume result (W.faults world.old) (W.faults world.new) }
{
    match found_row(alloc, image, number)? {
        Some(row) => {
            let path = path_of(alloc, image, number, MAX_NAMES)?;
            let item = whole_item(alloc, image, world, number, row)?;
            items.insert(path, item)?;
            Ok(())
        }
        None => Ok(()),
    }
}

/// All items of an image of the volume's side.
fn read_items<W: World>(
    alloc: Global,
    image: &Image,
    world: &mut W,
) -> Result<BTreeMap<Path, Item>, LineFault>
    requires blocks { length image.now.used ≡ W.blocks world.old Side.Volume }
    requires side { image.now.side ≡ Side.Volume }
    requires sound { (bytes : ℕ → List ℕ) → IsSound (items_in image.now.records bytes) }
    ensures items { W.told → IfOk result (λ items. items.entries ≡ tree_of (placings_of (entries_of (disk Side.Volume (now (W.log world.old))).bytes image.now.records))) }
    ensures refused { (why : Refused) → result ≡ Err (LineFault.Refused why) → ⊥ }
    ensures steps { W.told → Steps (W.log world.old) (W.log world.new) (now (W.log world.old)) }
    ensures blocks { W.blocks world.new ≡ W.blocks world.old }
    ensures never_less { NeverLess (W.faults world.old) (W.faults world.new) }
    ensures fault { BlamesOnly RefusedSide.Volume result (W.faults world.old) (W.faults world.new) }
{
    // The total comes with the order of the records.
    let _ = image.total();
    let mut items = BTreeMap::new(alloc);
    let mut least = 1;
    while let Some(number) = number_from(image, least) {
        add_item(alloc, image, world, &mut items, number)?;
        least = number + 1;
    }
    Ok(items)
}

impl Volume {
    /// All items with their contents, by path. It fails only for want of memory, or where the
    /// volume's count of faults rose.
    pub fn items<W: World>(&self, world: &mut W) -> Result<BTreeMap<Path, Item>, LineFault>
        requires ready { IsReady self.now (W.blocks world.old Side.Volume) }
        ensures items { W.told → IfOk result (λ items. items.entries ≡ tree_on self.now (disk Side.Volume (now (W.log world.old))).bytes) }
        ensures refused { (why : Refused) → result ≡ Err (LineFault.Refused why) → ⊥ }
        ensures steps { W.told → Steps (W.log world.old) (W.log world.new) (now (W.log world.old)) }
        ensures blocks { W.blocks world.new ≡ W.blocks world.old }
        ensures never_less { NeverLess (W.faults world.old) (W.faults world.new) }
        ensures fault { BlamesOnly RefusedSide.Volume result (W.faults world.old) (W.faults world.new) }
    {
        read_items(self.alloc, &self.image, world)
    }
}
