//! The record of an item that stands.
ghost use Rattle.std.specs.Prelude.{◌≡◌, ◌≤◌, ℕ, List, Some, None, IfOk, IfSome, IfNone};
ghost use Rattle.std.specs.Option.{option_map};
ghost use Rattle.tm_items.specs.Rules.{is_folder_placed};
ghost use Rattle.tm_nodes.specs.Items.{item_text, IsItemRow};
ghost use Rattle.tm_nodes.specs.Records.{item_of};
ghost use Rattle.tm_volume_records.specs.Records.{items_in, IsThere};
ghost use Rattle.tm_volume.specs.Room.{placed_row};
ghost use Rattle.tm_base.specs.Limits.{max_items};

use crate::Volume;
use std::alloc::{AllocError, Global};
use tm_image::Image;
use tm_nodes::{Kind, NodeError, item_meta, kind_of, read_item, spellings_are_found};
use tm_tree::ItemRow;
use tm_volume_records::ITEM_KEY;
use tm_world::Bytes;

/// The meta of an item's record (`docs/FORMATS.md`, "Records of a volume"). It fails only for want of
/// memory.
pub fn meta_of(alloc: Global, row: &ItemRow) -> Result<Bytes, AllocError>
    requires { IsItemRow row.now }
    ensures { IfOk result (λ meta. meta ≡ item_text row.now) }
{
    match item_meta(alloc, row) {
        Ok(meta) => Ok(meta),
        Err(_) => Err(AllocError),
    }
}

/// The meta and the length of the data of the record under a number, if one is there. It takes no
/// memory.
fn item_entry(image: &Image, number: u64) -> Option<(&[u8], u64)>
    requires { (1 ≤ number) × (number ≤ max_items) }
    ensures some { IfSome result (λ e. (bytes : ℕ → List ℕ) → item_of e.0.now e.1 ≡ option_map placed_row (items_in image.now.records bytes number)) }
    ensures none { IfNone result ((bytes : ℕ → List ℕ) → items_in image.now.records bytes number ≡ None) }
{
    spellings_are_found();
    // The total comes with the order of the records.
    let _ = image.total();
    let key = ITEM_KEY + number;
    match image.meta(key) {
        Some(meta) => Some((meta, image.length(key)?)),
        None => None,
    }
}

/// Whether the item under a number where one stands is a folder. It takes no memory.
pub(crate) fn is_folder(image: &Image, number: u64) -> bool
    requires { IsThere image.now.records number }
    ensures { (bytes : ℕ → List ℕ) → result ≡ is_folder_placed (items_in image.now.records bytes number) }
{
    spellings_are_found();
    let Some((meta, _)) = item_entry(image, number) else {
        return false;
    };
    match kind_of(meta) {
        Some(Kind::Folder) => true,
        Some(Kind::File) => false,
        Some(Kind::Link) => false,
        None => false,
    }
}

/// The record of the item under a number, if one stands there.
pub(crate) fn found_row(
    alloc: Global,
    image: &Image,
    number: u64,
) -> Result<Option<ItemRow>, AllocError>
    requires { (1 ≤ number) × (number ≤ max_items) }
    ensures { IfOk result (λ found. (bytes : ℕ → List ℕ) → option_map placed_row (items_in image.now.records bytes number) ≡ found) }
{
    let Some((meta, length)) = item_entry(image, number) else {
        return Ok(None);
    };
    match read_item(alloc, number, meta, length) {
        Ok(row) => Ok(Some(row)),
        Err(NodeError::BadNode(_)) => Ok(None),
        Err(NodeError::Memory) => Err(AllocError),
    }
}

/// The record of the item under a number where one stands.
pub(crate) fn item_row(alloc: Global, image: &Image, number: u64) -> Result<ItemRow, AllocError>
    requires { IsThere image.now.records number }
    ensures { IfOk result (λ row. (bytes : ℕ → List ℕ) → option_map placed_row (items_in image.now.records bytes number) ≡ Some row) }
{
    match found_row(alloc, image, number)? {
        Some(row) => Ok(row),
        None => unreachable!(),
    }
}

impl Volume {
    /// Whether the item under a number where one stands is a folder. It takes no memory.
    pub fn is_folder(&self, number: u64) -> bool
        requires { IsThere self.now.image.records number }
        ensures { (bytes : ℕ → List ℕ) → result ≡ is_folder_placed (items_in self.now.image.records bytes number) }
    {
        is_folder(&self.image, number)
    }

    /// The record of the item under a number where one stands, a file with its length. It fails only
    /// for want of memory.
    pub fn item_row(&self, number: u64) -> Result<ItemRow, AllocError>
        requires { IsThere self.now.image.records number }
        ensures { IfOk result (λ row. (bytes : ℕ → List ℕ) → option_map placed_row (items_in self.now.image.records bytes number) ≡ Some row) }
    {
        item_row(self.alloc, &self.image, number)
    }
}
