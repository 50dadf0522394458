//! What the records of items say, each by itself.
ghost use Rattle.std.specs.Prelude.{◌≡◌, ◌↔◌, ◌≤◌, ◌<◌, ◌+◌, ◌==◌, ℕ, true, false, IsTrue, IfOk, OnOk, IfSome, IfNone, length};
ghost use Rattle.std.specs.Option.{option_copied, option_map};
ghost use Rattle.tm_records.specs.Records.{at};
ghost use Rattle.tm_volume_records.specs.Loads.{is_folder_body, row_in, position_of_row, position_at, KeepsOwn, ArePositionsBelow, IsWorst, NoneBetween};
ghost use Rattle.tm_volume_records.specs.Records.{item_key};
ghost use Rattle.tm_volume_records.specs.Rules.{HasData, HasStamp};
ghost use Rattle.tm_base.specs.Limits.{max_items};

use crate::check::first_from;
use crate::record_keys::ITEM_KEY;
use std::alloc::{AllocError, Global};
use tm_base::Name;
use tm_base::limits::{MAX_FILE_BYTES, MAX_ITEMS};
use tm_image::Image;
use tm_nodes::{NodeError, read_item};
use tm_tree::{ItemBody, ItemRow, LeafRow};

/// Above the greatest number of an item.
pub(crate) const ABOVE_NUMBERS: u64 = MAX_ITEMS + 1;

/// Where the item of a number stands, and whether it is a folder.
#[derive(Drop)]
pub(crate) struct Position {
    /// The number of the folder that holds it.
    pub(crate) parent: u64,
    /// Its name; the root has none.
    pub(crate) name: Option<Name>,
    /// Whether it is a folder itself.
    pub(crate) is_folder: bool,
}

/// The positions of all numbers, and the least number whose record is bad by itself.
#[derive(Drop)]
pub(crate) struct Survey {
    /// The position of each number from 0 to that of the last item, none where no record reads as an item.
    pub(crate) positions: Vec<Option<Position>>,
    /// The least number of a bad record, that above the greatest where none is bad.
    pub(crate) worst: u64,
}

/// The row of a number, if a record stands there that reads as an item.
pub(crate) fn read_row(
    alloc: Global,
    image: &Image,
    number: u64,
) -> Result<Option<ItemRow>, AllocError>
    requires { number ≤ max_items }
    ensures { IfOk result (λ row. row ≡ row_in image.now.records number) }
{
    let key = ITEM_KEY + number;
    match (image.meta(key), image.length(key)) {
        (Some(meta), Some(length)) => match read_item(alloc, key, meta, length) {
            Ok(row) => Ok(Some(row)),
            Err(NodeError::BadNode(_)) => Ok(None),
            Err(NodeError::Memory) => Err(AllocError),
        },
        _ => Ok(None),
    }
}

/// Whether a stamp was drawn.
fn is_drawn(next: u64, stamp: u64) -> bool
    ensures { IsTrue result ↔ ((1 ≤ stamp) × (stamp < next)) }
{
    1 <= stamp && stamp < next
}

/// Whether an item's data, of so many bytes, and its stamp keep their rules.
fn is_own(next: u64, body: &ItemBody, length: u64) -> bool
    ensures { IsTrue result ↔ (HasData body.now length × HasStamp next body.now) }
{
    match body {
        ItemBody::Folder { .. } => length == 0,
        ItemBody::Leaf(LeafRow::File { stamp, .. }) => {
            length <= MAX_FILE_BYTES && is_drawn(next, *stamp)
        }
        ItemBody::Leaf(LeafRow::Link { stamp, .. }) => length == 0 && is_drawn(next, *stamp),
    }
}

/// The position of a row.
fn position_of(row: ItemRow) -> Position
    ensures { result ≡ position_of_row row }
{
    let ItemRow { parent, name, body } = row;
    Position {
        parent,
        name,
        is_folder: matches!(body, ItemBody::Folder { .. }),
    }
}

/// The position of an item's row, if there is one.
fn position_in(row: Option<ItemRow>) -> Option<Position>
    ensures { result ≡ option_map position_of_row row }
{
    match row {
        Some(row) => Some(position_of(row)),
        None => None,
    }
}

/// Whether the record of a number, whose row this is, keeps the rules by itself.
fn keeps_own(image: &Image, next: u64, number: u64, row: &Option<ItemRow>) -> bool
    requires number { number ≤ max_items }
    requires row { row.now ≡ row_in image.now.records number }
    ensures { IsTrue result ↔ KeepsOwn image.now.records next number }
{
    match (row, image.length(ITEM_KEY + number)) {
        (Some(row), Some(length)) => is_own(next, &row.body, length),
        (_, None) => true,
        (None, Some(_)) => false,
    }
}

/// The lesser bad number, where this one is bad unless it is good.
fn worse(worst: u64, number: u64, good: bool) -> u64
    ensures kept { good ≡ true → result ≡ worst }
    ensures first { good ≡ false → (worst ≤ number → result ≡ worst) × (number < worst → result ≡ number) }
{
    if good { worst } else { worst.min(number) }
}

/// The least number from `from` on of which a record stands.
fn next_item(image: &Image, from: u64) -> Option<u64>
    requires { from ≤ max_items + 1 }
    ensures none { IfNone result (NoneBetween image.now.records from (max_items + 1)) }
    ensures some { IfSome result (λ number. (from ≤ number) × (number ≤ max_items) × NoneBetween image.now.records from number) }
{
    match first_from(image, ITEM_KEY + from) {
        Some(key) => {
            if key < ITEM_KEY + ABOVE_NUMBERS {
                Some(key - ITEM_KEY)
            } else {
                None
            }
        }
        None => None,
    }
}

/// Puts nothing behind the positions of lesser numbers, up to this one.
fn skip_to(positions: &mut Vec<Option<Position>>, number: u64) -> Result<(), AllocError>
    requires { length positions.old.items ≤ number }
    ensures many { OnOk result (length positions.new.items ≡ number) }
    ensures same { OnOk result ((m : ℕ) → position_at positions.new.items m ≡ position_at positions.old.items m) }
{
    for _gap in positions.len()..number as usize {
        positions.push(None)?;
    }
    Ok(())
}

/// Puts the position of a number behind those of lesser ones; numbers between have none.
fn put_position(
    positions: &mut Vec<Option<Position>>,
    number: u64,
    position: Option<Position>,
) -> Result<(), AllocError>
    requires { length positions.old.items ≤ number }
    ensures many { OnOk result (length positions.new.items ≡ number + 1) }
    ensures here { OnOk result (position_at positions.new.items number ≡ position) }
    ensures others { OnOk result ((m : ℕ) → m < number → position_at positions.new.items m ≡ position_at positions.old.items m) }
{
    skip_to(positions, number)?;
    positions.push(position)?;
    Ok(())
}

/// What the records of all items say, each by itself. It looks at the numbers that items have, and at
/// no others, and reads each record once.
pub(crate) fn survey_items(alloc: Global, image: &Image, next: u64) -> Result<Survey, AllocError>
    ensures positions { IfOk result (λ s. ArePositionsBelow image.now.records (max_items + 1) s.positions.items) }
    ensures worst { IfOk result (λ s. IsWorst image.now.records next (max_items + 1) s.worst) }
{
    let mut positions = Vec::new(alloc);
    let mut worst = ABOVE_NUMBERS;
    let mut from = 1;
    for _step in 1..ABOVE_NUMBERS {
        let Some(number) = next_item(image, from) else {
            return Ok(Survey { positions, worst });
        };
        let row = read_row(alloc, image, number)?;
        worst = worse(worst, number, keeps_own(image, next, number, &row));
        put_position(&mut positions, number, position_in(row))?;
        from = number + 1;
    }
    Ok(Survey { positions, worst })
}

/// The position of a number, if an item stands there.
pub(crate) fn position_at(positions: &[Option<Position>], number: u64) -> Option<&Position>
    ensures { option_copied result ≡ position_at positions.now number }
{
    match positions.get(number as usize) {
        Some(Some(position)) => Some(position),
        _ => None,
    }
}
