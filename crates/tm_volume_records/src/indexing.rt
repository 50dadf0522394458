//! What the records of items say, each in its place.
ghost use Rattle.std.specs.Prelude.{◌≡◌, ◌≤◌, ◌+◌, ℕ, List, true, false, Some, None, Err, IfOk, IfSome, IsSome, OnOk};
ghost use Rattle.tm_image.specs.Seen.{IsSound as IsSoundImage};
ghost use Rattle.tm_index.specs.Folders.{numbers_in};
ghost use Rattle.tm_items.specs.Index.{IsIndex, IsLoaded, SetsAt};
ghost use Rattle.tm_items.specs.Places.{at_name};
ghost use Rattle.tm_items.specs.Placings.{Items};
ghost use Rattle.tm_items.specs.Rules.{climbs, FollowsRules, IsSound};
ghost use Rattle.tm_volume_records.specs.Loads.{is_folder_position, is_root_body, is_root_row, items_from, row_in, position_at, ArePositions, ArePositionsBelow, IsFirstBad, KeepsOwn};
ghost use Rattle.tm_base.specs.Limits.{max_items, max_names};

use crate::positions::{ABOVE_NUMBERS, Position, position_at, read_row, survey_items};
use std::alloc::{AllocError, Global};
use tm_base::Name;
use tm_base::limits::MAX_NAMES;
use tm_image::Image;
use tm_index::Index;
use tm_tree::{ItemBody, ItemRow};

/// Why no index was made.
#[derive(Clone, Copy, Debug, PartialEq, Eq)]
pub(crate) enum ItemsError {
    /// The least number that breaks a rule.
    Bad(u64),
    /// Memory was refused.
    Memory,
}

impl From<AllocError> for ItemsError {
    ghost use Rattle.std.specs.Prelude.{◌≡◌};
    ghost use Rattle.tm_volume_records.specs.declared.indexing.ItemsError.TheVariants.{Memory};

    ghost from_gives = { λ _ error. error ≡ Memory };

    fn from(_error: AllocError) -> ItemsError {
        ItemsError::Memory
    }
}

/// Whether a folder stands under a number.
fn is_folder(positions: &[Option<Position>], number: u64) -> bool
    ensures { result ≡ is_folder_position (position_at positions.now number) }
{
    match position_at(positions, number) {
        Some(position) => position.is_folder,
        None => false,
    }
}

/// Whether the walk over parents comes to number 1 within as many steps as a path has names.
fn climbs(positions: &[Option<Position>], number: u64) -> bool
    ensures { (items : Items) → ArePositions items positions.now → result ≡ climbs max_names items number }
{
    let mut at = number;
    for _step in 0..MAX_NAMES {
        if at == 1 {
            return true;
        }
        match position_at(positions, at) {
            Some(position) => at = position.parent,
            None => return false,
        }
    }
    at == 1
}

/// Whether this may be the root: a folder without the exclusion attribute.
fn is_root_body(body: &ItemBody) -> bool
    ensures { result ≡ is_root_body body.now }
{
    match body {
        ItemBody::Folder { attrs } => !attrs.extra.has_exclusion(),
        ItemBody::Leaf(_) => false,
    }
}

/// Whether this row may stand under number 1.
fn is_root(row: &Option<ItemRow>) -> bool
    ensures { result ≡ is_root_row row.now }
{
    match row {
        Some(row) => row.parent == 0 && row.name.is_none() && is_root_body(&row.body),
        None => false,
    }
}

/// Whether a root stands under number 1.
fn has_root(alloc: Global, image: &Image) -> Result<bool, AllocError>
    ensures { IfOk result (λ root. root ≡ is_root_row (row_in image.now.records 1)) }
{
    let row = read_row(alloc, image, 1)?;
    Ok(is_root(&row))
}

fn copied(name: &Name) -> Result<Name, AllocError>
    ensures { IfOk result (λ copy. copy ≡ name.now) }
{
    Ok(name.clone()?)
}

/// Sets a number at a place of the index, and answers whether none was there.
fn set_free(numbers: &mut Index, parent: u64, name: Name, number: u64) -> Result<bool, AllocError>
    ensures free { IfOk result (λ free. free ≡ true → numbers_in numbers.old (at_name parent name) ≡ None) }
    ensures set { IfOk result (λ free. free ≡ true → SetsAt (at_name parent name) (Some number) (numbers_in numbers.old) (numbers_in numbers.new)) }
    ensures taken { IfOk result (λ free. free ≡ false → IsSome (numbers_in numbers.old (at_name parent name))) }
{
    if numbers.get(parent, &name).is_some() {
        return Ok(false);
    }
    numbers.insert(parent, name, number)?;
    Ok(true)
}

/// Takes one item more into the index, and answers whether it keeps the rules of its place.
fn place(
    image: &Image,
    positions: &[Option<Position>],
    numbers: &mut Index,
    number: u64,
) -> Result<bool, AllocError>
    requires sound { IsSoundImage image.now }
    requires number { (2 ≤ number) × (number ≤ max_items) }
    requires positions { ArePositionsBelow image.now.records (max_items + 1) positions.now }
    ensures kept { IfOk result (λ good. good ≡ true → (bytes : ℕ → List ℕ) → IsLoaded (items_from image.now.records bytes) number (numbers_in numbers.old)
        → IsLoaded (items_from image.now.records bytes) (number + 1) (numbers_in numbers.new)) }
    ensures broken { IfOk result (λ good. good ≡ false → (bytes : ℕ → List ℕ) → IsLoaded (items_from image.now.records bytes) number (numbers_in numbers.old)
        → ¬ FollowsRules (items_from image.now.records bytes) number) }
{
    let Some(position) = position_at(positions, number) else {
        return Ok(true);
    };
    if !is_folder(positions, position.parent) {
        return Ok(false);
    }
    if !climbs(positions, number) {
        return Ok(false);
    }
    match &position.name {
        Some(name) => set_free(numbers, position.parent, copied(name)?, number),
        None => Ok(false),
    }
}

/// The index of the items, or the least number that breaks a rule, by itself or in its place.
pub(crate) fn load_items(alloc: Global, image: &Image, next: u64) -> Result<Index, ItemsError>
    ensures items { IfOk result (λ index. (bytes : ℕ → List ℕ) → IsSound (items_from image.now.records bytes) × IsIndex (items_from image.now.records bytes) (numbers_in index)) }
    ensures own { OnOk result ((n : ℕ) → 1 ≤ n → n ≤ max_items → KeepsOwn image.now.records next n) }
    ensures bad { (n : ℕ) → result ≡ Err (ItemsError.Bad n) → IsFirstBad image.now.records next n }
{
    // The total comes with the order of the records.
    let _ = image.total();
    let survey = survey_items(alloc, image, next)?;
    if survey.worst == 1 {
        return Err(ItemsError::Bad(1));
    }
    let root = has_root(alloc, image)?;
    if !root {
        return Err(ItemsError::Bad(1));
    }
    let mut numbers = Index::new(alloc);
    for number in 2..survey.worst {
        let good = place(image, &survey.positions, &mut numbers, number)?;
        if !good {
            return Err(ItemsError::Bad(number));
        }
    }
    if survey.worst < ABOVE_NUMBERS {
        return Err(ItemsError::Bad(survey.worst));
    }
    Ok(numbers)
}
