//! Folders.
ghost use Rattle.std.specs.Prelude.{◌≡◌, ◌+◌, ◌-◌, ◌^◌, ℕ, List, min, is_some, if◌then◌else◌, IfOk, OnErr};
ghost use Rattle.tm_index.specs.Folders.{numbers_in};
ghost use Rattle.tm_items.specs.Listing.{AreEntries};
ghost use Rattle.tm_tree.specs.Listings.{listing};
ghost use Rattle.tm_volume.specs.Listed.{listed_body, AreThere, listed_rows, HasListed};
ghost use Rattle.tm_volume_records.specs.Records.{items_in};
ghost use Rattle.tm_volume.specs.Seen.{tree_on};

use crate::Volume;
use crate::row::item_row;
use std::alloc::{AllocError, Global};
use std::collections::BTreeMap;
use tm_base::{Name, Path};
use tm_image::Image;
use tm_index::Index;
use tm_tree::{ItemBody, ItemRow, LeafRow, ListKind, ListRow, ListRows, Listing};

/// What a listing says of an item with this record.
fn list_kind(body: ItemBody) -> ListKind
    ensures { result ≡ listed_body body }
{
    match body {
        ItemBody::Folder { .. } => ListKind::Folder,
        ItemBody::Leaf(
            LeafRow::File {
                attrs,
                stamp,
                length,
            },
        ) => ListKind::File {
            attrs,
            stamp,
            length,
        },
        ItemBody::Leaf(
            LeafRow::Link {
                attrs,
                stamp,
                target,
            },
        ) => ListKind::Link {
            attrs,
            stamp,
            target,
        },
    }
}

/// The rows of a folder with these entries, under whose numbers items stand.
fn list_rows(
    alloc: Global,
    image: &Image,
    entries: &BTreeMap<Name, u64>,
) -> Result<ListRows, AllocError>
    requires { AreThere image.now.records entries.now.entries }
    ensures { IfOk result (λ rows. (bytes : ℕ → List ℕ) → rows ≡ listed_rows (items_in image.now.records bytes) entries.now.entries) }
{
    let mut rows = Vec::new(alloc);
    for (name, number) in entries {
        let ItemRow { body, .. } = item_row(alloc, image, *number)?;
        rows.push(ListRow {
            name: name.clone()?,
            kind: list_kind(body),
        })?;
    }
    Ok(ListRows::of(rows))
}

/// The rows of the folder under a number, under whose entries' numbers items stand.
fn folder_rows(
    alloc: Global,
    image: &Image,
    numbers: &Index,
    number: u64,
) -> Result<ListRows, AllocError>
    requires { (entries : List (List ℕ × ℕ)) → AreEntries (numbers_in numbers.now) number entries → AreThere image.now.records entries }
    ensures { IfOk result (HasListed image.now.records (numbers_in numbers.now) number) }
{
    match numbers.folder(number) {
        Some(entries) => list_rows(alloc, image, entries),
        None => Ok(ListRows::of(Vec::new(alloc))),
    }
}

impl Volume {
    /// The folder at a path; none exactly where no folder stands there.
    fn listing(&self, path: &Path) -> Result<Option<Listing>, AllocError>
        ensures { IfOk result (λ found. (bytes : ℕ → List ℕ) → found ≡ listing (tree_on self.now bytes) path.now) }
    {
        // The total comes with the order of the records.
        let _ = self.image.total();
        let Ok(number) = self.number_at(path) else {
            return Ok(None);
        };
        let ItemRow { body, .. } = item_row(self.alloc, &self.image, number)?;
        match body {
            ItemBody::Folder { attrs } => Ok(Some(Listing {
                attrs,
                rows: folder_rows(self.alloc, &self.image, &self.numbers, number)?,
            })),
            ItemBody::Leaf(_) => Ok(None),
        }
    }

    /// The folder at a path: its attributes and its entries by rising name; none exactly where no
    /// folder stands there. The count of looks rises by one exactly where a listing comes.
    pub fn list(&mut self, path: &Path) -> Result<Option<Listing>, AllocError>
        ensures listing { (bytes : ℕ → List ℕ) → IfOk result (λ found. found ≡ listing (tree_on self.old bytes) path.now) }
        ensures looks { IfOk result (λ found. self.new ≡ record self.old { looks = if is_some found then min (self.old.looks + 1) (2 ^ 64 - 1) else self.old.looks }) }
        ensures err { OnErr result (self.new ≡ self.old) }
    {
        let found = self.listing(path)?;
        if found.is_some() {
            self.looks = self.looks.saturating_add(1);
        }
        Ok(found)
    }
}
