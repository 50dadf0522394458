// The walk to an item and a folder's listing, over maps whose values hold an item each.
ghost use Rattle.std.specs.Prelude.{◌≡◌, IfOk, map};
ghost use Rattle.std.specs.Option.{option_copied};
ghost use Rattle.tm_plain.specs.Entries.{named};
ghost use Rattle.tm_plain.specs.ItemsOf.{items_of};
ghost use Rattle.tm_tree.specs.Listings.{listing, list_rows, entries_of};
ghost use Rattle.tm_tree.specs.Trees.{item_at};
ghost use Rattle.tm_tree.specs.Walks.{walk, Finds};
ghost use Rattle.tm_tree.specs.declared.item.Item.{Item as item};

use crate::paths::entry_name;
use std::alloc::{AllocError, Global};
use std::collections::BTreeMap;
use tm_base::{LineFault, Name, Path, Refused};
use tm_tree::{Item, Labelled, ListRow, ListRows, Listing};

/// An entry of a folder.
#[derive(Clone, Copy)]
pub struct Entry<'a> {
    /// The name under which it stands.
    pub name: &'a Name,
    /// What stands there.
    pub item: &'a Item,
}

// A value that holds an item.
pub(crate) trait HasItem {
    ghost item_of: { Self → item };

    fn item(&self) -> &Item
        ensures { result.now ≡ item_of self.now };
}

impl HasItem for Item {
    ghost item_of = { λ e. e };

    fn item(&self) -> &Item {
        self
    }
}

impl HasItem for Labelled {
    ghost item_of = { λ l. l.item };

    fn item(&self) -> &Item {
        &self.item
    }
}

#[tactic(auto, using(crate::proofs::ItemLemmas::at_item))]
// What stands at a path.
pub(crate) fn get<'a, V: HasItem>(items: &'a BTreeMap<Path, V>, path: &Path) -> Option<&'a Item>
    ensures { option_copied result ≡ item_at (items_of V.item_of items.now.entries) path.now }
{
    match items.get(path) {
        Some(value) => Some(value.item()),
        None => None,
    }
}

// The item that the walk down a path comes to.
pub(crate) fn find<'a, V: HasItem>(
    items: &'a BTreeMap<Path, V>,
    path: &Path,
) -> Result<&'a Item, LineFault>
    ensures { Finds (walk (items_of V.item_of items.now.entries) path.now) result }
{
    for count in 0..path.names().len() {
        match get(items, &path.first(count)?) {
            None => return Err(LineFault::Refused(Refused::NotFound)),
            Some(item) => {
                if !item.is_folder() {
                    return Err(LineFault::Refused(Refused::NotFolder));
                }
            }
        }
    }
    match get(items, path) {
        None => Err(LineFault::Refused(Refused::NotFound)),
        Some(item) => Ok(item),
    }
}

// The folder at a path and what it holds.
pub(crate) fn list<V: HasItem>(
    alloc: Global,
    items: &BTreeMap<Path, V>,
    path: &Path,
) -> Result<Option<Listing>, AllocError>
    ensures { IfOk result (λ found. found ≡ listing (items_of V.item_of items.now.entries) path.now) }
{
    let Some(item) = get(items, path) else {
        return Ok(None);
    };
    if !item.is_folder() {
        return Ok(None);
    }
    Ok(Some(Listing {
        attrs: item.attrs().clone()?,
        rows: list_rows(alloc, items, path)?,
    }))
}

fn list_rows<V: HasItem>(
    alloc: Global,
    items: &BTreeMap<Path, V>,
    path: &Path,
) -> Result<ListRows, AllocError>
    ensures { IfOk result (λ rows. rows ≡ list_rows (items_of V.item_of items.now.entries) path.now) }
{
    let mut rows = Vec::new(alloc);
    for (at, value) in items {
        if let Some(name) = entry_name(path, at) {
            rows.push(ListRow {
                name: name.clone()?,
                kind: value.item().listed()?,
            })?;
        }
    }
    Ok(ListRows::of(rows))
}

// The entries of the folder at a path, by rising name.
pub(crate) fn entries<'a, V: HasItem>(
    alloc: Global,
    items: &'a BTreeMap<Path, V>,
    path: &Path,
) -> Result<Vec<Entry<'a>>, AllocError>
    ensures { IfOk result (λ found. map named found.items ≡ entries_of (items_of V.item_of items.now.entries) path.now) }
{
    let mut entries = Vec::new(alloc);
    for (at, value) in items {
        if let Some(name) = entry_name(path, at) {
            entries.push(Entry {
                name,
                item: value.item(),
            })?;
        }
    }
    Ok(entries)
}
