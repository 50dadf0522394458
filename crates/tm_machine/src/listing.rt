//! The data lines of items on the volume.
ghost use Rattle.std.specs.Prelude.{if◌then◌else◌, ◌≡◌, ◌∷◌, [], ◌++◌, ℕ, List, true, IfOk, OnOk, Ok, Err, map};
ghost use Rattle.tm_base.specs.declared.refused.Refused.{Refused};
ghost use Rattle.tm_base.specs.LineFaults.{NoFault};
ghost use Rattle.tm_tree.specs.Changes.{item_tests};
ghost use Rattle.tm_tree.specs.Items.{is_folder};
ghost use Rattle.tm_tree.specs.Listings.{entries_of, listed, list_rows as rows_of};
ghost use Rattle.tm_tree.specs.Walks.{walk};
ghost use Rattle.tm_tree.specs.declared.item.Item.{Item};
ghost use Rattle.tm_volume.specs.Answers.{FindsRow};
ghost use Rattle.tm_volume.specs.Seen.{tree_on};
ghost use Rattle.tm_machine.specs.Answers.{AnswersQuery};
ghost use Rattle.tm_machine.specs.Queries.{body_attrs, body_row, list_rows, named_row};

use crate::stored::{attributes, push_extras};
use std::alloc::{AllocError, Global};
use tm_base::{LineFault, Path};
use tm_reply::{ListedName, ReplyRow, ReplyRows};
use tm_tree::{Attrs, ItemBody, ItemRow, LeafRow, ListKind, ListRow};
use tm_volume::Volume;

fn attrs_of(body: &ItemBody) -> &Attrs
    ensures { result.now ≡ body_attrs body.now }
{
    match body {
        ItemBody::Folder { attrs } => attrs,
        ItemBody::Leaf(LeafRow::File { attrs, .. }) => attrs,
        ItemBody::Leaf(LeafRow::Link { attrs, .. }) => attrs,
    }
}

// The line of an item's record under this name.
fn body_row(body: &ItemBody, name: ListedName) -> Result<ReplyRow, AllocError>
    ensures { IfOk result (λ row. row ≡ body_row body.now name) }
{
    Ok(match body {
        ItemBody::Folder { attrs } => ReplyRow::Folder {
            attributes: attributes(attrs),
            name,
        },
        ItemBody::Leaf(
            LeafRow::File {
                attrs,
                stamp,
                length,
            },
        ) => ReplyRow::File {
            attributes: attributes(attrs),
            length: *length,
            stamp: *stamp,
            name,
        },
        ItemBody::Leaf(
            LeafRow::Link {
                attrs,
                stamp,
                target,
            },
        ) => ReplyRow::Link {
            attributes: attributes(attrs),
            stamp: *stamp,
            name,
            target: target.clone()?,
        },
    })
}

// The record of an entry of the folder at a path.
fn find_entry(volume: &Volume, path: &Path, row: &ListRow) -> Result<ItemRow, LineFault>
    ensures { (bytes : ℕ → List ℕ) → FindsRow (walk (tree_on volume.now bytes) (path.now ++ row.now.name ∷ [])) result }
{
    match path.child(&row.name) {
        Ok(entry) => volume.find(&entry),
        // no item stands under more than 64 names
        Err(_) => Err(LineFault::Memory),
    }
}

// The line of an entry that is a folder, by its own record.
fn folder_row(volume: &Volume, path: &Path, row: &ListRow) -> Result<ReplyRow, LineFault>
    ensures row { (bytes : ℕ → List ℕ) (e : Item) → walk (tree_on volume.now bytes) (path.now ++ row.now.name ∷ []) ≡ Ok e
        → IfOk result (λ found. found ≡ named_row (row.now.name, e)) }
    ensures refused { (bytes : ℕ → List ℕ) (e : Item) (why : Refused) → walk (tree_on volume.now bytes) (path.now ++ row.now.name ∷ []) ≡ Ok e
        → result ≡ Err (LineFault.Refused why) → ⊥ }
    ensures fault { NoFault result }
{
    let name = ListedName::Entry(row.name.clone()?);
    let found = find_entry(volume, path, row)?;
    Ok(body_row(&found.body, name)?)
}

// The line of a folder's entry.
fn entry_row(volume: &Volume, path: &Path, row: &ListRow) -> Result<ReplyRow, LineFault>
    ensures row { (bytes : ℕ → List ℕ) (e : Item) → row.now.kind ≡ listed e → walk (tree_on volume.now bytes) (path.now ++ row.now.name ∷ []) ≡ Ok e
        → IfOk result (λ found. found ≡ named_row (row.now.name, e)) }
    ensures refused { (bytes : ℕ → List ℕ) (e : Item) (why : Refused) → walk (tree_on volume.now bytes) (path.now ++ row.now.name ∷ []) ≡ Ok e
        → result ≡ Err (LineFault.Refused why) → ⊥ }
    ensures fault { NoFault result }
{
    match &row.kind {
        ListKind::Folder => folder_row(volume, path, row),
        ListKind::File {
            attrs,
            stamp,
            length,
        } => Ok(ReplyRow::File {
            attributes: attributes(attrs),
            length: *length,
            stamp: *stamp,
            name: ListedName::Entry(row.name.clone()?),
        }),
        ListKind::Link {
            attrs,
            stamp,
            target,
        } => Ok(ReplyRow::Link {
            attributes: attributes(attrs),
            stamp: *stamp,
            name: ListedName::Entry(row.name.clone()?),
            target: target.clone()?,
        }),
    }
}

// Adds the lines of the entries of the folder at a path.
fn push_entries(
    rows: &mut ReplyRows,
    volume: &Volume,
    path: &Path,
    entries: &[ListRow],
) -> Result<(), LineFault>
    ensures ok { (bytes : ℕ → List ℕ) (folder : Item) → walk (tree_on volume.now bytes) path.now ≡ Ok folder → is_folder folder ≡ true → entries.now ≡ rows_of (tree_on volume.now bytes) path.now
        → OnOk result (rows.new ≡ rows.old ++ map named_row (entries_of (tree_on volume.now bytes) path.now)) }
    ensures refused { (bytes : ℕ → List ℕ) (folder : Item) → walk (tree_on volume.now bytes) path.now ≡ Ok folder → is_folder folder ≡ true → entries.now ≡ rows_of (tree_on volume.now bytes) path.now
        → (why : Refused) → result ≡ Err (LineFault.Refused why) → ⊥ }
    ensures fault { NoFault result }
{
    for row in entries {
        let line = entry_row(volume, path, row)?;
        rows.push(line)?;
    }
    Ok(())
}

// Adds the lines of the entries of the item at a path, if it is a folder.
fn push_listing(rows: &mut ReplyRows, volume: &mut Volume, path: &Path) -> Result<(), LineFault>
    ensures ok { (bytes : ℕ → List ℕ) (e : Item) → walk (tree_on volume.old bytes) path.now ≡ Ok e
        → OnOk result (rows.new ≡ rows.old ++ (if is_folder e then map named_row (entries_of (tree_on volume.old bytes) path.now) else [])) }
    ensures refused { (bytes : ℕ → List ℕ) (e : Item) (why : Refused) → walk (tree_on volume.old bytes) path.now ≡ Ok e → result ≡ Err (LineFault.Refused why) → ⊥ }
    ensures fault { NoFault result }
    ensures same { volume.new ≡ record volume.old { looks = volume.new.looks } }
{
    let Some(listing) = volume.list(path)? else {
        return Ok(());
    };
    push_entries(rows, volume, path, listing.rows.as_slice())
}

/// Lists the item at a path: its line, those of its extras, and of its entries. Only the count of
/// looks of the volume may rise.
pub(crate) fn show_item(
    alloc: Global,
    volume: &mut Volume,
    path: &Path,
) -> Result<ReplyRows, LineFault>
    ensures answer { (bytes : ℕ → List ℕ) → AnswersQuery (item_tests (tree_on volume.old bytes) path.now) (list_rows (tree_on volume.old bytes) path.now) result }
    ensures same { volume.new ≡ record volume.old { looks = volume.new.looks } }
{
    let row = volume.find(path)?;
    let mut rows = ReplyRows::new(alloc);
    rows.push(body_row(&row.body, ListedName::Path(path.clone()?))?)?;
    push_extras(&mut rows, attrs_of(&row.body))?;
    push_listing(&mut rows, volume, path)?;
    Ok(rows)
}
