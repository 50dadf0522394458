//! What is written of a new item without data.
ghost use Rattle.std.specs.Prelude.{◌≡◌, ◌≤◌, ◌+◌, ◌^◌, Some, false, IfOk};
ghost use Rattle.tm_base.specs.Paths.{is_root};
ghost use Rattle.tm_tree.specs.Trees.{last_of};
ghost use Rattle.tm_changes.specs.Changes.{IsChange};
ghost use Rattle.tm_changes.specs.Placing.{IsNewRow};
ghost use Rattle.tm_changes.specs.Creations.{making, new_body, creation_of};
ghost use Rattle.tm_base.specs.Limits.{max_items};

use crate::place::last_name;
use std::alloc::{AllocError, Global};
use tm_base::{Moment, Path};
use tm_tree::{Attrs, ItemBody, ItemRow, LeafRow};
use tm_world::Bytes;

/// A new item without data.
#[derive(Drop)]
pub(crate) enum NewItem {
    /// A folder.
    Folder,
    /// A link to this target, 1 to 1,023 bytes.
    Link(Bytes),
}

/// How a new item is made.
#[derive(Drop)]
pub(crate) struct Creation {
    /// The number of its folder.
    pub folder: u64,
    /// Its record.
    pub row: ItemRow,
    /// Its date, and its folder's.
    pub date: Moment,
    /// The next number afterwards, at most 2^62.
    pub next: u64,
}

/// What a new item's record says of it. It takes no memory.
fn new_body(alloc: Global, item: NewItem, date: Moment, stamp: u64) -> ItemBody
    ensures { result ≡ new_body item date stamp }
{
    let attrs = Attrs::new(alloc, 0o755, date);
    match item {
        NewItem::Folder => ItemBody::Folder { attrs },
        NewItem::Link(target) => ItemBody::Leaf(LeafRow::Link {
            attrs,
            stamp,
            target,
        }),
    }
}

/// The plan of a new item in the folder of this number, which draws two numbers from this one on.
pub(crate) fn creation_of(
    alloc: Global,
    path: &Path,
    item: NewItem,
    folder: u64,
    date: Moment,
    drawn: u64,
) -> Result<Creation, AllocError>
    requires path { is_root path.now ≡ false }
    requires change { IsChange (making path.now item) }
    requires folder { folder ≤ max_items }
    requires drawn { (1 ≤ drawn) × (drawn + 2 ≤ 2 ^ 62) }
    ensures plan { IfOk result (λ plan. plan ≡ creation_of path.now item folder date drawn) }
    ensures row { IfOk result (λ plan. IsNewRow plan.row folder (last_of path.now) (drawn + 2)) }
{
    let name = last_name(path)?;
    // The bytes come with the rules of a name, the seconds with their bound.
    let _ = name.as_bytes();
    let _ = date.seconds();
    Ok(Creation {
        folder,
        row: ItemRow {
            parent: folder,
            name: Some(name),
            body: new_body(alloc, item, date, drawn),
        },
        date,
        next: drawn + 2,
    })
}
