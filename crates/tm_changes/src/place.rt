//! New items.
ghost use Rattle.std.specs.Prelude.{◌≡◌, ◌≤◌, ◌<◌, false, IfOk};
ghost use Rattle.tm_base.specs.Days.{last_moment};
ghost use Rattle.tm_base.specs.Paths.{is_root};
ghost use Rattle.tm_nodes.specs.Items.{IsItemRow};
ghost use Rattle.tm_records.specs.declared.record.Body.TheVariants.{Empty};
ghost use Rattle.tm_tree.specs.Trees.{last_of};
ghost use Rattle.tm_changes.specs.Placing.{MakesPlace, dated_row};
ghost use Rattle.tm_volume_records.specs.Records.{IsThere};
ghost use Rattle.tm_base.specs.Limits.{max_items};

use crate::destination::parent;
use std::alloc::AllocError;
use tm_base::{Moment, Name, Path};
use tm_records::{Body, Put};
use tm_tree::{ItemBody, ItemRow};
use tm_volume::{Edit, Entered, Volume, meta_of};
use tm_volume_records::{ITEM_KEY, JOURNAL_KEY};

/// The row, dated if it is a folder's.
pub(crate) fn dated(row: ItemRow, moment: Moment) -> ItemRow
    ensures row { result ≡ dated_row row moment }
    ensures low { moment ≤ last_moment }
{
    let _ = moment.seconds();
    let ItemRow { parent, name, body } = row;
    let body = match body {
        ItemBody::Folder { mut attrs } => {
            attrs.modified = moment;
            ItemBody::Folder { attrs }
        }
        ItemBody::Leaf(leaf) => ItemBody::Leaf(leaf),
    };
    ItemRow { parent, name, body }
}

/// The last name of a path that isn't the root's.
pub(crate) fn last_name(path: &Path) -> Result<Name, AllocError>
    requires { is_root path.now ≡ false }
    ensures { IfOk result (λ name. name ≡ last_of path.now) }
{
    let names = path.names();
    names[names.len() - 1].clone()
}

/// The edit that makes an item without data under a free number in a folder, which is dated.
pub(crate) fn place_edit(
    volume: &Volume,
    path: &Path,
    number: u64,
    folder: u64,
    row: &ItemRow,
    moment: Moment,
    next: u64,
) -> Result<Edit, AllocError>
    requires row { IsItemRow row.now }
    requires path { is_root path.now ≡ false }
    requires number { number ≤ max_items }
    requires folder { IsThere volume.now.image.records folder }
    ensures place { IfOk result (λ e. MakesPlace volume.now e number folder moment row.now (last_of path.now) Empty) }
    ensures next { IfOk result (λ e. e.next ≡ next) }
{
    volume.rules();
    let above = dated(volume.item_row(folder)?, moment);
    let first = Put {
        key: ITEM_KEY + number,
        meta: meta_of(volume.alloc(), row)?,
        body: Body::Empty,
    };
    let second = Put {
        key: ITEM_KEY + folder,
        meta: meta_of(volume.alloc(), &above)?,
        body: Body::Kept,
    };
    Ok(Edit {
        remove: vec![in volume.alloc(); JOURNAL_KEY]?,
        put: vec![in volume.alloc(); first, second]?,
        enter: Some(Entered {
            parent: folder,
            name: last_name(path)?,
            number,
        }),
        leave: None,
        fixed: None,
        next,
    })
}
