//! Other attributes of an item.
ghost use Rattle.std.specs.Prelude.{◌≡◌, ◌≤◌, ℕ, List, Option, IfOk, length};
ghost use Rattle.tm_nodes.specs.Attrs.{IsAttrs};
ghost use Rattle.tm_nodes.specs.Items.{item_attrs, IsItemRow};
ghost use Rattle.tm_tree.specs.Extras.{with_extra, without_extra};
ghost use Rattle.tm_tree.specs.Refusing.{first_refused};
ghost use Rattle.tm_tree.specs.Touches.{touches};
ghost use Rattle.tm_changes.specs.Attributes.{SetsAttrs, IsReset, attrs_after, attrs_tests, body_stamps, count_with, extras_after, reset_body, reset_row};
ghost use Rattle.tm_changes.specs.Changes.{IsChange};
ghost use Rattle.tm_changes.specs.Plans.{Plans};
ghost use Rattle.tm_volume.specs.Seen.{tree_on};
ghost use Rattle.tm_base.specs.Limits.{max_items, max_extras, max_value_bytes};

use std::alloc::{AllocError, Global};
use tm_base::limits::MAX_EXTRAS;
use tm_base::{LineFault, Name, Path, Refused};
use tm_records::{Body, Put};
use tm_tree::{Attrs, Change, ItemBody, ItemRow, LeafRow, Touches, is_exclusion};
use tm_volume::{Edit, MAX_NEXT, Volume, meta_of};
use tm_volume_records::{ITEM_KEY, JOURNAL_KEY};
use tm_world::Bytes;

/// The attributes of an item.
fn attrs_of(body: &ItemBody) -> &Attrs
    ensures { result.now ≡ item_attrs body.now }
{
    match body {
        ItemBody::Folder { attrs } => attrs,
        ItemBody::Leaf(LeafRow::File { attrs, .. }) => attrs,
        ItemBody::Leaf(LeafRow::Link { attrs, .. }) => attrs,
    }
}

/// How many stamps an item draws that gets other attributes.
fn stamps(body: &ItemBody) -> u64
    ensures value { result ≡ body_stamps body.now }
    ensures few { result ≤ 1 }
{
    match body {
        ItemBody::Folder { .. } => 0,
        ItemBody::Leaf(_) => 1,
    }
}

/// How many extras there are with this one.
fn count_with(attrs: &Attrs, name: &Name) -> u128
    ensures { result ≡ count_with name.now attrs.now }
{
    let count = attrs.extra.len() as u128;
    if attrs.extra.get(name).is_some() {
        count
    } else {
        count + 1
    }
}

/// Why such a change of these attributes is refused, if it is; the root can't be excluded.
fn attrs_refusal(attrs: &Attrs, change: &Change, root: bool) -> Option<Refused>
    ensures { result ≡ first_refused (attrs_tests change.now root attrs.now) }
{
    match change {
        Change::Setx { name, .. } => {
            let count = count_with(attrs, name);
            if count > MAX_EXTRAS as u128 {
                Some(Refused::TooMany { count })
            } else if root && is_exclusion(name) {
                Some(Refused::RootItem)
            } else {
                None
            }
        }
        Change::Rmx { name, .. } => {
            if attrs.extra.get(name).is_some() {
                None
            } else {
                Some(Refused::NoAttribute)
            }
        }
        _ => None,
    }
}

/// The attributes with this extra.
fn set_extra(mut attrs: Attrs, name: &Name, value: &Bytes) -> Result<Attrs, AllocError>
    requires value { length value.now ≤ max_value_bytes }
    requires attrs { IsAttrs attrs }
    requires few { count_with name.now attrs ≤ max_extras }
    ensures value { IfOk result (λ new. new ≡ record attrs { extra = with_extra name.now value.now attrs.extra }) }
    ensures rules { IfOk result IsAttrs }
{
    // Its bytes come with the rules of a name, and the number of extras with their order.
    let _ = name.as_bytes();
    attrs.extra.put(name.clone()?, value.clone()?)?;
    let _ = attrs.extra.values().len();
    Ok(attrs)
}

/// The attributes without this extra. It takes no memory.
fn remove_extra(mut attrs: Attrs, name: &Name) -> Attrs
    requires attrs { IsAttrs attrs }
    ensures value { result ≡ record attrs { extra = without_extra name.now attrs.extra } }
    ensures rules { IsAttrs result }
{
    attrs.extra.remove(name);
    // Their number comes with their order.
    let _ = attrs.extra.values().len();
    attrs
}

/// The attributes after a change of them.
fn changed_attrs(mut attrs: Attrs, change: &Change) -> Result<Attrs, AllocError>
    requires change { IsChange change.now }
    requires attrs { IsAttrs attrs }
    requires few { extras_after change.now attrs ≤ max_extras }
    ensures value { IfOk result (λ new. new ≡ attrs_after change.now attrs) }
    ensures rules { IfOk result IsAttrs }
{
    match change {
        Change::Chmod { mode, .. } => {
            attrs.mode = *mode;
            Ok(attrs)
        }
        Change::Chown { uid, gid, .. } => {
            attrs.uid = *uid;
            attrs.gid = *gid;
            Ok(attrs)
        }
        Change::Setx { name, value, .. } => set_extra(attrs, name, value),
        Change::Rmx { name, .. } => Ok(remove_extra(attrs, name)),
        _ => Ok(attrs),
    }
}

/// An item with other attributes, and with this stamp if it is a file or link.
fn changed_body(body: ItemBody, change: &Change, stamp: u64) -> Result<ItemBody, AllocError>
    requires change { IsChange change.now }
    requires attrs { IsAttrs (item_attrs body) }
    requires few { extras_after change.now (item_attrs body) ≤ max_extras }
    ensures value { IfOk result (λ new. new ≡ reset_body change.now stamp body) }
    ensures rules { IfOk result (λ new. IsAttrs (item_attrs new)) }
{
    match body {
        ItemBody::Folder { attrs } => Ok(ItemBody::Folder {
            attrs: changed_attrs(attrs, change)?,
        }),
        ItemBody::Leaf(LeafRow::File { attrs, length, .. }) => Ok(ItemBody::Leaf(LeafRow::File {
            attrs: changed_attrs(attrs, change)?,
            stamp,
            length,
        })),
        ItemBody::Leaf(LeafRow::Link { attrs, target, .. }) => Ok(ItemBody::Leaf(LeafRow::Link {
            attrs: changed_attrs(attrs, change)?,
            stamp,
            target,
        })),
    }
}

/// The row with other attributes, and with this stamp if it is a file's or a link's.
fn reset(row: ItemRow, change: &Change, stamp: u64) -> Result<ItemRow, AllocError>
    requires change { IsChange change.now }
    requires row { IsItemRow row }
    requires few { extras_after change.now (item_attrs row.body) ≤ max_extras }
    ensures value { IfOk result (λ new. new ≡ reset_row change.now stamp row) }
    ensures rules { IfOk result IsItemRow }
{
    let ItemRow { parent, name, body } = row;
    let body = changed_body(body, change, stamp)?;
    Ok(ItemRow { parent, name, body })
}

/// The edit that puts another row under a number.
fn reset_edit(alloc: Global, number: u64, row: &ItemRow, next: u64) -> Result<Edit, AllocError>
    requires row { IsItemRow row.now }
    requires number { number ≤ max_items }
    ensures { IfOk result (λ e. IsReset e number row.now next) }
{
    let put = Put {
        key: ITEM_KEY + number,
        meta: meta_of(alloc, row)?,
        body: Body::Kept,
    };
    Ok(Edit {
        remove: vec![in alloc; JOURNAL_KEY]?,
        put: vec![in alloc; put]?,
        enter: None,
        leave: None,
        fixed: None,
        next,
    })
}

/// What other attributes of the item at a path write, or why they are refused.
pub(crate) fn plan_attrs(
    volume: &Volume,
    path: &Path,
    change: &Change,
    touched: &Touches,
) -> Result<Edit, LineFault>
    requires change { IsChange change.now }
    requires of { SetsAttrs change.now path.now }
    requires touched { (bytes : ℕ → List ℕ) → touched.now ≡ touches (tree_on volume.now bytes) change.now }
    ensures { (moment : Option ℕ) → Plans volume.now change.now moment result }
{
    volume.rules();
    let number = volume.number_at(path)?;
    let row = volume.item_row(number)?;
    match attrs_refusal(attrs_of(&row.body), change, path.is_root()) {
        Some(why) => return Err(LineFault::Refused(why)),
        None => (),
    }
    let drawn = stamps(&row.body) + touched.as_slice().len() as u64;
    let next = volume.next_number();
    if next as u128 + drawn as u128 > MAX_NEXT as u128 {
        return Err(LineFault::Refused(Refused::IdsSpent));
    }
    let new = reset(row, change, next)?;
    Ok(reset_edit(volume.alloc(), number, &new, next + drawn)?)
}
