//! Files that get bytes: what is planned.
ghost use Rattle.std.specs.Prelude.{◌≡◌, ◌≤◌, ◌<◌, ◌+◌, ◌^◌, ℕ, List, Some, None, true, false, is_none, length, IfOk};
ghost use Rattle.tm_base.specs.Days.{last_moment};
ghost use Rattle.tm_base.specs.Paths.{is_root};
ghost use Rattle.tm_nodes.specs.Items.{IsItemOfSize};
ghost use Rattle.tm_tree.specs.Changes.{length_at, most_bytes};
ghost use Rattle.tm_tree.specs.Refusing.{first_refused};
ghost use Rattle.tm_tree.specs.Trees.{item_at, last_of};
ghost use Rattle.tm_changes.specs.Plans.{IsGood};
ghost use Rattle.tm_changes.specs.Fitting.{staged_len};
ghost use Rattle.tm_volume.specs.FreeNumbers.{counted_items};
ghost use Rattle.tm_volume.specs.Seen.{items_on, tree_on, volume_on};
ghost use Rattle.tm_changes.specs.Destinations.{MeetsDestination, LeadsInto, goes_into_folder};
ghost use Rattle.tm_changes.specs.Targets.{IsFileAt, IsFileBody, MeetsTarget, is_file_there, is_folder_there, is_link_there, target_length};
ghost use Rattle.tm_changes.specs.Writes.{IsWriting, PlansData, PlansFile, new_file_row, redone_body, redone_row, write_tests};
ghost use Rattle.tm_base.specs.Limits.{max_items};

use crate::destination::{Destination, destination_of};
use crate::place::{last_name, place_edit};
use crate::target::{Target, file_refusal, target_at};
use std::alloc::{AllocError, Global};
use tm_base::{LineFault, Moment, Path};
use tm_records::{Body, Put};
use tm_tree::{Attrs, Change, ItemBody, ItemRow, LeafRow};
use tm_volume::{Edit, Volume, meta_of};
use tm_volume_records::{ITEM_KEY, JOURNAL_KEY};
use tm_world::Bytes;

/// The record of a new file with so many bytes, in the folder of this number.
fn new_row(
    alloc: Global,
    path: &Path,
    folder: u64,
    moment: Moment,
    stamp: u64,
    size: u64,
) -> Result<ItemRow, AllocError>
    requires path { is_root path.now ≡ false }
    requires folder { folder ≤ max_items }
    ensures row { IfOk result (λ row. row ≡ new_file_row folder (last_of path.now) moment stamp size) }
    ensures rules { IfOk result (IsItemOfSize size) }
{
    let name = last_name(path)?;
    // The bytes come with the rules of a name, the seconds with their bound.
    let _ = name.as_bytes();
    let _ = moment.seconds();
    Ok(ItemRow {
        parent: folder,
        name: Some(name),
        body: ItemBody::Leaf(LeafRow::File {
            attrs: Attrs::new(alloc, 0o644, moment),
            stamp,
            length: size,
        }),
    })
}

/// What a file's record says with another date, another stamp and so many bytes; others stay.
fn redone_body(body: ItemBody, moment: Moment, stamp: u64, size: u64) -> ItemBody
    ensures { result ≡ redone_body body moment stamp size }
{
    match body {
        ItemBody::Leaf(LeafRow::File { mut attrs, .. }) => {
            attrs.modified = moment;
            ItemBody::Leaf(LeafRow::File {
                attrs,
                stamp,
                length: size,
            })
        }
        other => other,
    }
}

/// A file's record with another date, another stamp and so many bytes; others stay.
fn redone(row: ItemRow, moment: Moment, stamp: u64, size: u64) -> ItemRow
    ensures row { result ≡ redone_row row moment stamp size }
    ensures low { moment ≤ last_moment }
{
    let _ = moment.seconds();
    let ItemRow { parent, name, body } = row;
    let body = redone_body(body, moment, stamp, size);
    ItemRow { parent, name, body }
}

/// How many bytes there are.
fn count(bytes: &Bytes) -> u64
    ensures is { result ≡ length bytes.now }
    ensures small { result < 2 ^ 63 }
{
    bytes.as_slice().len() as u64
}

/// The moment that is there.
fn date_of(moment: Option<Moment>) -> Moment
    requires { is_none moment ≡ false }
    ensures { moment ≡ Some result }
{
    match moment {
        Some(date) => date,
        None => unreachable!(),
    }
}

/// How many bytes the file has; 0 where none stands.
fn target_length(target: &Target) -> u64
    ensures { result ≡ target_length target.now }
{
    match target {
        Target::File(_, row) => match &row.body {
            ItemBody::Leaf(LeafRow::File { length, .. }) => *length,
            _ => 0,
        },
        _ => 0,
    }
}

/// The edit of a new file in the folder of this number, which is dated, before it brings its
/// so many bytes.
fn new_file_edit(
    volume: &Volume,
    path: &Path,
    folder: u64,
    size: u64,
    moment: Moment,
) -> Result<Edit, LineFault>
    requires into { (bytes : ℕ → List ℕ) → LeadsInto (items_on volume.now bytes) (tree_on volume.now bytes) path.now folder }
    requires none { (bytes : ℕ → List ℕ) → item_at (tree_on volume.now bytes) path.now ≡ None }
    requires fewer { counted_items volume.now.image.records < max_items }
    requires size { size ≤ most_bytes }
    requires next { volume.now.tag.next + 2 ≤ 2 ^ 62 }
    requires passes { (bytes : ℕ → List ℕ) → IsGood volume.now bytes → first_refused (write_tests (volume_on volume.now bytes).contents path.now size (Some moment)) ≡ None }
    ensures { PlansFile volume.now path.now size (Some moment) result }
{
    volume.rules();
    // The number of its names, and the bound of the seconds.
    let _ = path.names();
    let _ = moment.seconds();
    let next = volume.next_number();
    let row = new_row(volume.alloc(), path, folder, moment, next, size)?;
    let Some(number) = volume.free_number() else {
        unreachable!()
    };
    Ok(place_edit(volume, path, number, folder, &row, moment, next + 2)?)
}

/// The edit of the file that stands under this number with this record, before it brings its
/// so many bytes.
fn rewrite_edit(
    volume: &Volume,
    path: &Path,
    number: u64,
    row: ItemRow,
    size: u64,
    moment: Moment,
) -> Result<Edit, LineFault>
    requires file { (bytes : ℕ → List ℕ) → IsFileAt (items_on volume.now bytes) (tree_on volume.now bytes) path.now number row }
    requires is_file { IsFileBody row.body }
    requires size { size ≤ most_bytes }
    requires next { volume.now.tag.next + 2 ≤ 2 ^ 62 }
    requires passes { (bytes : ℕ → List ℕ) → IsGood volume.now bytes → first_refused (write_tests (volume_on volume.now bytes).contents path.now size (Some moment)) ≡ None }
    ensures { PlansFile volume.now path.now size (Some moment) result }
{
    volume.rules();
    let next = volume.next_number();
    let new = redone(row, moment, next, size);
    let put = Put {
        key: ITEM_KEY + number,
        meta: meta_of(volume.alloc(), &new)?,
        body: Body::Empty,
    };
    Ok(Edit {
        remove: vec![in volume.alloc(); JOURNAL_KEY]?,
        put: vec![in volume.alloc(); put]?,
        enter: None,
        leave: None,
        fixed: None,
        next: next + 2,
    })
}

/// The edit of a file that nothing refuses but the lack of room, before it brings its so many
/// bytes.
fn file_edit(
    volume: &Volume,
    path: &Path,
    destination: Destination,
    target: Target,
    size: u64,
    moment: Moment,
) -> Result<Edit, LineFault>
    requires goes { (bytes : ℕ → List ℕ) → MeetsDestination (items_on volume.now bytes) (tree_on volume.now bytes) path.now destination }
    requires meets { (bytes : ℕ → List ℕ) → MeetsTarget (items_on volume.now bytes) (tree_on volume.now bytes) path.now target }
    requires folder { goes_into_folder destination ≡ true }
    requires target { (is_folder_there target ≡ false) × (is_link_there target ≡ false) }
    requires fewer { is_file_there target ≡ false → counted_items volume.now.image.records < max_items }
    requires size { size ≤ most_bytes }
    requires next { volume.now.tag.next + 2 ≤ 2 ^ 62 }
    requires passes { (bytes : ℕ → List ℕ) → IsGood volume.now bytes → first_refused (write_tests (volume_on volume.now bytes).contents path.now size (Some moment)) ≡ None }
    ensures { PlansFile volume.now path.now size (Some moment) result }
{
    match target {
        Target::File(number, row) => rewrite_edit(volume, path, number, row, size, moment),
        Target::Nothing => match destination {
            Destination::Folder(folder) => new_file_edit(volume, path, folder, size, moment),
            _ => unreachable!(),
        },
        _ => unreachable!(),
    }
}

/// What is planned for a file that gets so many bytes.
fn plan_file(
    volume: &Volume,
    path: &Path,
    size: u64,
    moment: Option<Moment>,
) -> Result<Edit, LineFault>
    ensures plans { PlansFile volume.now path.now size moment result }
    ensures small { IfOk result (λ edit. size ≤ most_bytes) }
{
    volume.rules();
    let destination = destination_of(volume, path)?;
    let target = target_at(volume, path)?;
    let count = volume.item_count();
    let next = volume.next_number();
    // An option that is used again is copied before it is passed.
    let same = moment;
    if let Some(why) = file_refusal(destination, &target, count, size, same, next) {
        return Err(LineFault::Refused(why));
    }
    let date = date_of(moment);
    file_edit(volume, path, destination, target, size, date)
}

/// The length of the file at a path; 0 where none stands.
pub(crate) fn length_at(volume: &Volume, path: &Path) -> Result<u64, AllocError>
    ensures value { IfOk result (λ length. (bytes : ℕ → List ℕ) → length ≡ length_at (tree_on volume.now bytes) path.now) }
    ensures small { IfOk result (λ length. (bytes : ℕ → List ℕ) → IsGood volume.now bytes → length ≤ most_bytes) }
{
    volume.rules();
    let target = target_at(volume, path)?;
    Ok(target_length(&target))
}

/// What is planned for a change that gives a file bytes.
pub(crate) fn plan_written(
    volume: &Volume,
    change: &Change,
    moment: Option<Moment>,
) -> Result<Edit, LineFault>
    requires { IsWriting change.now }
    ensures { (bytes : ℕ → List ℕ) → PlansData volume.now change.now moment (staged_len (volume_on volume.now bytes).contents change.now) result }
{
    match change {
        Change::Write { path, bytes } => plan_file(volume, path, count(bytes), moment),
        Change::Append { path, bytes } => {
            // No sum that is cut is of a file that keeps its limit.
            let size = length_at(volume, path)?.saturating_add(count(bytes));
            plan_file(volume, path, size, moment)
        }
        Change::Fill { path, length, .. } => plan_file(volume, path, *length, moment),
        _ => unreachable!(),
    }
}
