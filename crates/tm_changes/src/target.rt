//! What stands at the path of a file that is written, and why it can't be.
ghost use Rattle.std.specs.Prelude.{◌≡◌, ◌≤◌, ◌^◌, ℕ, List, IfOk};
ghost use Rattle.tm_tree.specs.Refusing.{first_refused};
ghost use Rattle.tm_volume.specs.Seen.{items_on, tree_on};
ghost use Rattle.tm_changes.specs.Targets.{MeetsTarget, count_tests, target_of, target_tests};

use crate::destination::Destination;
use std::alloc::AllocError;
use tm_base::limits::{MAX_FILE_BYTES, MAX_ITEMS};
use tm_base::{Moment, Path, Refused};
use tm_tree::{ItemBody, ItemRow, LeafRow};
use tm_volume::{MAX_NEXT, Volume};

/// What stands at the path of a file that is written.
#[derive(Drop)]
pub(crate) enum Target {
    /// Nothing.
    Nothing,
    /// A folder.
    Folder,
    /// A link.
    Link,
    /// The file under this number, with this record.
    File(u64, ItemRow),
}

/// What the item under a number is, by its record.
fn target_of(number: u64, row: ItemRow) -> Target
    ensures { result ≡ target_of number row }
{
    match &row.body {
        ItemBody::Folder { .. } => Target::Folder,
        ItemBody::Leaf(LeafRow::Link { .. }) => Target::Link,
        ItemBody::Leaf(LeafRow::File { .. }) => Target::File(number, row),
    }
}

/// Why a file can't get so many bytes, by where the walk to its folder ends, what stands at its
/// path, how many items there are, and the next number.
pub(crate) fn file_refusal(
    destination: Destination,
    target: &Target,
    count: u64,
    size: u64,
    moment: Option<Moment>,
    next: u64,
) -> Option<Refused>
    requires { next ≤ 2 ^ 62 }
    ensures { result ≡ first_refused (target_tests destination target.now count size moment next) }
{
    if destination == Destination::Nowhere {
        Some(Refused::NotFound)
    } else if matches!(target, Target::Link) {
        Some(Refused::Exists)
    } else if destination == Destination::NoFolder {
        Some(Refused::NotFolder)
    } else if matches!(target, Target::Folder) {
        Some(Refused::IsFolder)
    } else if size > MAX_FILE_BYTES {
        Some(Refused::TooLong { length: size })
    } else {
        count_refusal(target, count, moment, next)
    }
}

/// The last of these tests.
fn count_refusal(target: &Target, count: u64, moment: Option<Moment>, next: u64) -> Option<Refused>
    requires { next ≤ 2 ^ 62 }
    ensures { result ≡ first_refused (count_tests target.now count moment next) }
{
    let count = match target {
        Target::File(..) => count as u128,
        _ => count as u128 + 1,
    };
    if count > MAX_ITEMS as u128 {
        Some(Refused::TooMany { count })
    } else if moment.is_none() {
        Some(Refused::NoMoment)
    } else if next + 2 > MAX_NEXT {
        Some(Refused::IdsSpent)
    } else {
        None
    }
}

/// What stands at the path of a file that is written.
pub(crate) fn target_at(volume: &Volume, path: &Path) -> Result<Target, AllocError>
    ensures { IfOk result (λ target. (bytes : ℕ → List ℕ) → MeetsTarget (items_on volume.now bytes) (tree_on volume.now bytes) path.now target) }
{
    volume.rules();
    match volume.number_at(path) {
        Ok(number) => Ok(target_of(number, volume.item_row(number)?)),
        Err(_) => Ok(Target::Nothing),
    }
}
