//! Where a new item would stand.
ghost use Rattle.std.specs.Prelude.{◌≡◌, ◌<◌, ℕ, List, Some, None, IfOk, OnOk};
ghost use Rattle.tm_base.specs.Paths.{parent_of};
ghost use Rattle.tm_tree.specs.Refusing.{first_refused};
ghost use Rattle.tm_volume_records.specs.Rules.{IsGoodVolume};
ghost use Rattle.tm_base.specs.Limits.{max_items};
ghost use Rattle.tm_volume.specs.FreeNumbers.{counted_items};
ghost use Rattle.tm_volume.specs.Seen.{entries_on, items_on, tree_on};
ghost use Rattle.tm_changes.specs.Destinations.{FindsFolder, MeetsDestination, IsStopped, folder_tests};

use std::alloc::AllocError;
use tm_base::limits::MAX_ITEMS;
use tm_base::{LineFault, Moment, Path, Refused};
use tm_volume::Volume;

/// Where the walk to the folder of a path ends.
#[derive(Clone, Copy, Debug, PartialEq, Eq)]
pub(crate) enum Destination {
    /// It meets a folder without the next name.
    Nowhere,
    /// It goes through a file or link, or ends there.
    NoFolder,
    /// At the folder with this number.
    Folder(u64),
}

/// The folder that holds a path; the root's own path for the root.
pub(crate) fn parent(path: &Path) -> Result<Path, AllocError>
    ensures { IfOk result (λ folder. folder ≡ parent_of path.now) }
{
    let count = path.names().len();
    path.first(count.saturating_sub(1))
}

/// Where a walk ends that stops for this reason.
fn stopped(why: Refused) -> Destination
    ensures { IsStopped why result }
{
    match why {
        Refused::NotFound => Destination::Nowhere,
        _ => Destination::NoFolder,
    }
}

/// Why no folder or link can be made, by where the walk to its folder ends, whether something
/// stands there, and how many items there are.
fn place_refusal(
    destination: Destination,
    there: bool,
    count: u64,
    moment: Option<Moment>,
) -> Option<Refused>
    ensures { result ≡ first_refused (folder_tests destination there count moment) }
{
    let count = count as u128 + 1;
    if destination == Destination::Nowhere {
        Some(Refused::NotFound)
    } else if there {
        Some(Refused::Exists)
    } else if destination == Destination::NoFolder {
        Some(Refused::NotFolder)
    } else if count > MAX_ITEMS as u128 {
        Some(Refused::TooMany { count })
    } else if moment.is_none() {
        Some(Refused::NoMoment)
    } else {
        None
    }
}

/// The number of the folder in which a new folder or link would stand, or why it can't be made.
pub(crate) fn folder_for(
    volume: &Volume,
    path: &Path,
    moment: Option<Moment>,
) -> Result<u64, LineFault>
    ensures finds { (bytes : ℕ → List ℕ) → FindsFolder (items_on volume.now bytes) (tree_on volume.now bytes) path.now moment (IsGoodVolume (entries_on volume.now bytes) volume.now.tag) result }
    ensures fewer { OnOk result (counted_items volume.now.image.records < max_items) }
{
    let destination = destination_of(volume, path)?;
    let there = volume.has(path);
    let count = volume.item_count();
    match place_refusal(destination, there, count, moment) {
        Some(why) => Err(LineFault::Refused(why)),
        None => match destination {
            Destination::Folder(folder) => Ok(folder),
            _ => unreachable!(),
        },
    }
}

/// Where the walk to the folder of a path ends.
pub(crate) fn destination_of(volume: &Volume, path: &Path) -> Result<Destination, AllocError>
    ensures { IfOk result (λ destination. (bytes : ℕ → List ℕ) → MeetsDestination (items_on volume.now bytes) (tree_on volume.now bytes) path.now destination) }
{
    let folder = parent(path)?;
    match volume.number_at(&folder) {
        Ok(number) => {
            if volume.is_folder(number) {
                Ok(Destination::Folder(number))
            } else {
                Ok(Destination::NoFolder)
            }
        }
        Err(why) => Ok(stopped(why)),
    }
}
