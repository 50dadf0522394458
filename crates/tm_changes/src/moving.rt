//! Moves.
ghost use Rattle.std.specs.Prelude.{◌≡◌, ◌≤◌, ◌++◌, ℕ, false, if◌then◌else◌, None, List, OnOk, IfOk, map};
ghost use Rattle.tm_base.specs.Days.{last_moment};
ghost use Rattle.tm_base.specs.Paths.{is_prefix};
ghost use Rattle.tm_index.specs.Folders.{numbers_in};
ghost use Rattle.tm_items.specs.Finding.{FoundAt};
ghost use Rattle.tm_tree.specs.declared.change.Change.TheVariants.{Mv};
ghost use Rattle.tm_tree.specs.Refusing.{first_refused};
ghost use Rattle.tm_tree.specs.Trees.{item_at};
ghost use Rattle.tm_changes.specs.Depths.{AreBelow, Reaches};
ghost use Rattle.tm_changes.specs.Plans.{Plans};
ghost use Rattle.tm_volume.specs.Seen.{items_on, tree_on};
ghost use Rattle.tm_changes.specs.Shifts.{IsMovable, Shifts, move_tests};
ghost use Rattle.tm_changes.specs.Destinations.{LeadsInto};

use crate::destination::{Destination, destination_of};
use crate::place::{dated, last_name};
use std::alloc::{AllocError, Global};
use std::collections::BTreeMap;
use tm_base::{LineFault, Moment, Name, Path, Refused};
use tm_index::Index;
use tm_records::{Body, Put};
use tm_tree::{Change, ItemRow};
use tm_volume::{Edit, Entered, Left, Volume, meta_of};
use tm_volume_records::{ITEM_KEY, JOURNAL_KEY};

/// Adds the numbers of a folder's entries.
fn push_numbers(next: &mut Vec<u64>, entries: &BTreeMap<Name, u64>) -> Result<(), AllocError>
    ensures { OnOk result (next.new.items ≡ next.old.items ++ map (λ e. e.1) entries.now.entries) }
{
    for (_name, number) in entries {
        next.push(*number)?;
    }
    Ok(())
}

/// The numbers in the folders of a level.
fn below(alloc: Global, numbers: &Index, level: &[u64]) -> Result<Vec<u64>, AllocError>
    ensures { IfOk result (λ next. AreBelow (numbers_in numbers.now) level.now next.items) }
{
    let mut next = Vec::new(alloc);
    for number in level {
        if let Some(entries) = numbers.folder(*number) {
            push_numbers(&mut next, entries)?;
        }
    }
    Ok(next)
}

/// Whether something stands so many names beneath an item, level by level.
fn reaches(alloc: Global, numbers: &Index, number: u64, steps: u64) -> Result<bool, AllocError>
    ensures { IfOk result (λ deep. Reaches (numbers_in numbers.now) number steps deep) }
{
    let mut level = vec![in alloc; number]?;
    for _step in 0..steps {
        level = below(alloc, numbers, level.as_slice())?;
    }
    Ok(!level.is_empty())
}

/// Why an item can't be moved, by where the walk to it ends, where the walk to its new folder ends,
/// whether something stands there, and whether that is at or beneath it.
fn move_refusal(
    start: &Result<u64, Refused>,
    destination: Destination,
    there: bool,
    inside: bool,
) -> Option<Refused>
    ensures { result ≡ first_refused (move_tests start.now destination there inside) }
{
    let nowhere = matches!(start, Err(Refused::NotFound));
    if nowhere || destination == Destination::Nowhere {
        Some(Refused::NotFound)
    } else if there {
        Some(Refused::Exists)
    } else if start.is_err() || destination == Destination::NoFolder {
        Some(Refused::NotFolder)
    } else if inside {
        Some(Refused::IntoSelf)
    } else {
        None
    }
}

/// How many numbers a move draws: one for each of two folders, and one for a folder that is moved.
fn drawn_by_move(folder: bool) -> u64
    ensures count { result ≡ if folder then 3 else 2 }
    ensures few { result ≤ 4 }
{
    if folder { 3 } else { 2 }
}

/// The edit that moves the item under a number into a folder, and dates both folders.
fn movement(
    volume: &Volume,
    from: &Path,
    to: &Path,
    number: u64,
    folder: u64,
    moment: Moment,
    next: u64,
) -> Result<Edit, AllocError>
    requires { IsMovable volume.now from.now to.now number folder }
    ensures shifts { IfOk result (Shifts volume.now from.now to.now number folder moment) }
    ensures next { IfOk result (λ e. e.next ≡ next) }
    ensures low { moment ≤ last_moment }
{
    volume.rules();
    let ItemRow { parent, body, .. } = volume.item_row(number)?;
    let name = last_name(to)?;
    // The bytes come with the rules of a name.
    let _ = name.as_bytes();
    let moved = ItemRow {
        parent: folder,
        name: Some(name),
        body,
    };
    let left = dated(volume.item_row(parent)?, moment);
    let entered = dated(volume.item_row(folder)?, moment);
    let first = Put {
        key: ITEM_KEY + number,
        meta: meta_of(volume.alloc(), &moved)?,
        body: Body::Kept,
    };
    let second = Put {
        key: ITEM_KEY + parent,
        meta: meta_of(volume.alloc(), &left)?,
        body: Body::Kept,
    };
    let third = Put {
        key: ITEM_KEY + folder,
        meta: meta_of(volume.alloc(), &entered)?,
        body: Body::Kept,
    };
    Ok(Edit {
        remove: vec![in volume.alloc(); JOURNAL_KEY]?,
        put: vec![in volume.alloc(); first, second, third]?,
        enter: Some(Entered {
            parent: folder,
            name: last_name(to)?,
            number,
        }),
        leave: Some(Left {
            parent,
            name: last_name(from)?,
        }),
        fixed: None,
        next,
    })
}

/// What is planned for a move where only its depth, the lack of a moment or that of numbers
/// refuses it.
fn plan_shift(
    volume: &Volume,
    change: &Change,
    from: &Path,
    to: &Path,
    number: u64,
    folder: u64,
    moment: Option<Moment>,
) -> Result<Edit, LineFault>
    requires change { change.now ≡ Mv from.now to.now }
    requires found { (bytes : ℕ → List ℕ) → FoundAt (items_on volume.now bytes) (tree_on volume.now bytes) from.now number }
    requires into { (bytes : ℕ → List ℕ) → LeadsInto (items_on volume.now bytes) (tree_on volume.now bytes) to.now folder }
    requires none { (bytes : ℕ → List ℕ) → item_at (tree_on volume.now bytes) to.now ≡ None }
    requires apart { is_prefix from.now to.now ≡ false }
    ensures { Plans volume.now change.now moment result }
{
    volume.rules();
    let steps = 65 - to.names().len() as u64;
    match reaches(volume.alloc(), volume.numbers(), number, steps) {
        Ok(true) => return Err(LineFault::Refused(Refused::TooDeep)),
        Ok(false) => (),
        Err(_) => return Err(LineFault::Memory),
    }
    let Some(moment) = moment else {
        return Err(LineFault::Refused(Refused::NoMoment));
    };
    let count = drawn_by_move(volume.is_folder(number));
    let Some(next) = volume.next_after(count) else {
        return Err(LineFault::Refused(Refused::IdsSpent));
    };
    match movement(volume, from, to, number, folder, moment, next) {
        Ok(edit) => Ok(edit),
        Err(_) => Err(LineFault::Memory),
    }
}

/// What is planned for a move.
pub(crate) fn plan_mv(
    volume: &Volume,
    change: &Change,
    from: &Path,
    to: &Path,
    moment: Option<Moment>,
) -> Result<Edit, LineFault>
    requires { change.now ≡ Mv from.now to.now }
    ensures { Plans volume.now change.now moment result }
{
    let start = volume.number_at(from);
    let destination = destination_of(volume, to)?;
    let there = volume.has(to);
    match move_refusal(&start, destination, there, from.is_prefix_of(to)) {
        Some(why) => Err(LineFault::Refused(why)),
        None => match (start, destination) {
            (Ok(number), Destination::Folder(folder)) => {
                plan_shift(volume, change, from, to, number, folder, moment)
            }
            _ => unreachable!(),
        },
    }
}
