//! Removals.
ghost use Rattle.std.specs.Prelude.{◌≡◌, ◌≤◌, ◌++◌, ℕ, List, IfOk};
ghost use Rattle.tm_base.specs.Days.{last_moment};
ghost use Rattle.tm_index.specs.Folders.{numbers_in};
ghost use Rattle.tm_tree.specs.declared.change.Change.TheVariants.{Rm, Rmdir};
ghost use Rattle.tm_tree.specs.Changes.{ids_spent, tests};
ghost use Rattle.tm_tree.specs.Refusing.{first_refused, needs_moment};
ghost use Rattle.tm_changes.specs.Plans.{Plans};
ghost use Rattle.tm_changes.specs.Removals.{IsBare, IsLoose, IsRemoval, Removes};
ghost use Rattle.tm_volume.specs.Seen.{volume_on};

use crate::place::{dated, last_name};
use std::alloc::AllocError;
use tm_base::{LineFault, Moment, Path, Refused};
use tm_index::Index;
use tm_records::{Body, Put};
use tm_tree::{Change, ItemRow};
use tm_volume::{Edit, Left, Volume, meta_of};
use tm_volume_records::{ITEM_KEY, JOURNAL_KEY};

/// Whether a folder has no entries. It takes no memory.
fn is_bare(numbers: &Index, number: u64) -> bool
    ensures { IsBare (numbers_in numbers.now) number result }
{
    match numbers.folder(number) {
        Some(entries) => entries.is_empty(),
        None => true,
    }
}

/// The edit that removes the item under a number in which nothing stands, and dates its folder.
fn removal(
    volume: &Volume,
    path: &Path,
    number: u64,
    moment: Moment,
    next: u64,
) -> Result<Edit, AllocError>
    requires { IsLoose volume.now path.now number }
    ensures removes { IfOk result (Removes volume.now path.now number moment) }
    ensures next { IfOk result (λ e. e.next ≡ next) }
    ensures low { moment ≤ last_moment }
{
    volume.rules();
    let ItemRow { parent: folder, .. } = volume.item_row(number)?;
    let above = dated(volume.item_row(folder)?, moment);
    let put = Put {
        key: ITEM_KEY + folder,
        meta: meta_of(volume.alloc(), &above)?,
        body: Body::Kept,
    };
    Ok(Edit {
        remove: vec![in volume.alloc(); JOURNAL_KEY, ITEM_KEY + number]?,
        put: vec![in volume.alloc(); put]?,
        enter: None,
        leave: Some(Left {
            parent: folder,
            name: last_name(path)?,
        }),
        fixed: None,
        next,
    })
}

/// What is planned for the removal of an item in which nothing stands, where only the lack of a
/// moment or of numbers refuses it.
fn plan_removal(
    volume: &Volume,
    change: &Change,
    path: &Path,
    number: u64,
    moment: Option<Moment>,
) -> Result<Edit, LineFault>
    requires loose { IsLoose volume.now path.now number }
    requires removal { IsRemoval change.now path.now }
    requires tests { (bytes : ℕ → List ℕ) → first_refused (tests (volume_on volume.now bytes).contents change.now moment) ≡ first_refused (needs_moment moment ++ ids_spent (volume_on volume.now bytes).contents 1) }
    ensures { Plans volume.now change.now moment result }
{
    volume.rules();
    let Some(moment) = moment else {
        return Err(LineFault::Refused(Refused::NoMoment));
    };
    let Some(next) = volume.next_after(1) else {
        return Err(LineFault::Refused(Refused::IdsSpent));
    };
    Ok(removal(volume, path, number, moment, next)?)
}

/// What is planned for the removal of a file or link.
pub(crate) fn plan_rm(
    volume: &Volume,
    change: &Change,
    path: &Path,
    moment: Option<Moment>,
) -> Result<Edit, LineFault>
    requires { change.now ≡ Rm path.now }
    ensures { Plans volume.now change.now moment result }
{
    volume.rules();
    let number = volume.number_at(path)?;
    if volume.is_folder(number) {
        return Err(LineFault::Refused(Refused::IsFolder));
    }
    plan_removal(volume, change, path, number, moment)
}

/// What is planned for the removal of an empty folder.
pub(crate) fn plan_rmdir(
    volume: &Volume,
    change: &Change,
    path: &Path,
    moment: Option<Moment>,
) -> Result<Edit, LineFault>
    requires { change.now ≡ Rmdir path.now }
    ensures { Plans volume.now change.now moment result }
{
    volume.rules();
    let number = volume.number_at(path)?;
    if !volume.is_folder(number) {
        return Err(LineFault::Refused(Refused::NotFolder));
    }
    if !is_bare(volume.numbers(), number) {
        return Err(LineFault::Refused(Refused::NotEmpty));
    }
    if path.is_root() {
        return Err(LineFault::Refused(Refused::RootItem));
    }
    plan_removal(volume, change, path, number, moment)
}
