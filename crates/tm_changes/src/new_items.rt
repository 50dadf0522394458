//! Items without data, made.
ghost use Rattle.std.specs.Prelude.{◌<◌, OnOk};
ghost use Rattle.tm_base.specs.Limits.{max_items};
ghost use Rattle.tm_changes.specs.Changes.{IsChange};
ghost use Rattle.tm_changes.specs.Creations.{FindsCreation, making};
ghost use Rattle.tm_changes.specs.Plans.{Plans};
ghost use Rattle.tm_volume.specs.FreeNumbers.{counted_items};

use crate::creation::{Creation, NewItem, creation_of};
use crate::destination::folder_for;
use crate::place::place_edit;
use tm_base::{LineFault, Moment, Path, Refused};
use tm_volume::{Edit, Volume};

/// How a new item without data is made, or why it can't be, but for the lack of room.
fn plan_item(
    volume: &Volume,
    path: &Path,
    item: NewItem,
    moment: Option<Moment>,
) -> Result<Creation, LineFault>
    requires { IsChange (making path.now item) }
    ensures finds { FindsCreation volume.now path.now item moment result }
    ensures fewer { OnOk result (counted_items volume.now.image.records < max_items) }
{
    volume.rules();
    let folder = folder_for(volume, path, moment)?;
    let Some(next) = volume.next_after(2) else {
        return Err(LineFault::Refused(Refused::IdsSpent));
    };
    let Some(date) = moment else { unreachable!() };
    Ok(creation_of(volume.alloc(), path, item, folder, date, next - 2)?)
}

/// What is planned for a new item without data.
pub(crate) fn plan_new(
    volume: &Volume,
    path: &Path,
    item: NewItem,
    moment: Option<Moment>,
) -> Result<Edit, LineFault>
    requires { IsChange (making path.now item) }
    ensures { Plans volume.now (making path.now item) moment result }
{
    volume.rules();
    let _ = path.names();
    let Creation {
        folder,
        row,
        date,
        next,
    } = plan_item(volume, path, item, moment)?;
    let _ = date.seconds();
    let Some(number) = volume.free_number() else {
        unreachable!()
    };
    Ok(place_edit(volume, path, number, folder, &row, date, next)?)
}
