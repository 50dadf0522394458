//! Changes that bring no data, as they were planned.
ghost use Rattle.std.specs.Prelude.{◌≡◌, None, Some, OnOk, OnErr, Err, ℕ, List};
ghost use Rattle.tm_base.specs.LineFaults.{NoFault};
ghost use Rattle.tm_world.specs.Faults.{BlamesOnly, NeverLess};
ghost use Rattle.tm_world.specs.Log.{now};
ghost use Rattle.tm_world.specs.Outside.{disk};
ghost use Rattle.tm_world.specs.Runs.{Runs};
ghost use Rattle.tm_base.specs.declared.refused.Refused.{Refused as RefusedFor};
ghost use Rattle.tm_base.specs.declared.refused.Side.{Side as RefusedSide};
ghost use Rattle.tm_changes.specs.Answers.{MeetsChange};
ghost use Rattle.tm_changes.specs.Changes.{IsChange, after_change};
ghost use Rattle.tm_volume.specs.Edits.{IsEdit, IsGoodEdit, after};
ghost use Rattle.tm_changes.specs.Plans.{BringNone, BringsNoData, Plans, Writes, telling};
ghost use Rattle.tm_volume.specs.Reads.{LeavesEither};
ghost use Rattle.tm_changes.specs.Fitting.{room_tests};
ghost use Rattle.tm_volume.specs.Seen.{IsReady, StandsOn, stored_on, tree_on};
ghost use Rattle.tm_tree.specs.Refusing.{first_refused};
ghost use Rattle.tm_tree.specs.Touches.{touches};

use crate::attrs::plan_attrs;
use crate::creation::NewItem;
use crate::moving::plan_mv;
use crate::new_items::plan_new;
use crate::removing::{plan_rm, plan_rmdir};
use crate::touched::touched_by;
use tm_base::{LineFault, Moment};
use tm_tree::{Change, Touches};
use tm_volume::{Edit, Volume};
use tm_world::{Side, World};

/// What was touched, if the edit was made.
pub(crate) fn touching(made: Result<(), LineFault>, touched: Touches) -> Result<Touches, LineFault>
    ensures { result ≡ telling made touched }
{
    match made {
        Ok(()) => Ok(touched),
        Err(fault) => Err(fault),
    }
}

/// Makes an edit that brings no data, in one commit. It is refused exactly by the tests of
/// room; after a refusal, and where memory is refused, all is as before.
///
/// A stop leaves the volume before the edit or after it. After a fault the volume is not to be
/// used again.
pub(crate) fn apply_without_data<W: World>(
    volume: &mut Volume,
    world: &mut W,
    edit: Edit,
) -> Result<(), LineFault>
    requires ready { IsReady volume.old (W.blocks world.old Side.Volume) }
    requires stands { W.told → StandsOn volume.old (disk Side.Volume (now (W.log world.old))) }
    requires edit { IsEdit volume.old edit }
    requires no_data { BringNone edit.put.items }
    requires good { W.told → IsGoodEdit volume.old edit (disk Side.Volume (now (W.log world.old))).bytes }
    ensures any_moment { W.told → let bytes = (disk Side.Volume (now (W.log world.old))).bytes in
        Runs Side.Volume (LeavesEither (Some (stored_on volume.old bytes)) (Some (stored_on (after volume.old edit) bytes))) (W.log world.old) (W.log world.new) }
    ensures stored { W.told → OnOk result (stored_on volume.new (disk Side.Volume (now (W.log world.new))).bytes ≡ stored_on (after volume.old edit) (disk Side.Volume (now (W.log world.old))).bytes) }
    ensures ready { NoFault result → IsReady volume.new (W.blocks world.old Side.Volume) }
    ensures stands { W.told → NoFault result → StandsOn volume.new (disk Side.Volume (now (W.log world.new))) }
    ensures err { OnErr result (NoFault result → volume.new ≡ volume.old) }
    ensures untouched { OnErr result (NoFault result → world.new ≡ world.old) }
    ensures full { W.told → (why : RefusedFor) → result ≡ Err (LineFault.Refused why) → let bytes = (disk Side.Volume (now (W.log world.old))).bytes in
        first_refused (room_tests (W.blocks world.old Side.Volume) (stored_on volume.old bytes) (stored_on (after volume.old edit) bytes) 0) ≡ Some why }
    ensures fits { W.told → let bytes = (disk Side.Volume (now (W.log world.old))).bytes in
        OnOk result (first_refused (room_tests (W.blocks world.old Side.Volume) (stored_on volume.old bytes) (stored_on (after volume.old edit) bytes) 0) ≡ None) }
    ensures tried { W.told → (side : RefusedSide) → result ≡ Err (LineFault.Fault side) → let bytes = (disk Side.Volume (now (W.log world.old))).bytes in
        first_refused (room_tests (W.blocks world.old Side.Volume) (stored_on volume.old bytes) (stored_on (after volume.old edit) bytes) 0) ≡ None }
    ensures head { volume.new.head ≡ volume.old.head }
    ensures looks { volume.new.looks ≡ volume.old.looks }
    ensures blocks { W.blocks world.new ≡ W.blocks world.old }
    ensures never_less { NeverLess (W.faults world.old) (W.faults world.new) }
    ensures fault { BlamesOnly RefusedSide.Volume result (W.faults world.old) (W.faults world.new) }
{
    volume.rules();
    let made = volume.apply(world, edit);
    volume.rules();
    made
}

/// Makes a change by the edit that was planned for it, in one commit, and answers what it touched.
/// Only the lack of room refuses it.
///
/// A stop leaves the volume before the change or after it. After a fault the volume is not to
/// be used again.
pub(crate) fn make_planned<W: World>(
    volume: &mut Volume,
    world: &mut W,
    change: &Change,
    moment: Option<Moment>,
    touched: Touches,
    edit: Edit,
) -> Result<Touches, LineFault>
    requires ready { IsReady volume.old (W.blocks world.old Side.Volume) }
    requires stands { W.told → StandsOn volume.old (disk Side.Volume (now (W.log world.old))) }
    requires touched { (bytes : ℕ → List ℕ) → touched ≡ touches (tree_on volume.old bytes) change.now }
    requires edit { Writes volume.old change.now moment edit }
    ensures any_moment { W.told → let old = stored_on volume.old (disk Side.Volume (now (W.log world.old))).bytes in
        Runs Side.Volume (LeavesEither (Some old) (Some (after_change (W.blocks world.old Side.Volume) old change.now moment))) (W.log world.old) (W.log world.new) }
    ensures answer { W.told → MeetsChange (W.blocks world.old Side.Volume) (stored_on volume.old (disk Side.Volume (now (W.log world.old))).bytes) change.now moment
        (stored_on volume.new (disk Side.Volume (now (W.log world.new))).bytes) result }
    ensures ready { NoFault result → IsReady volume.new (W.blocks world.old Side.Volume) }
    ensures stands { W.told → NoFault result → StandsOn volume.new (disk Side.Volume (now (W.log world.new))) }
    ensures err { OnErr result (NoFault result → volume.new ≡ volume.old) }
    ensures head { volume.new.head ≡ volume.old.head }
    ensures looks { volume.new.looks ≡ volume.old.looks }
    ensures blocks { W.blocks world.new ≡ W.blocks world.old }
    ensures never_less { NeverLess (W.faults world.old) (W.faults world.new) }
    ensures fault { BlamesOnly RefusedSide.Volume result (W.faults world.old) (W.faults world.new) }
{
    let made = apply_without_data(volume, world, edit);
    touching(made, touched)
}

/// What is planned for a change that brings no data and touches these folders.
fn plan_without_data(
    volume: &Volume,
    change: &Change,
    moment: Option<Moment>,
    touched: &Touches,
) -> Result<Edit, LineFault>
    requires change { IsChange change.now }
    requires no_data { BringsNoData change.now }
    requires touched { (bytes : ℕ → List ℕ) → touched.now ≡ touches (tree_on volume.now bytes) change.now }
    ensures { Plans volume.now change.now moment result }
{
    match change {
        Change::Mkdir { path } => plan_new(volume, path, NewItem::Folder, moment),
        Change::Ln { path, target } => {
            plan_new(volume, path, NewItem::Link(target.clone()?), moment)
        }
        Change::Rm { path } => plan_rm(volume, change, path, moment),
        Change::Rmdir { path } => plan_rmdir(volume, change, path, moment),
        Change::Mv { path, to } => plan_mv(volume, change, path, to, moment),
        Change::Chmod { path, .. }
        | Change::Chown { path, .. }
        | Change::Setx { path, .. }
        | Change::Rmx { path, .. } => plan_attrs(volume, path, change, touched),
        _ => unreachable!(),
    }
}

/// Makes a change that brings no data, in one commit, and answers what it touched. The lack of
/// room refuses it last.
///
/// A stop leaves the volume before the change or after it. After a fault the volume is not to
/// be used again.
pub(crate) fn change_without_data<W: World>(
    volume: &mut Volume,
    world: &mut W,
    change: &Change,
    moment: Option<Moment>,
) -> Result<Touches, LineFault>
    requires change { IsChange change.now }
    requires no_data { BringsNoData change.now }
    requires ready { IsReady volume.old (W.blocks world.old Side.Volume) }
    requires stands { W.told → StandsOn volume.old (disk Side.Volume (now (W.log world.old))) }
    ensures any_moment { W.told → let old = stored_on volume.old (disk Side.Volume (now (W.log world.old))).bytes in
        Runs Side.Volume (LeavesEither (Some old) (Some (after_change (W.blocks world.old Side.Volume) old change.now moment))) (W.log world.old) (W.log world.new) }
    ensures answer { W.told → MeetsChange (W.blocks world.old Side.Volume) (stored_on volume.old (disk Side.Volume (now (W.log world.old))).bytes) change.now moment
        (stored_on volume.new (disk Side.Volume (now (W.log world.new))).bytes) result }
    ensures ready { NoFault result → IsReady volume.new (W.blocks world.old Side.Volume) }
    ensures stands { W.told → NoFault result → StandsOn volume.new (disk Side.Volume (now (W.log world.new))) }
    ensures err { OnErr result (NoFault result → volume.new ≡ volume.old) }
    ensures head { volume.new.head ≡ volume.old.head }
    ensures looks { volume.new.looks ≡ volume.old.looks }
    ensures blocks { W.blocks world.new ≡ W.blocks world.old }
    ensures never_less { NeverLess (W.faults world.old) (W.faults world.new) }
    ensures fault { BlamesOnly RefusedSide.Volume result (W.faults world.old) (W.faults world.new) }
{
    let touched = touched_by(volume, change)?;
    // An option that is used again is copied before it is passed.
    let same = moment;
    let edit = plan_without_data(volume, change, same, &touched)?;
    make_planned(volume, world, change, moment, touched, edit)
}
