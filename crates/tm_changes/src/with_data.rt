//! Changes that bring data, as they were planned.
ghost use Rattle.std.specs.Prelude.{◌≡◌, ◌<◌, ℕ, Some, List, OnErr, length};
ghost use Rattle.tm_base.specs.LineFaults.{NoFault};
ghost use Rattle.tm_tree.specs.Touches.{touches};
ghost use Rattle.tm_changes.specs.Answers.{MeetsChange};
ghost use Rattle.tm_changes.specs.Changes.{after_change};
ghost use Rattle.tm_volume.specs.Reads.{LeavesEither};
ghost use Rattle.tm_volume.specs.Seen.{IsReady, StandsOn, stored_on, tree_on, volume_on};
ghost use Rattle.tm_changes.specs.Writes.{IsBringing, WritesData, staged_data, BringsData, PlansData};
ghost use Rattle.tm_world.specs.Faults.{BlamesOnly, NeverLess};
ghost use Rattle.tm_world.specs.Log.{now};
ghost use Rattle.tm_world.specs.Outside.{disk};
ghost use Rattle.tm_world.specs.Runs.{Runs};
ghost use Rattle.tm_base.specs.declared.refused.Side.{Side as RefusedSide};
ghost use Rattle.tm_changes.specs.Fitting.{staged_len};

use crate::data::data_of;
use crate::files::plan_written;
use crate::fixing::plan_fixed;
use crate::touched::touched_by;
use crate::without_data::touching;
use tm_base::{LineFault, Moment, Side as RefusedSide};
use tm_records::Body;
use tm_tree::{Change, Touches};
use tm_volume::laws::standing_volume_is_left;
use tm_volume::{Edit, Volume};
use tm_world::{Blob, Side, World};

/// The edit, whose first put brings this blob.
fn bring(edit: Edit, blob: Blob) -> Edit
    requires { 0 < length edit.put.items }
    ensures { IsBringing edit result blob }
{
    let mut edit = edit;
    edit.put[0].body = Body::New(blob);
    edit
}

/// Makes a change that brings these data by an edit that was planned for it, in one commit, and
/// answers what it touched. The lack of room refuses it last; then, and where memory is
/// refused, all is as before.
///
/// A stop leaves the volume before or after. After a fault the volume is not to be used again.
pub(crate) fn bring_planned<W: World>(
    volume: &mut Volume,
    world: &mut W,
    change: &Change,
    moment: Option<Moment>,
    touched: Touches,
    edit: Edit,
    contents: &[u8],
) -> Result<Touches, LineFault>
    requires ready { IsReady volume.old (W.blocks world.old Side.Volume) }
    requires stands { W.told → StandsOn volume.old (disk Side.Volume (now (W.log world.old))) }
    requires touched { (bytes : ℕ → List ℕ) → touched ≡ touches (tree_on volume.old bytes) change.now }
    requires edit { WritesData volume.old change.now moment (length contents.now) edit }
    requires contents { W.told → contents.now ≡ staged_data (volume_on volume.old (disk Side.Volume (now (W.log world.old))).bytes).contents change.now }
    ensures any_moment { W.told → let old = stored_on volume.old (disk Side.Volume (now (W.log world.old))).bytes in
        Runs Side.Volume (LeavesEither (Some old) (Some (after_change (W.blocks world.old Side.Volume) old change.now moment))) (W.log world.old) (W.log world.new) }
    ensures answer { W.told → MeetsChange (W.blocks world.old Side.Volume) (stored_on volume.old (disk Side.Volume (now (W.log world.old))).bytes) change.now moment
        (stored_on volume.new (disk Side.Volume (now (W.log world.new))).bytes) result }
    ensures ready { NoFault result → IsReady volume.new (W.blocks world.old Side.Volume) }
    ensures stands { W.told → NoFault result → StandsOn volume.new (disk Side.Volume (now (W.log world.new))) }
    ensures err { OnErr result (NoFault result → volume.new ≡ volume.old) }
    ensures head { volume.new.head ≡ volume.old.head }
    ensures looks { volume.new.looks ≡ volume.old.looks }
    ensures blocks { W.blocks world.new ≡ W.blocks world.old }
    ensures never_less { NeverLess (W.faults world.old) (W.faults world.new) }
    ensures fault { BlamesOnly RefusedSide.Volume result (W.faults world.old) (W.faults world.new) }
{
    volume.rules();
    match volume.stage(world, contents) {
        Ok(blob) => {
            let made = volume.apply(world, bring(edit, blob));
            volume.rules();
            touching(made, touched)
        }
        Err(fault) => Err(fault),
    }
}

/// What is planned for a change that brings data.
fn plan_with_data(
    volume: &Volume,
    change: &Change,
    moment: Option<Moment>,
) -> Result<Edit, LineFault>
    requires { BringsData change.now }
    ensures { (bytes : ℕ → List ℕ) → PlansData volume.now change.now moment (staged_len (volume_on volume.now bytes).contents change.now) result }
{
    match change {
        Change::Fix { .. } | Change::Unfix { .. } => plan_fixed(volume, change),
        Change::Write { .. } | Change::Append { .. } | Change::Fill { .. } => {
            plan_written(volume, change, moment)
        }
        _ => unreachable!(),
    }
}

/// Makes a change that brings data, in one commit, and answers what it touched. The lack of
/// room refuses it last.
///
/// A stop leaves the volume before the change or after it. After a fault the volume is not to
/// be used again.
pub(crate) fn change_with_data<W: World>(
    volume: &mut Volume,
    world: &mut W,
    change: &Change,
    moment: Option<Moment>,
) -> Result<Touches, LineFault>
    requires brings { BringsData change.now }
    requires ready { IsReady volume.old (W.blocks world.old Side.Volume) }
    requires stands { W.told → StandsOn volume.old (disk Side.Volume (now (W.log world.old))) }
    ensures any_moment { W.told → let old = stored_on volume.old (disk Side.Volume (now (W.log world.old))).bytes in
        Runs Side.Volume (LeavesEither (Some old) (Some (after_change (W.blocks world.old Side.Volume) old change.now moment))) (W.log world.old) (W.log world.new) }
    ensures answer { W.told → MeetsChange (W.blocks world.old Side.Volume) (stored_on volume.old (disk Side.Volume (now (W.log world.old))).bytes) change.now moment
        (stored_on volume.new (disk Side.Volume (now (W.log world.new))).bytes) result }
    ensures ready { NoFault result → IsReady volume.new (W.blocks world.old Side.Volume) }
    ensures stands { W.told → NoFault result → StandsOn volume.new (disk Side.Volume (now (W.log world.new))) }
    ensures err { OnErr result (NoFault result → volume.new ≡ volume.old) }
    ensures head { volume.new.head ≡ volume.old.head }
    ensures looks { volume.new.looks ≡ volume.old.looks }
    ensures blocks { W.blocks world.new ≡ W.blocks world.old }
    ensures never_less { NeverLess (W.faults world.old) (W.faults world.new) }
    ensures fault { BlamesOnly RefusedSide.Volume result (W.faults world.old) (W.faults world.new) }
{
    volume.rules();
    standing_volume_is_left();
    let touched = touched_by(volume, change)?;
    // An option that is used again is copied before it is passed.
    let same = moment;
    let edit = plan_with_data(volume, change, same)?;
    let bytes = data_of(volume, world, change)?;
    bring_planned(
        volume,
        world,
        change,
        moment,
        touched,
        edit,
        bytes.as_slice(),
    )
}
