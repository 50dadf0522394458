//! Changes, each in one commit.
ghost use Rattle.std.specs.Prelude.{◌≡◌, Some, true, false, OnErr};
ghost use Rattle.tm_base.specs.LineFaults.{NoFault};
ghost use Rattle.tm_world.specs.Faults.{BlamesOnly, NeverLess};
ghost use Rattle.tm_world.specs.Log.{now};
ghost use Rattle.tm_world.specs.Outside.{disk};
ghost use Rattle.tm_world.specs.Runs.{Runs};
ghost use Rattle.tm_base.specs.declared.refused.Side.{Side as RefusedSide};
ghost use Rattle.tm_changes.specs.Answers.{MeetsChange};
ghost use Rattle.tm_changes.specs.Changes.{after_change, IsChange};
ghost use Rattle.tm_changes.specs.Plans.{BringsNoData};
ghost use Rattle.tm_volume.specs.Reads.{LeavesEither};
ghost use Rattle.tm_volume.specs.Seen.{IsReady, StandsOn, stored_on};
ghost use Rattle.tm_changes.specs.Writes.{BringsData};

use crate::with_data::change_with_data;
use crate::without_data::change_without_data;
use tm_base::{LineFault, Moment};
use tm_tree::{Change, Touches};
use tm_volume::Volume;
use tm_world::{Side, World};

/// Whether a change brings data.
fn brings_data(change: &Change) -> bool
    ensures yes { result ≡ true → BringsData change.now }
    ensures no { result ≡ false → BringsNoData change.now }
{
    matches!(
        change,
        Change::Write { .. }
            | Change::Append { .. }
            | Change::Fill { .. }
            | Change::Fix { .. }
            | Change::Unfix { .. }
    )
}

/// Makes a change, in one commit, and answers what it touched. It is refused exactly by the
/// least test that holds, the lack of room last; after a refusal, and where memory is refused,
/// all is as before.
///
/// A stop leaves the volume before the change or after it. After a fault the volume is not to
/// be used again.
pub fn change<W: World>(
    volume: &mut Volume,
    world: &mut W,
    change: &Change,
    moment: Option<Moment>,
) -> Result<Touches, LineFault>
    requires change { IsChange change.now }
    requires ready { IsReady volume.old (W.blocks world.old Side.Volume) }
    requires stands { W.told → StandsOn volume.old (disk Side.Volume (now (W.log world.old))) }
    ensures any_moment { W.told → let old = stored_on volume.old (disk Side.Volume (now (W.log world.old))).bytes in
        Runs Side.Volume (LeavesEither (Some old) (Some (after_change (W.blocks world.old Side.Volume) old change.now moment))) (W.log world.old) (W.log world.new) }
    ensures answer { W.told → MeetsChange (W.blocks world.old Side.Volume) (stored_on volume.old (disk Side.Volume (now (W.log world.old))).bytes) change.now moment
        (stored_on volume.new (disk Side.Volume (now (W.log world.new))).bytes) result }
    ensures ready { NoFault result → IsReady volume.new (W.blocks world.old Side.Volume) }
    ensures stands { W.told → NoFault result → StandsOn volume.new (disk Side.Volume (now (W.log world.new))) }
    ensures err { OnErr result (NoFault result → volume.new ≡ volume.old) }
    ensures head { volume.new.head ≡ volume.old.head }
    ensures looks { volume.new.looks ≡ volume.old.looks }
    ensures blocks { W.blocks world.new ≡ W.blocks world.old }
    ensures never_less { NeverLess (W.faults world.old) (W.faults world.new) }
    ensures fault { BlamesOnly RefusedSide.Volume result (W.faults world.old) (W.faults world.new) }
{
    if brings_data(change) {
        change_with_data(volume, world, change, moment)
    } else {
        change_without_data(volume, world, change, moment)
    }
}
