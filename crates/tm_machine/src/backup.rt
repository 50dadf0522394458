//! Backups.
ghost use Rattle.std.specs.Prelude.{◌≡◌, ◌≤◌, [], ℕ, List, Some, None, Err, IfOk, length};
ghost use Rattle.tm_image.specs.Seen.{Stands};
ghost use Rattle.tm_store.specs.Answers.{IfRefused};
ghost use Rattle.tm_store_records.specs.Held.{IsWhole, MayFinish, store_on, store_stored_on};
ghost use Rattle.tm_volume.specs.Seen.{IsKept, IsReady, StandsOn, stored_on as volume_stored_on};
ghost use Rattle.tm_world.specs.Faults.{NeverLess, Blames};
ghost use Rattle.tm_world.specs.Log.{now};
ghost use Rattle.tm_world.specs.Outside.{AreApart, disk};
ghost use Rattle.tm_world.specs.Runs.{Runs};
ghost use Rattle.tm_world.specs.declared.world.Side.TheVariants.{Volume as VolumeSide, Store as StoreSide};
ghost use Rattle.tm_machine.specs.Allowed.{Did, MayBackUp};
ghost use Rattle.tm_machine.specs.Backups.{ComesLater, DoesBackup, DoesCopy, Starts};
ghost use Rattle.tm_machine.specs.Session.{IfReplied, IsIdle, IsOpen, Standing, state_on};

use crate::session::Session;
use std::alloc::Global;
use tm_backup::{Copied, copy_volume};
use tm_base::limits::MAX_SNAPSHOTS;
use tm_base::{LineFault, Moment, Refused, Side};
use tm_reply::{ReplyRow, ReplyRows};
use tm_snapshot::completed_is_sized;
use tm_store::Store;
use tm_store_records::{held_is_store, held_sizes};
use tm_tree::Mark;
use tm_volume::Volume;
use tm_volume::laws::standing_volume_is_left;
use tm_world::{Failed, World};

/// The number at which backups end.
const LAST_NUMBER: u64 = 1 << 40;

// A backup of this date may follow the snapshots: it is later than the last one.
fn check_later(store: &Store, date: Moment) -> Result<(), Refused>
    ensures { ComesLater store.now.snapshots date result }
{
    let Some(latest) = store.snapshots().as_slice().last() else {
        return Ok(());
    };
    if date <= latest.date {
        return Err(Refused::DateNotLater { date: latest.date });
    }
    Ok(())
}

// The date of a backup that starts now, or why none may.
fn start_date(store: &Store, moment: Option<Moment>) -> Result<Moment, Refused>
    requires { IsWhole store.now }
    ensures starts { (bytes : ℕ → List ℕ) → Starts (store_on store.now bytes) moment result }
    ensures may { IfOk result (MayFinish store.now) }
{
    let count = store.snapshots().as_slice().len();
    if count >= MAX_SNAPSHOTS {
        return Err(Refused::TooMany {
            count: count as u128 + 1,
        });
    }
    let Some(date) = moment else {
        return Err(Refused::NoMoment);
    };
    check_later(store, date)?;
    if store.number() >= LAST_NUMBER {
        return Err(Refused::IdsSpent);
    }
    Ok(date)
}

impl Session {
    /// `tmutil startbackup --block`: a backup starts now, and finishes at once or ends.
    pub(crate) fn back_up<W: World>(&mut self, world: &mut W) -> Result<ReplyRows, LineFault>
        requires open { IsOpen self.old (W.blocks world.old) }
        requires standing { W.told → Standing self.old (now (W.log world.old)) }
        ensures does { W.told → Did (MayBackUp (state_on self.old (now (W.log world.old)))) self.old self.new (W.log world.old) (W.log world.new) result }
        ensures standing { W.told → IfReplied result (Standing self.new (now (W.log world.new))) }
        ensures open { IfReplied result (IsOpen self.new (W.blocks world.new)) }
        ensures blocks { W.blocks world.new ≡ W.blocks world.old }
        ensures never_less { NeverLess (W.faults world.old) (W.faults world.new) }
        ensures fault { Blames result (W.faults world.old) (W.faults world.new) }
    {
        standing_volume_is_left();
        let moment = self.moment;
        let Some(volume) = &mut self.volume else {
            return Err(LineFault::Refused(Refused::NoVolume));
        };
        let Some(store) = &mut self.store else {
            return Err(LineFault::Refused(Refused::NoStore));
        };
        let date = start_date(store, moment)?;
        run_backup(self.alloc, world, volume, store, date)
    }
}

// A backup of this date from its start to its end: it finishes, or it is refused and its date goes.
fn run_backup<W: World>(
    alloc: Global,
    world: &mut W,
    volume: &mut Volume,
    store: &mut Store,
    date: Moment,
) -> Result<ReplyRows, LineFault>
    requires kept { IsKept volume.old }
    requires ready { IsReady volume.old (W.blocks world.old VolumeSide) }
    requires idle { IsIdle store.old (W.blocks world.old StoreSide) }
    requires next { MayFinish store.old date }
    requires apart { W.told → AreApart (now (W.log world.old)) }
    requires volume_stands { W.told → StandsOn volume.old (disk VolumeSide (now (W.log world.old))) }
    requires stands { W.told → Stands store.old.image (disk StoreSide (now (W.log world.old))) }
    ensures does { W.told → let s = store_stored_on store.old (disk StoreSide (now (W.log world.old))).bytes in let v = volume_stored_on volume.old (disk VolumeSide (now (W.log world.old))).bytes in
        DoesBackup (W.blocks world.old StoreSide) s v date (store_stored_on store.new (disk StoreSide (now (W.log world.new))).bytes) (W.log world.old) (W.log world.new) result }
    ensures alone { W.told → Runs StoreSide (λ _. Unit {0}) (W.log world.old) (W.log world.new) }
    ensures stands { W.told → IfReplied result (Stands store.new.image (disk StoreSide (now (W.log world.new)))) }
    ensures idle { IfReplied result (IsIdle store.new (W.blocks world.old StoreSide)) }
    ensures volume { volume.new ≡ record volume.old { looks = volume.new.looks } }
    ensures blocks { W.blocks world.new ≡ W.blocks world.old }
    ensures never_less { NeverLess (W.faults world.old) (W.faults world.new) }
    ensures fault { Blames result (W.faults world.old) (W.faults world.new) }
{
    match store.begin(world, date) {
        Ok(()) => {}
        Err(Failed) => return Err(LineFault::Fault(Side::Store)),
    }
    match copy_and_finish(alloc, world, volume, store, date) {
        Ok(rows) => Ok(rows),
        Err(LineFault::Refused(why)) => match store.cancel(world) {
            Ok(()) => Err(LineFault::Refused(why)),
            Err(Failed) => Err(LineFault::Fault(Side::Store)),
        },
        Err(LineFault::Fault(side)) => Err(LineFault::Fault(side)),
        Err(LineFault::Memory) => Err(LineFault::Memory),
    }
}

// Copies the volume into the store, in which a backup of this date runs, and finishes that backup.
fn copy_and_finish<W: World>(
    alloc: Global,
    world: &mut W,
    volume: &mut Volume,
    store: &mut Store,
    date: Moment,
) -> Result<ReplyRows, LineFault>
    requires kept { IsKept volume.old }
    requires ready { IsReady volume.old (W.blocks world.old VolumeSide) }
    requires whole { IsWhole store.old }
    requires count { length store.old.image.used ≡ W.blocks world.old StoreSide }
    requires running { store.old.running ≡ Some date }
    requires unstaged { store.old.staged ≡ [] }
    requires apart { W.told → AreApart (now (W.log world.old)) }
    requires volume_stands { W.told → StandsOn volume.old (disk VolumeSide (now (W.log world.old))) }
    requires stands { W.told → Stands store.old.image (disk StoreSide (now (W.log world.old))) }
    ensures does { W.told → let s = store_on store.old (disk StoreSide (now (W.log world.old))).bytes in let v = volume_stored_on volume.old (disk VolumeSide (now (W.log world.old))).bytes in
        DoesCopy (W.blocks world.old StoreSide) s v date (store_stored_on store.new (disk StoreSide (now (W.log world.new))).bytes) (W.log world.old) (W.log world.new) result }
    ensures alone { W.told → Runs StoreSide (λ _. Unit {0}) (W.log world.old) (W.log world.new) }
    ensures stands { W.told → IfReplied result (Stands store.new.image (disk StoreSide (now (W.log world.new)))) }
    ensures whole { IfReplied result (IsWhole store.new) }
    ensures size { IfReplied result (length store.new.image.used ≡ length store.old.image.used) }
    ensures idle { IfOk result (λ _. (store.new.running ≡ None) × (store.new.staged ≡ [])) }
    ensures running { IfRefused result (λ _. store.new.running ≡ Some date) }
    ensures volume { volume.new ≡ record volume.old { looks = volume.new.looks } }
    ensures blocks { W.blocks world.new ≡ W.blocks world.old }
    ensures never_less { NeverLess (W.faults world.old) (W.faults world.new) }
    ensures fault { Blames result (W.faults world.old) (W.faults world.new) }
{
    held_is_store();
    held_sizes();
    completed_is_sized();
    let Copied { built, walked } = copy_volume(alloc, world, volume, store)?;
    let info = volume.info();
    let mark = Mark {
        generation: info.generation,
        cursor: info.next - 1,
    };
    let mut rows = ReplyRows::new(alloc);
    rows.push(ReplyRow::Finished { date, walked })?;
    store.complete(world, built, volume.name(), info.id, &mark)?;
    Ok(rows)
}
