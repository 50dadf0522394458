//! The date of the backup that runs.
ghost use Rattle.std.specs.Prelude.{◌≡◌, ◌<◌, ◌^◌, [], Some, None, IsSome, OnOk, OnErr, length};
ghost use Rattle.std.specs.List.{All};
ghost use Rattle.tm_world.specs.Outside.{disk, part_of};
ghost use Rattle.tm_world.specs.Log.{now};
ghost use Rattle.tm_world.specs.Runs.{Runs};
ghost use Rattle.tm_world.specs.Faults.{NeverLess, Rose};
ghost use Rattle.tm_image.specs.Seen.{Stands};
ghost use Rattle.tm_store_records.specs.States.{LeavesStore};
ghost use Rattle.tm_store_records.specs.Held.{IsWhole, MayFinish, store_on, store_stored_on};

use crate::Store;
use tm_base::Moment;
use tm_store_records::write_tag;
use tm_world::{Failed, Side, World};

impl Store {
    /// Begins a backup: its date runs, on the image too. It takes no memory, and fails only where
    /// this side's count of faults rose.
    ///
    /// No date runs before, the date is later than that of each snapshot, there are fewer than 1,024
    /// of them, and a number is left. A stop leaves the store with the date that the tag had, or with
    /// this one; after a failure the store is not to be used again.
    pub fn begin<W: World>(&mut self, world: &mut W, date: Moment) -> Result<(), Failed>
        requires whole { IsWhole self.old }
        requires idle { self.old.running ≡ None }
        requires next { MayFinish self.old date }
        requires count { length self.old.image.used ≡ W.blocks world.old Side.Store }
        requires stands { W.told → Stands self.old.image (disk Side.Store (now (W.log world.old))) }
        ensures any_moment { W.told → let old = (disk Side.Store (now (W.log world.old))).bytes in
            Runs Side.Store (LeavesStore (store_stored_on self.old old) (record { store = store_on self.old old; running = Some date })) (W.log world.old) (W.log world.new) }
        ensures stands { W.told → OnOk result (Stands self.new.image (disk Side.Store (now (W.log world.new)))) }
        ensures state { W.told → OnOk result (store_on self.new (disk Side.Store (now (W.log world.new))).bytes ≡ store_on self.old (disk Side.Store (now (W.log world.old))).bytes) }
        ensures running { OnOk result ((self.new.running ≡ Some date) × (self.new.stored ≡ Some date)) }
        ensures same { OnOk result ((self.new.nodes ≡ self.old.nodes) × (self.new.machine ≡ self.old.machine) × (self.new.snapshots ≡ self.old.snapshots) × (self.new.number ≡ self.old.number) × (self.new.staged ≡ self.old.staged)) }
        ensures size { length self.new.image.used ≡ length self.old.image.used }
        ensures whole { OnOk result (IsWhole self.new) }
        ensures err { OnErr result (self.new ≡ self.old) }
        ensures blocks { W.blocks world.new ≡ W.blocks world.old }
        ensures never_less { NeverLess (W.faults world.old) (W.faults world.new) }
        ensures cause { OnErr result (Rose (W.faults world.old (part_of Side.Store)) (W.faults world.new (part_of Side.Store))) }
    {
        let tag = write_tag(Some(date), self.number);
        self.image.retag(world, tag)?;
        // This shows that the image is sound.
        let _ = self.image.total();
        self.running = Some(date);
        self.stored = Some(date);
        Ok(())
    }

    /// Ends a backup that runs: no date runs afterwards, and all staged blobs are given back. It
    /// takes no memory, and fails only where this side's count of faults rose.
    ///
    /// A stop leaves the store with the date or without one; after a failure the store is not to be
    /// used again.
    pub fn cancel<W: World>(&mut self, world: &mut W) -> Result<(), Failed>
        requires whole { IsWhole self.old }
        requires running { IsSome self.old.running }
        requires count { length self.old.image.used ≡ W.blocks world.old Side.Store }
        requires stands { W.told → Stands self.old.image (disk Side.Store (now (W.log world.old))) }
        ensures any_moment { W.told → let old = (disk Side.Store (now (W.log world.old))).bytes in
            Runs Side.Store (LeavesStore (store_stored_on self.old old) (record { store = store_on self.old old; running = None })) (W.log world.old) (W.log world.new) }
        ensures stands { W.told → OnOk result (Stands self.new.image (disk Side.Store (now (W.log world.new)))) }
        ensures state { W.told → OnOk result (store_on self.new (disk Side.Store (now (W.log world.new))).bytes ≡ store_on self.old (disk Side.Store (now (W.log world.old))).bytes) }
        ensures running { OnOk result ((self.new.running ≡ None) × (self.new.stored ≡ None) × (self.new.staged ≡ [])) }
        ensures same { OnOk result ((self.new.nodes ≡ self.old.nodes) × (self.new.machine ≡ self.old.machine) × (self.new.snapshots ≡ self.old.snapshots) × (self.new.number ≡ self.old.number)) }
        ensures size { length self.new.image.used ≡ length self.old.image.used }
        ensures whole { OnOk result (IsWhole self.new) }
        ensures err { OnErr result (self.new ≡ self.old) }
        ensures blocks { W.blocks world.new ≡ W.blocks world.old }
        ensures never_less { NeverLess (W.faults world.old) (W.faults world.new) }
        ensures cause { OnErr result (Rose (W.faults world.old (part_of Side.Store)) (W.faults world.new (part_of Side.Store))) }
    {
        let tag = write_tag(None, self.number);
        self.image.retag(world, tag)?;
        self.running = None;
        self.stored = None;
        self.give_back_all();
        Ok(())
    }
}
