//! The end of a backup.
ghost use Rattle.std.specs.Prelude.{◌≡◌, ◌≢◌, ◌+◌, ◌<◌, ◌≤◌, ℕ, [], Some, None, Err, OnOk, OnErr, IsErrOf, IfSome, IsSome, sum_by, length};
ghost use Rattle.std.specs.List.{All};
ghost use Rattle.tm_world.specs.Outside.{disk, part_of};
ghost use Rattle.tm_world.specs.Log.{now};
ghost use Rattle.tm_world.specs.Runs.{Runs};
ghost use Rattle.tm_world.specs.Faults.{NeverLess, Rose};
ghost use Rattle.tm_blockmap.specs.Counts.{times};
ghost use Rattle.tm_image.specs.Seen.{IsSettled, IsSound, Stands, staged};
ghost use Rattle.tm_image.specs.Reads.{LeavesOneOf, entries_of};
ghost use Rattle.tm_image.specs.Room.{AreStaged, HasRoom, free_of};
ghost use Rattle.tm_image.specs.Commit.{IsPut, brought_by, changed};
ghost use Rattle.tm_store_records.specs.Tags.{FitsTag, tag_of};
ghost use Rattle.tm_store_records.specs.States.{LeavesStore};
ghost use Rattle.tm_store_records.specs.Held.{IsWhole, store_on, store_stored_on};
ghost use Rattle.tm_store_records.specs.Built.{IsBuilt, IsMark, store_completed};
ghost use Rattle.tm_store.specs.Answers.{IfRefused, BlamesStore, OnRefusal};
ghost use Rattle.tm_store.specs.Joining.{need_to_put};
ghost use Rattle.tm_snapshot.specs.Completing.{IsCompleted, after_complete, complete_refusal};

use crate::Store;
use crate::blank::same_name;
use crate::join::Joined;
use tm_base::limits::MAX_NODES;
use tm_base::{LineFault, Name, Refused, Side as RefusedSide};
use tm_graph::{Built, grown_reads};
use tm_image::{Changes, ImageError};
use tm_snapshot::{built_may_grow, need_is_told, puts_fit, puts_grow};
use tm_store_records::{Snapshot, held_is_store, write_tag};
use tm_tree::Mark;
use tm_world::{Side, World};

impl Store {
    /// Finishes the backup that runs: a new snapshot has the tree that was built, and no date runs
    /// afterwards. It gives back the staged blobs that aren't among the built ones.
    ///
    /// `TooMany` comes exactly where there would be more than 262,144 nodes, and then `Full` exactly
    /// by the rule of room; after them all is as before. A stop leaves the store before or after.
    /// After want of memory nothing outside changed, and the store is not to be used again; nor is it
    /// after a failure.
    pub fn complete<W: World>(
        &mut self,
        world: &mut W,
        built: Built,
        volume: &Name,
        id: u128,
        mark: &Mark,
    ) -> Result<(), LineFault>
        requires whole { IsWhole self.old }
        requires running { IsSome self.old.running }
        requires mark { IsMark mark.now }
        requires built { IsBuilt self.old built }
        requires staged { (b : ℕ) → sum_by (λ x. times b x.1.blocks) built.blobs ≤ times b self.old.staged }
        requires count { length self.old.image.used ≡ W.blocks world.old Side.Store }
        requires stands { W.told → Stands self.old.image (disk Side.Store (now (W.log world.old))) }
        ensures any_moment { W.told → let old = (disk Side.Store (now (W.log world.old))).bytes in
            IfSome self.old.running (λ date. Runs Side.Store (LeavesStore (store_stored_on self.old old) (after_complete self.old built date volume.now id mark.now old)) (W.log world.old) (W.log world.new)) }
        ensures stands { W.told → OnOk result (Stands self.new.image (disk Side.Store (now (W.log world.new)))) }
        ensures state { W.told → let old = (disk Side.Store (now (W.log world.old))).bytes in
            OnOk result (IfSome self.old.running (λ date. store_on self.new (disk Side.Store (now (W.log world.new))).bytes ≡ store_completed self.old built date volume.now id mark.now old)) }
        ensures parts { OnOk result (IfSome self.old.running (λ date. IsCompleted self.old self.new built date volume.now id mark.now)) }
        ensures size { OnOk result (length self.new.image.used ≡ length self.old.image.used) }
        ensures whole { OnOk result (IsWhole self.new) }
        ensures done { OnOk result (IfSome self.old.running (λ date. complete_refusal self.old built date volume.now id mark.now ≡ None)) }
        ensures refused { IfSome self.old.running (λ date. IfRefused result (λ why. complete_refusal self.old built date volume.now id mark.now ≡ Some why)) }
        ensures err { IfRefused result (λ why. self.new ≡ self.old) }
        ensures untouched { OnRefusal result (world.new ≡ world.old) }
        ensures blocks { W.blocks world.new ≡ W.blocks world.old }
        ensures never_less { NeverLess (W.faults world.old) (W.faults world.new) }
        ensures fault { BlamesStore result (W.faults world.old) (W.faults world.new) }
    {
        built_may_grow();
        puts_grow();
        puts_fit();
        need_is_told();
        grown_reads();
        held_is_store();
        let count = self.count_with(&built);
        if count > MAX_NODES {
            let count = u128::from(count);
            return Err(LineFault::Refused(Refused::TooMany { count }));
        }
        let Some(date) = self.running() else {
            unreachable!()
        };
        let root = built.root;
        let snapshot = Snapshot {
            number: self.number(),
            date,
            volume: same_name(volume)?,
            id,
            mark: *mark,
            root,
        };
        let joined = self.join(built, snapshot)?;
        match self.commit_joined(world, joined) {
            Ok(()) => Ok(()),
            Err(ImageError::Fault) => Err(LineFault::Fault(RefusedSide::Store)),
            Err(ImageError::Full { need, free }) => {
                self.part(root)?;
                Err(LineFault::Refused(Refused::Full { need, free }))
            }
            Err(ImageError::Memory) => Err(LineFault::Memory),
        }
    }

    /// Commits what was joined: no date runs afterwards, and the staged blocks that are left are given
    /// back. Where the commit is refused or memory is, all is as before.
    fn commit_joined<W: World>(&mut self, world: &mut W, joined: Joined) -> Result<(), ImageError>
        requires side { self.old.image.side ≡ Side.Store }
        requires settled { IsSettled self.old.image }
        requires space { HasRoom self.old.image }
        requires count { length self.old.image.used ≡ W.blocks world.old Side.Store }
        requires put { All (IsPut self.old.image.records) joined.put.items }
        requires staged { (b : ℕ) → times b joined.left.items + brought_by b joined.put.items ≡ staged b self.old.image }
        requires some { changed [] joined.put.items self.old.image.records ≢ [] }
        requires number { FitsTag None (self.old.number + 1) }
        requires stands { W.told → Stands self.old.image (disk Side.Store (now (W.log world.old))) }
        ensures any_moment { W.told → let old = (disk Side.Store (now (W.log world.old))).bytes in
            Runs Side.Store (LeavesOneOf Side.Store (entries_of old self.old.image.records) self.old.image.root.tag
            (entries_of old (changed [] joined.put.items self.old.image.records)) (tag_of None (self.old.number + 1))) (W.log world.old) (W.log world.new) }
        ensures stands { W.told → OnOk result (Stands self.new.image (disk Side.Store (now (W.log world.new)))) }
        ensures data { W.told → OnOk result (entries_of (disk Side.Store (now (W.log world.new))).bytes self.new.image.records ≡ entries_of (disk Side.Store (now (W.log world.old))).bytes self.new.image.records) }
        ensures records { OnOk result (self.new.image.records ≡ changed [] joined.put.items self.old.image.records) }
        ensures tag { OnOk result (self.new.image.root.tag ≡ tag_of None (self.old.number + 1)) }
        ensures side { OnOk result (self.new.image.side ≡ Side.Store) }
        ensures size { OnOk result (length self.new.image.used ≡ length self.old.image.used) }
        ensures sound { OnOk result (IsSound self.new.image) }
        ensures settled { OnOk result (IsSettled self.new.image) }
        ensures space { OnOk result (HasRoom self.new.image) }
        ensures unstaged { OnOk result (AreStaged [] self.new.image) }
        ensures same { OnOk result (self.new ≡ record self.old { image = self.new.image; running = None; stored = None; number = self.old.number + 1; staged = [] }) }
        ensures err { OnErr result (result ≢ Err ImageError.Fault → self.new ≡ self.old) }
        ensures untouched { OnErr result (result ≢ Err ImageError.Fault → world.new ≡ world.old) }
        ensures full { (need free : ℕ) → result ≡ Err (ImageError.Full need free) → (free < need) × (free ≡ free_of self.old.image)
            × (need ≡ need_to_put self.old.image joined.put.items) }
        ensures fits { OnOk result (need_to_put self.old.image joined.put.items ≤ free_of self.old.image) }
        ensures tried { IsErrOf result ImageError.Fault → need_to_put self.old.image joined.put.items ≤ free_of self.old.image }
        ensures blocks { W.blocks world.new ≡ W.blocks world.old }
        ensures never_less { NeverLess (W.faults world.old) (W.faults world.new) }
        ensures fault { IsErrOf result ImageError.Fault → Rose (W.faults world.old (part_of Side.Store)) (W.faults world.new (part_of Side.Store)) }
    {
        let Joined { put, left } = joined;
        let remove = Vec::new(self.alloc);
        let tag = write_tag(None, self.number + 1);
        self.image.try_commit(world, Changes { remove, put }, tag)?;
        self.running = None;
        self.stored = None;
        self.number += 1;
        self.staged = left;
        self.give_back_all();
        Ok(())
    }
}
