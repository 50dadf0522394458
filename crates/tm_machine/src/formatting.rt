//! The lines that format an image.
ghost use Rattle.std.specs.Prelude.{◌≡◌, ◌==◌, ◌≤◌, [], ◌∷◌, Err, Some, ℕ, unwrap_or};
ghost use Rattle.std.specs.List.{list_any};
ghost use Rattle.tm_tree.specs.States.{new_store};
ghost use Rattle.tm_volume.specs.Stored.{new_stored};
ghost use Rattle.tm_world.specs.Faults.{NeverLess, Blames};
ghost use Rattle.tm_world.specs.Log.{now};
ghost use Rattle.tm_world.specs.Outside.{Outside};
ghost use Rattle.tm_machine.specs.Session.{Does, IfReplied, IsOpen, Standing, effect, state_on};
ghost use Rattle.tm_machine.specs.States.{kept, store_in};
ghost use Rattle.tm_machine.specs.Steps.{at_rest, is_taken, new_store_tests, new_volume_tests};
ghost use Rattle.tm_base.specs.Limits.{max_events};

use crate::session::Session;
use tm_base::limits::MIN_BLOCKS;
use tm_base::{LineFault, Name, Refused};
use tm_reply::ReplyRows;
use tm_store::laws::{blank_is_left, none_or_store};
use tm_store::{Snapshot, Store, held_reads};
use tm_volume::Volume;
use tm_volume::laws::{blank_is_left as volume_blank_is_left, standing_volume_is_left};
use tm_world::World;

impl Session {
    /// `newvolume`.
    pub(crate) fn new_volume<W: World>(
        &mut self,
        world: &mut W,
        name: &Name,
        id: u128,
        events: u32,
    ) -> Result<ReplyRows, LineFault>
        requires events { (1 ≤ events) × (events ≤ max_events) }
        requires open { IsOpen self.old (W.blocks world.old) }
        requires standing { W.told → Standing self.old (now (W.log world.old)) }
        ensures does { W.told → let s = state_on self.old (now (W.log world.old)) in
            let after = record s { volume = Some (new_stored name.now id events (unwrap_or s.moment 0)) } in
            Does (effect (new_volume_tests s id) [] after (kept after ∷ []) s) self.old self.new (W.log world.old) (W.log world.new) result }
        ensures open { IfReplied result (IsOpen self.new (W.blocks world.new)) }
        ensures blocks { W.blocks world.new ≡ W.blocks world.old }
        ensures never_less { NeverLess (W.faults world.old) (W.faults world.new) }
        ensures fault { Blames result (W.faults world.old) (W.faults world.new) }
    {
        standing_volume_is_left();
        volume_blank_is_left();
        held_reads();
        blank_is_left();
        if self.volume.is_some() {
            return Err(LineFault::Refused(Refused::Already));
        }
        if self.volume_blocks < MIN_BLOCKS {
            return Err(LineFault::Refused(Refused::Small));
        }
        let Some(moment) = self.moment else {
            return Err(LineFault::Refused(Refused::NoMoment));
        };
        if self.is_taken(id) {
            return Err(LineFault::Refused(Refused::IdTaken));
        }
        let blocks = self.volume_blocks;
        let volume = Volume::blank(self.alloc, world, blocks, name, id, events, moment)?;
        // The rules that it keeps come with what it says of itself.
        let _ = volume.info();
        self.volume = Some(volume);
        Ok(ReplyRows::new(self.alloc))
    }

    /// `newstore`.
    pub(crate) fn new_store<W: World>(
        &mut self,
        world: &mut W,
        machine: &Name,
    ) -> Result<ReplyRows, LineFault>
        requires open { IsOpen self.old (W.blocks world.old) }
        requires standing { W.told → Standing self.old (now (W.log world.old)) }
        ensures does { W.told → let s = state_on self.old (now (W.log world.old)) in
            let after = record s { store = Some (at_rest (new_store machine.now)) } in
            Does (effect (new_store_tests s) [] after (kept after ∷ []) s) self.old self.new (W.log world.old) (W.log world.new) result }
        ensures open { IfReplied result (IsOpen self.new (W.blocks world.new)) }
        ensures blocks { W.blocks world.new ≡ W.blocks world.old }
        ensures never_less { NeverLess (W.faults world.old) (W.faults world.new) }
        ensures fault { Blames result (W.faults world.old) (W.faults world.new) }
    {
        standing_volume_is_left();
        volume_blank_is_left();
        held_reads();
        blank_is_left();
        none_or_store();
        if self.store.is_some() {
            return Err(LineFault::Refused(Refused::Already));
        }
        if self.store_blocks < MIN_BLOCKS {
            return Err(LineFault::Refused(Refused::Small));
        }
        let store = Store::blank(self.alloc, world, self.store_blocks, machine)?;
        self.store = Some(store);
        Ok(ReplyRows::new(self.alloc))
    }

    // Whether a snapshot of the store has this volume id.
    fn is_taken(&self, id: u128) -> bool
        ensures { (o : Outside) → result ≡ is_taken (store_in (state_on self.now o).store) id }
    {
        match &self.store {
            Some(store) => has_id(store.snapshots().as_slice(), id),
            None => false,
        }
    }
}

fn has_id(snapshots: &[Snapshot], id: u128) -> bool
    ensures { result ≡ list_any (λ s. s.id == id) snapshots.now }
{
    snapshots.iter().any(|snapshot| snapshot.id == id)
}
