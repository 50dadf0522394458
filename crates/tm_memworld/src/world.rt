//! A world in memory.
ghost use Rattle.std.specs.Prelude.{◌≡◌, ◌≢◌, ◌<◌, ◌≤◌, ◌↔◌, ◌++◌, ◌||◌, [], ℕ, length, min, take, drop, Some, IsTrue, IsErr, IsSome, IsNone, IsOkAnd, IfOk, IfSome, IfNone, OnOk, OnErr, OnSome};
ghost use Rattle.std.specs.Option.{ForSome};
ghost use Rattle.tm_base.specs.Limits.{max_blocks};
ghost use Rattle.tm_world.specs.Outside.{disk, took, spoke, attached, attached_count, part_of};
ghost use Rattle.tm_world.specs.Log.{now, Steps, Says, Writes};
ghost use Rattle.tm_world.specs.Faults.{Rose, NeverLess};
ghost use Rattle.tm_world.specs.Pairs.{MayLeave};
ghost use Rattle.tm_world.specs.Torn.{as_read};
ghost use Rattle.tm_world.specs.Counts.{one_more};
ghost use Rattle.tm_memworld.specs.Putting.{with_script};
ghost use Rattle.tm_memworld.specs.State.{start, is_cut, used, called, faulted, with_outside, after_write, after_failed_write, after_sync, cannot_attach, with_image, with_place, after_stop, with_more};
ghost use Rattle.tm_memworld.specs.World.{state, clock, blocks_of};

use crate::devices::Devices;
use crate::error::Memory;
use crate::plan::FaultPlan;
use std::alloc::Global;
use tm_world::{Failed, Faults, Part, Side, World};

/// Images and scripts in memory, by path, with one clock (`docs/DISKS.md`, "A world in memory").
///
/// Its six calls of [`World`] take no memory: `room` takes it beforehand. They are counted from 0, whether they
/// fail or not, and each fails exactly where its number is one of `fail_at`, or is at or above the fuse, or less
/// room is left than it needs; `attach` besides where no script stands at the path, or no image can be made there.
#[derive(Drop)]
pub struct MemWorld {
    devices: Devices,
    plan: FaultPlan,
    faults: Faults,
}

#[tactic(auto, unfolding(crate::specs::World::state, crate::specs::World::clock))]
impl MemWorld {
    /// An empty world without room. It takes no memory.
    pub fn new(alloc: Global) -> Result<MemWorld, Memory>
        ensures { IsOkAnd result (λ w. state w ≡ start) }
    {
        Ok(MemWorld {
            devices: Devices::new(alloc),
            plan: FaultPlan::new(alloc),
            faults: Faults::new(),
        })
    }

    /// Puts an image of zero blocks at a path, in the place of what stands there.
    pub fn put_image(&mut self, path: &str, blocks: u32) -> Result<(), Memory>
        requires { blocks ≤ max_blocks }
        ensures ok { OnOk result (state self.new ≡ with_image path.now blocks (state self.old)) }
        ensures err { OnErr result (state self.new ≡ state self.old) }
    {
        Ok(self.devices.put_image(path.as_bytes(), blocks)?)
    }

    /// Puts a script at a path, in the place of what stands there. A script that is attached is read on as it was.
    pub fn put_script(&mut self, path: &str, bytes: &[u8]) -> Result<(), Memory>
        ensures ok { OnOk result (state self.new ≡ with_outside (with_script path.now bytes.now (state self.old).outside) (state self.old)) }
        ensures err { OnErr result (state self.new ≡ state self.old) }
    {
        Ok(self.devices.put_script(path.as_bytes(), bytes)?)
    }

    /// Takes memory for an image of at most so many blocks that `attach` may make at a path where nothing stands.
    /// Where an image stands it does nothing.
    pub fn put_place(&mut self, path: &str, blocks: u32) -> Result<(), Memory>
        requires { blocks ≤ max_blocks }
        ensures ok { OnOk result (state self.new ≡ with_place path.now blocks (state self.old)) }
        ensures err { OnErr result (state self.new ≡ state self.old) }
    {
        Ok(self.devices.put_place(path.as_bytes(), blocks)?)
    }

    /// Takes memory for so many more calls, block writes and said bytes.
    pub fn room(&mut self, calls: u64, writes: u64, said: u64) -> Result<(), Memory>
        ensures ok { OnOk result (state self.new ≡ with_more calls writes said (state self.old)) }
        ensures err { OnErr result (state self.new ≡ state self.old) }
    {
        Ok(self.devices.reserve(calls, writes, said)?)
    }

    /// Lets the calls of these numbers fail too.
    pub fn fail_at(&mut self, calls: &[u64]) -> Result<(), Memory>
        ensures ok { OnOk result (state self.new ≡ record (state self.old) { failing = (state self.old).failing ++ calls.now }) }
        ensures err { OnErr result (state self.new ≡ state self.old) }
    {
        Ok(self.plan.fail_at(calls)?)
    }

    /// Lets every call from this number on fail, in the place of an earlier fuse.
    pub fn fuse(&mut self, calls: u64)
        ensures { state self.new ≡ record (state self.old) { fuse = Some calls } }
    {
        self.plan.fuse = Some(calls);
    }

    /// The world stops: each block that was not synced holds these bytes, nothing is said, and no call fails by its
    /// number. What stands then is one of the pairs of images that the stop might leave.
    pub fn stop(&mut self, torn: &[u8; 4096])
        ensures state { state self.new ≡ after_stop torn.now (state self.old) }
        ensures left { MayLeave (state self.old).outside (λ side. as_read (disk side (state self.new).outside)) }
    {
        self.devices.stop(torn);
        self.plan.clear();
    }

    /// The bytes said since the last stop.
    pub fn said(&self) -> &[u8]
        ensures { result.now ≡ (state self.now).outside.said }
    {
        self.devices.said()
    }

    // Counts a call, and answers whether it fails by its number or for want of room.
    fn counts(&mut self, writes: usize, said: usize) -> bool
        ensures cut { result ≡ is_cut writes said (state self.old) }
        ensures state { state self.new ≡ record (state self.old) { made = one_more (state self.old).made } }
        ensures devices { self.new.devices ≡ self.old.devices }
    {
        let cut = self.plan.names_next() || self.devices.room().lacks(writes, said);
        self.plan.count();
        cut
    }

    // A call of a part fails, and changes nothing else.
    fn fail(&mut self, part: Part, writes: usize, said: usize)
        ensures state { state self.new ≡ faulted part (used writes said (state self.old)) }
        ensures never_less { NeverLess (state self.old).faults (state self.new).faults }
        ensures steps { Steps (clock self.old) (clock self.new) (now (clock self.old)) }
    {
        self.devices.spend(writes, said);
        self.faults.raise(part);
    }

    // A write of a block fails: the block is loose, if there is room to note it.
    fn fail_write(&mut self, side: Side, block: u32)
        requires { block < blocks_of self.old side }
        ensures state { state self.new ≡ faulted (part_of side) (used 1 0 (with_outside (after_failed_write side block (state self.old)) (state self.old))) }
        ensures never_less { NeverLess (state self.old).faults (state self.new).faults }
        ensures steps { Steps (clock self.old) (clock self.new) (after_failed_write side block (state self.old)) }
    {
        if self.devices.room().calls == 0 {
            self.fail(part(side), 1, 0);
            return;
        }
        self.devices.loosen(side, block);
        self.faults.raise(part(side));
    }

    // Attaches a side, or a script of no blocks.
    fn attach_part(&mut self, part: Part, path: &[u8], create: Option<u32>) -> Option<u32>
        requires part { part ≢ Part.Out }
        requires create { ForSome create (λ n. 1 ≤ n) }
        requires calls { 0 < (state self.old).calls_left }
        ensures none { IsNone result ↔ IsTrue (cannot_attach part path.now create (state self.old)) }
        ensures ok { OnSome result (Steps (clock self.old) (clock self.new) (attached part path.now create (now (clock self.old)))) }
        ensures stays { IfNone result (Steps (clock self.old) (clock self.new) (now (clock self.old))) }
        ensures count { IfSome result (λ n. n ≡ attached_count part (now (clock self.new))) }
        ensures script { part ≡ Part.Script → OnSome result (IsSome ((now (clock self.old)).scripts path.now)) }
        ensures most { IfSome result (λ n. n ≤ max_blocks) }
        ensures other { (side : Side) → part_of side ≢ part → OnSome result (blocks_of self.new side ≡ blocks_of self.old side) }
        ensures state { state self.new ≡ used 0 0 (with_outside (now (clock self.new)) (state self.old)) }
    {
        match part {
            Part::Volume => self.devices.attach(Side::Volume, path, create),
            Part::Store => self.devices.attach(Side::Store, path, create),
            Part::Script => {
                if self.devices.attach_script(path) {
                    Some(0)
                } else {
                    None
                }
            }
            Part::Out => unreachable!(),
        }
    }
}

/// What the trait's clauses speak of is what the world shows: contents are told, what is outside now, how many
/// blocks each side has, and the counts of faults.
pub fn tells(world: &MemWorld)
    ensures told { ⟦<MemWorld as World>⟧.told }
    ensures outside { now (⟦<MemWorld as World>⟧.log world.now) ≡ (state world.now).outside }
    ensures blocks { ⟦<MemWorld as World>⟧.blocks world.now ≡ blocks_of world.now }
    ensures faults { ⟦<MemWorld as World>⟧.faults world.now ≡ (state world.now).faults }
{}

// The part of a side.
fn part(side: Side) -> Part
    ensures { result ≡ part_of side }
{
    match side {
        Side::Volume => Part::Volume,
        Side::Store => Part::Store,
    }
}

#[tactic(auto, unfolding(crate::specs::World::state, crate::specs::World::clock))]
impl World for MemWorld {
    ghost use Rattle.tm_memworld.specs.World.{state, clock, blocks_of, counts_shown, small_shown};

    ghost told = { Unit {0} };

    ghost log = { clock };

    ghost blocks = { blocks_of };

    ghost faults = { λ w. (state w).faults };

    ghost counts = { λ told w side. counts_shown w side };

    ghost small = { λ told w place. small_shown w place };

    /// It fails besides where no script stands at the path; or, where nothing stands at an image's path, where there
    /// is no place for so many blocks or the other side is attached there, or none is to be made and the path has
    /// more than 1,023 bytes.
    fn attach(&mut self, part: Part, path: &str, create: Option<u32>) -> Result<u32, Failed>
        requires part { part ≢ Part.Out }
        requires create { ForSome create (λ n. (1 ≤ n) × (n ≤ max_blocks)) }
        ensures ok { OnOk result (Steps (clock self.old) (clock self.new) (attached part path.now create (now (clock self.old)))) }
        ensures err { OnErr result (Steps (clock self.old) (clock self.new) (now (clock self.old))) }
        ensures count { IfOk result (λ n. n ≡ attached_count part (now (clock self.new))) }
        ensures script { part ≡ Part.Script → OnOk result (IsSome ((now (clock self.old)).scripts path.now)) }
        ensures most { IfOk result (λ n. n ≤ max_blocks) }
        ensures blocks { (side : Side) → part_of side ≡ part → IfOk result (λ n. blocks_of self.new side ≡ n) }
        ensures other { (side : Side) → part_of side ≢ part → blocks_of self.new side ≡ blocks_of self.old side }
        ensures never_less { NeverLess (state self.old).faults (state self.new).faults }
        ensures cause { OnErr result (Rose ((state self.old).faults part) ((state self.new).faults part)) }

        ensures fails { IsErr result ↔ IsTrue (is_cut 0 0 (state self.old) || cannot_attach part path.now create (state self.old)) }
        ensures after_ok { OnOk result (state self.new ≡ called 0 0 (with_outside (attached part path.now create (state self.old).outside) (state self.old))) }
        ensures after_err { OnErr result (state self.new ≡ faulted part (called 0 0 (state self.old))) }
    {
        if self.counts(0, 0) {
            self.fail(part, 0, 0);
            return Err(Failed);
        }
        let Some(count) = self.attach_part(part, path.as_bytes(), create) else {
            self.faults.raise(part);
            return Err(Failed);
        };
        Ok(count)
    }

    fn read(&mut self, side: Side, block: u32, into: &mut [u8; 4096]) -> Result<(), Failed>
        requires { block < blocks_of self.old side }
        ensures bytes { OnOk result (into.new ≡ (disk side (now (clock self.old))).bytes block) }
        ensures steps { Steps (clock self.old) (clock self.new) (now (clock self.old)) }
        ensures blocks { blocks_of self.new ≡ blocks_of self.old }
        ensures never_less { NeverLess (state self.old).faults (state self.new).faults }
        ensures cause { OnErr result (Rose ((state self.old).faults (part_of side)) ((state self.new).faults (part_of side))) }

        ensures fails { IsErr result ↔ IsTrue (is_cut 0 0 (state self.old)) }
        ensures after_ok { OnOk result (state self.new ≡ called 0 0 (state self.old)) }
        ensures after_err { OnErr result (state self.new ≡ faulted (part_of side) (called 0 0 (state self.old))) }
        ensures rest { OnErr result (into.new ≡ into.old) }
    {
        if self.counts(0, 0) {
            self.fail(part(side), 0, 0);
            return Err(Failed);
        }
        self.devices.read(side, block, into);
        self.devices.spend(0, 0);
        Ok(())
    }

    fn write(&mut self, side: Side, block: u32, bytes: &[u8; 4096]) -> Result<(), Failed>
        requires { block < blocks_of self.old side }
        ensures steps { Writes side block bytes.now (clock self.old) (clock self.new) result }
        ensures blocks { blocks_of self.new ≡ blocks_of self.old }
        ensures never_less { NeverLess (state self.old).faults (state self.new).faults }
        ensures cause { OnErr result (Rose ((state self.old).faults (part_of side)) ((state self.new).faults (part_of side))) }

        ensures fails { IsErr result ↔ IsTrue (is_cut 1 0 (state self.old)) }
        ensures after_ok { OnOk result (state self.new ≡ called 1 0 (with_outside (after_write side block bytes.now (state self.old).outside) (state self.old))) }
        ensures after_err { OnErr result (state self.new ≡ faulted (part_of side) (called 1 0 (with_outside (after_failed_write side block (state self.old)) (state self.old)))) }
    {
        if self.counts(1, 0) {
            self.fail_write(side, block);
            return Err(Failed);
        }
        self.devices.write(side, block, bytes);
        Ok(())
    }

    fn sync(&mut self, side: Side) -> Result<(), Failed>
        ensures ok { OnOk result (Steps (clock self.old) (clock self.new) (after_sync side (now (clock self.old)))) }
        ensures err { OnErr result (Steps (clock self.old) (clock self.new) (now (clock self.old))) }
        ensures blocks { blocks_of self.new ≡ blocks_of self.old }
        ensures never_less { NeverLess (state self.old).faults (state self.new).faults }
        ensures cause { OnErr result (Rose ((state self.old).faults (part_of side)) ((state self.new).faults (part_of side))) }

        ensures fails { IsErr result ↔ IsTrue (is_cut 0 0 (state self.old)) }
        ensures after_ok { OnOk result (state self.new ≡ called 0 0 (with_outside (after_sync side (state self.old).outside) (state self.old))) }
        ensures after_err { OnErr result (state self.new ≡ faulted (part_of side) (called 0 0 (state self.old))) }
    {
        if self.counts(0, 0) {
            self.fail(part(side), 0, 0);
            return Err(Failed);
        }
        self.devices.sync(side);
        Ok(())
    }

    fn take(&mut self, into: &mut [u8]) -> Result<usize, Failed>
        requires { 0 < length into.old }
        ensures within { IfOk result (λ n. n ≤ length into.new) }
        ensures steps { IfOk result (λ n. Steps (clock self.old) (clock self.new) (took n (now (clock self.old)))) }
        ensures bytes { IfOk result (λ n. take n into.new ≡ take n (now (clock self.old)).unread) }
        ensures fits { IfOk result (λ n. n ≤ length (now (clock self.old)).unread) }
        ensures end { IfOk result (λ n. (n ≡ 0) ↔ ((now (clock self.old)).unread ≡ [])) }
        ensures err { OnErr result (Steps (clock self.old) (clock self.new) (now (clock self.old))) }
        ensures blocks { blocks_of self.new ≡ blocks_of self.old }
        ensures never_less { NeverLess (state self.old).faults (state self.new).faults }
        ensures cause { OnErr result (Rose ((state self.old).faults Part.Script) ((state self.new).faults Part.Script)) }

        ensures fails { IsErr result ↔ IsTrue (is_cut 0 0 (state self.old)) }
        ensures most { IfOk result (λ n. n ≡ min (length into.old) (length (state self.old).outside.unread)) }
        ensures moved { IfOk result (λ n. into.new ≡ take n (state self.old).outside.unread ++ drop n into.old) }
        ensures after_ok { IfOk result (λ n. state self.new ≡ called 0 0 (with_outside (took n (state self.old).outside) (state self.old))) }
        ensures after_err { OnErr result (state self.new ≡ faulted Part.Script (called 0 0 (state self.old))) }
        ensures rest { OnErr result (into.new ≡ into.old) }
    {
        if self.counts(0, 0) {
            self.fail(Part::Script, 0, 0);
            return Err(Failed);
        }
        Ok(self.devices.take(into))
    }

    fn say(&mut self, bytes: &[u8]) -> Result<(), Failed>
        ensures says { (n : ℕ) × OnOk result (n ≡ length bytes.now) × Says (clock self.old) (clock self.new) bytes.now n }
        ensures blocks { blocks_of self.new ≡ blocks_of self.old }
        ensures never_less { NeverLess (state self.old).faults (state self.new).faults }
        ensures cause { OnErr result (Rose ((state self.old).faults Part.Out) ((state self.new).faults Part.Out)) }

        ensures fails { IsErr result ↔ IsTrue (is_cut 0 (length bytes.now) (state self.old)) }
        ensures after_ok { OnOk result (state self.new ≡ called 0 (length bytes.now) (with_outside (spoke bytes.now (state self.old).outside) (state self.old))) }
        ensures after_err { OnErr result (state self.new ≡ faulted Part.Out (called 0 (length bytes.now) (state self.old))) }
    {
        if self.counts(0, bytes.len()) {
            self.fail(Part::Out, 0, bytes.len());
            return Err(Failed);
        }
        self.devices.say(bytes);
        Ok(())
    }
}
