//! The session: loading, its lines, and the close.
ghost use Rattle.std.specs.Prelude.{◌≡◌, ◌≤◌, [], IfOk, IfErr, OnOk, Ok, Err, ℕ, Option, Some, None};
ghost use Rattle.tm_base.specs.declared.refused.Side.{Side as RefusedSide};
ghost use Rattle.tm_base.specs.Limits.{max_blocks};
ghost use Rattle.tm_text.specs.Bounds.{IsValidLine};
ghost use Rattle.tm_volume.specs.Reads.{SideReads};
ghost use Rattle.tm_volume.specs.Stored.{StoredVolume};
ghost use Rattle.tm_world.specs.Faults.{NeverLess, Rose, part_at, Blames};
ghost use Rattle.tm_world.specs.Log.{now, Passes, Steps};
ghost use Rattle.tm_world.specs.Outside.{disk};
ghost use Rattle.tm_world.specs.Torn.{as_read};
ghost use Rattle.tm_world.specs.declared.cause.Cause.{Cause};
ghost use Rattle.tm_world.specs.declared.world.Side.TheVariants.{Volume as VolumeSide, Store as StoreSide};
ghost use Rattle.tm_machine.specs.Commits.{opening};
ghost use Rattle.tm_machine.specs.Allowed.{Did, DidLine, MayDo, MayDoChangeless, after_of, reply_of};
ghost use Rattle.tm_machine.specs.Session.{IfReplied, IsOpen, IsSynced, Standing, state_on};
ghost use Rattle.tm_machine.specs.States.{Stored, opened};
ghost use Rattle.tm_machine.specs.Answers.{AnswersBy};
ghost use Rattle.tm_machine.specs.Steps.{clock_tests};
ghost use Rattle.tm_machine.specs.Stops.{CanOpen, CanOpenStore, IsBadSide, IsOpening, LeavesBegun, LeavesCommits, ReadsNow};

use crate::changing::change_of;
use crate::opening::{open_store, open_volume};
use std::alloc::{AllocError, Global};
use std::marker::Model;
use tm_base::{Full, LineFault, Moment, Refused, Side};
use tm_reply::{Reply, ReplyRows};
use tm_store::laws::blank_is_left;
use tm_store::{Store, held_reads};
use tm_text::Line;
use tm_volume::Volume;
use tm_volume::laws::{blank_is_left as volume_blank_is_left, standing_volume_is_left};
use tm_world::{Cause, World};

/// Why a session was not loaded.
#[derive(Clone, Copy, Debug, PartialEq, Eq)]
pub enum SessionError {
    /// An image is bad (`docs/FORMATS.md`, "What is bad").
    Bad {
        /// Which image.
        side: Side,
        /// The check that it fails.
        cause: Cause,
        /// Where.
        place: u64,
    },
    /// An image failed.
    Fault(Side),
    /// Memory was refused.
    Memory,
}

/// Why a line has no reply. A refusal is a reply.
#[derive(Clone, Copy, Debug, PartialEq, Eq)]
pub enum LineEnd {
    /// An image failed; no call on the session is made afterwards.
    Fault(Side),
    /// Memory was refused; no call on the session is made afterwards.
    Memory,
}

/// A volume and a store on their images, each formatted or not, and the moment that was set last.
///
/// Seen as these; with the disks it is a state of the plain machine.
#[derive(Drop)]
pub struct Session {
    pub(crate) alloc: Global,
    pub(crate) volume_blocks: u32,
    pub(crate) store_blocks: u32,
    pub(crate) volume: Option<Volume>,
    pub(crate) store: Option<Store>,
    pub(crate) moment: Option<Moment>,
}

impl Model for Session {
    ghost use Rattle.tm_machine.specs.Session.{Seen};

    ghost Value = { Seen };

    ghost view = { λ s. record { volume_blocks = s.volume_blocks; store_blocks = s.store_blocks; volume = s.volume; store = s.store; moment = s.moment } };
}

impl Session {
    /// Opens a pair of images, of so many blocks, of which nothing is unsynced.
    ///
    /// The volume is opened first: one that was not closed cleanly begins a generation, in one
    /// commit. Then the store is read. `Bad` comes where one of the images is bad. A volume that is
    /// unformatted, or that can't be opened, is only read; so is every store.
    pub fn load<W: World>(
        alloc: Global,
        world: &mut W,
        volume_blocks: u32,
        store_blocks: u32,
    ) -> Result<Session, SessionError>
        requires count { W.blocks world.old VolumeSide ≡ volume_blocks }
        requires small { volume_blocks ≤ max_blocks }
        requires store_count { W.blocks world.old StoreSide ≡ store_blocks }
        requires store_small { store_blocks ≤ max_blocks }
        requires settled { W.told → IsSynced (now (W.log world.old)) }
        ensures state { W.told → (r : Stored) → ReadsNow r (now (W.log world.old))
            → IfOk result (λ s. state_on s (now (W.log world.new)) ≡ opened volume_blocks store_blocks r) }
        ensures any_moment { W.told → (r : Stored) → ReadsNow r (now (W.log world.old))
            → Passes (W.log world.old) (W.log world.new) (LeavesCommits r (opening r) (now (W.log world.old))) }
        ensures alone { W.told → Passes (W.log world.old) (W.log world.new) (IsOpening (now (W.log world.old))) }
        ensures begun { W.told → (v : Option StoredVolume) → SideReads (as_read (disk VolumeSide (now (W.log world.old)))) v
            → Passes (W.log world.old) (W.log world.new) (LeavesBegun v) }
        ensures blank { W.told → SideReads (as_read (disk VolumeSide (now (W.log world.old)))) None → Steps (W.log world.old) (W.log world.new) (now (W.log world.old)) }
        ensures shut { W.told → (CanOpen (as_read (disk VolumeSide (now (W.log world.old)))) → ⊥) → Steps (W.log world.old) (W.log world.new) (now (W.log world.old)) }
        ensures opens { W.told → IfOk result (λ _. CanOpen (as_read (disk VolumeSide (now (W.log world.old)))) × CanOpenStore (as_read (disk StoreSide (now (W.log world.old))))) }
        ensures open { IfOk result (λ s. IsOpen s (W.blocks world.new)) }
        ensures standing { W.told → IfOk result (λ s. Standing s (now (W.log world.new))) }
        ensures bad { (side : RefusedSide) (cause : Cause) (place : ℕ) → result ≡ Err (SessionError.Bad side cause place)
            → IsBadSide side cause place volume_blocks store_blocks W.told (now (W.log world.old)) }
        ensures said { W.told → (now (W.log world.new)).said ≡ (now (W.log world.old)).said }
        ensures blocks { W.blocks world.new ≡ W.blocks world.old }
        ensures never_less { NeverLess (W.faults world.old) (W.faults world.new) }
        ensures fault { (side : RefusedSide) → result ≡ Err (SessionError.Fault side) → Rose (W.faults world.old (part_at side)) (W.faults world.new (part_at side)) }
    {
        let volume = open_volume(alloc, world, volume_blocks)?;
        let store = open_store(alloc, world, store_blocks)?;
        Ok(Session {
            alloc,
            volume_blocks,
            store_blocks,
            volume,
            store,
            moment: None,
        })
    }

    /// Does a line and replies to it.
    ///
    /// What the line commits is on the image before the reply is given: a stop leaves what was
    /// kept before the line, or after one of its commits. After `Ok` the session goes on; after a
    /// fault or want of memory it is not to be used again.
    ///
    /// A backup compares stamps in place of bytes: where the pair doesn't fit, some tree is copied
    /// in place of the volume's, and nothing else is another.
    pub fn line<W: World>(&mut self, world: &mut W, line: &Line) -> Result<Reply, LineEnd>
        requires line { IsValidLine line.now }
        requires open { IsOpen self.old (W.blocks world.old) }
        requires standing { W.told → Standing self.old (now (W.log world.old)) }
        ensures does { W.told → DidLine (state_on self.old (now (W.log world.old))) line.now (W.log world.old) (W.log world.new)
            (λ d. IfOk result (λ reply. (reply ≡ reply_of d) × (state_on self.new (now (W.log world.new)) ≡ after_of d))) }
        ensures open { OnOk result (IsOpen self.new (W.blocks world.new)) }
        ensures standing { W.told → OnOk result (Standing self.new (now (W.log world.new))) }
        ensures blocks { W.blocks world.new ≡ W.blocks world.old }
        ensures never_less { NeverLess (W.faults world.old) (W.faults world.new) }
        ensures fault { (side : RefusedSide) → result ≡ Err (LineEnd.Fault side) → Rose (W.faults world.old (part_at side)) (W.faults world.new (part_at side)) }
    {
        match self.answer(world, line) {
            Ok(rows) => Ok(Reply {
                rows,
                refused: None,
            }),
            Err(LineFault::Refused(why)) => Ok(Reply {
                rows: ReplyRows::new(self.alloc),
                refused: Some(why),
            }),
            Err(LineFault::Fault(side)) => Err(LineEnd::Fault(side)),
            Err(LineFault::Memory) => Err(LineEnd::Memory),
        }
    }

    /// Ends the session. It makes no call of the world.
    pub fn close<W: World>(&mut self, _world: &mut W) -> Result<Option<Full>, LineEnd>
        ensures closed { result ≡ Ok None }
        ensures same { self.new ≡ self.old }
        ensures world { _world.new ≡ _world.old }
    {
        Ok(None)
    }

    // The data lines of a line, or why it has none.
    fn answer<W: World>(&mut self, world: &mut W, line: &Line) -> Result<ReplyRows, LineFault>
        requires line { IsValidLine line.now }
        requires open { IsOpen self.old (W.blocks world.old) }
        requires standing { W.told → Standing self.old (now (W.log world.old)) }
        ensures does { W.told → Did (MayDo (state_on self.old (now (W.log world.old))) line.now) self.old self.new (W.log world.old) (W.log world.new) result }
        ensures standing { W.told → IfReplied result (Standing self.new (now (W.log world.new))) }
        ensures open { IfReplied result (IsOpen self.new (W.blocks world.new)) }
        ensures blocks { W.blocks world.new ≡ W.blocks world.old }
        ensures never_less { NeverLess (W.faults world.old) (W.faults world.new) }
        ensures fault { Blames result (W.faults world.old) (W.faults world.new) }
    {
        match change_of(line)? {
            Some(change) => self.change(world, &change),
            None => self.changeless(world, line),
        }
    }

    // The lines that change no contents of a volume.
    fn changeless<W: World>(&mut self, world: &mut W, line: &Line) -> Result<ReplyRows, LineFault>
        requires line { IsValidLine line.now }
        requires open { IsOpen self.old (W.blocks world.old) }
        requires standing { W.told → Standing self.old (now (W.log world.old)) }
        ensures does { W.told → Did (MayDoChangeless (state_on self.old (now (W.log world.old))) line.now) self.old self.new (W.log world.old) (W.log world.new) result }
        ensures standing { W.told → IfReplied result (Standing self.new (now (W.log world.new))) }
        ensures open { IfReplied result (IsOpen self.new (W.blocks world.new)) }
        ensures blocks { W.blocks world.new ≡ W.blocks world.old }
        ensures never_less { NeverLess (W.faults world.old) (W.faults world.new) }
        ensures fault { Blames result (W.faults world.old) (W.faults world.new) }
    {
        standing_volume_is_left();
        volume_blank_is_left();
        held_reads();
        blank_is_left();
        match line {
            Line::At(date) => self.at(*date),
            Line::NewVolume { name, id, events } => self.new_volume(world, name, *id, *events),
            Line::NewStore(machine) => self.new_store(world, machine),
            Line::StartBackupBlock => self.back_up(world),
            Line::Ls(path) => self.ls(path),
            Line::Cat(path) => self.cat(world, path),
            Line::ListBackups => self.list_backups(),
            Line::LatestBackup => self.latest_backup(),
            Line::MachineDirectory => self.machine_directory(),
            Line::StoreLs(place) => self.store_ls(place),
            Line::StoreCat(item) => self.store_cat(world, item),
            Line::StoreStat(item) => self.store_stat(item),
            Line::StoreDf => self.store_df(),
            _ => Err(LineFault::Refused(Refused::NotBuilt)),
        }
    }

    /// The volume, unless its image is unformatted.
    pub(crate) fn volume(&self) -> Result<&Volume, Refused>
        ensures volume { IfOk result (λ volume. self.now.volume ≡ Some volume.now) }
        ensures none { IfErr result (λ why. (why ≡ Refused.NoVolume) × (self.now.volume ≡ None)) }
    {
        match &self.volume {
            Some(volume) => Ok(volume),
            None => Err(Refused::NoVolume),
        }
    }

    /// The store, unless its image is unformatted.
    pub(crate) fn store(&self) -> Result<&Store, Refused>
        ensures store { IfOk result (λ store. self.now.store ≡ Some store.now) }
        ensures none { IfErr result (λ why. (why ≡ Refused.NoStore) × (self.now.store ≡ None)) }
    {
        match &self.store {
            Some(store) => Ok(store),
            None => Err(Refused::NoStore),
        }
    }

    fn at(&mut self, date: Moment) -> Result<ReplyRows, LineFault>
        ensures { AnswersBy (clock_tests self.old.moment date) [] (record self.old { moment = Some date }) self.old self.new result }
    {
        if let Some(moment) = self.moment
            && date < moment
        {
            return Err(LineFault::Refused(Refused::ClockBack { date: moment }));
        }
        self.moment = Some(date);
        Ok(ReplyRows::new(self.alloc))
    }
}
