//! What a change writes, and how that is committed.
ghost use Rattle.std.specs.Prelude.{◌≡◌, ◌≤◌, ◌<◌, ℕ, Some, OnOk, OnErr, Err, length, unwrap_or};
ghost use Rattle.tm_base.specs.LineFaults.{NoFault};
ghost use Rattle.tm_base.specs.declared.refused.Refused.{Refused as RefusedFor};
ghost use Rattle.tm_image.specs.Commit.{changed, brought_by, released_by};
ghost use Rattle.tm_image.specs.Room.{HasRoom, free_of, need_of, table_len};
ghost use Rattle.tm_image.specs.Seen.{HasSameImage, IsSettled, staged};
ghost use Rattle.tm_world.specs.Faults.{BlamesOnly, NeverLess};
ghost use Rattle.tm_world.specs.Log.{now};
ghost use Rattle.tm_world.specs.Outside.{disk};
ghost use Rattle.tm_world.specs.Runs.{Runs};
ghost use Rattle.tm_index.specs.Folders.{numbers_in};
ghost use Rattle.tm_volume.specs.Edits.{Enters, Forgets, Leaves, IsEdit, IsGoodEdit, IsBack, IsFullEdit, after, need_of_edit};
ghost use Rattle.tm_volume.specs.Reads.{LeavesEither};
ghost use Rattle.tm_volume.specs.Seen.{IsReady, StandsOn, stored_on};

use crate::Volume;
use crate::tag::write_tag;
use std::alloc::AllocError;
use tm_base::{LineFault, Name, Refused, Side as RefusedSide};
use tm_image::{Changes, ImageError};
use tm_index::Index;
use tm_records::Put;
use tm_volume_records::FixedPaths;
use tm_world::{Side, World};

/// A name that gets its number in the index.
#[derive(Drop)]
pub struct Entered {
    /// The number of the folder that holds it.
    pub parent: u64,
    /// The name.
    pub name: Name,
    /// The number that it gets.
    pub number: u64,
}

/// A name that loses its number in the index.
#[derive(Drop)]
pub struct Left {
    /// The number of the folder that held it.
    pub parent: u64,
    /// The name.
    pub name: Name,
}

/// What a change writes (`docs/FORMATS.md`, "Records of a volume").
#[derive(Drop)]
pub struct Edit {
    /// The keys of the records that it removes, which rise.
    pub remove: Vec<u64>,
    /// The records that it puts.
    pub put: Vec<Put>,
    /// The name that it sets in the index, if there is one.
    pub enter: Option<Entered>,
    /// The name that it takes out of the index, if there is one.
    pub leave: Option<Left>,
    /// The paths that are excluded from backups, if they change.
    pub fixed: Option<FixedPaths>,
    /// The next number afterwards, at most 2^62.
    pub next: u64,
}

/// Sets a name's number. Where memory is refused, the index is as before.
fn enter(numbers: &mut Index, entered: &Option<Entered>) -> Result<(), AllocError>
    ensures ok { OnOk result (Enters entered.now (numbers_in numbers.old) (numbers_in numbers.new)) }
    ensures err { OnErr result (numbers.new ≡ numbers.old) }
{
    match entered {
        None => Ok(()),
        Some(e) => numbers.insert(e.parent, e.name.clone()?, e.number),
    }
}

/// Takes a name's number out that was set.
fn forget(numbers: &mut Index, entered: &Option<Entered>)
    ensures { Forgets entered.now (numbers_in numbers.old) (numbers_in numbers.new) }
{
    match entered {
        None => (),
        Some(e) => numbers.remove(e.parent, &e.name),
    }
}

/// Takes a name's number out.
fn leave(numbers: &mut Index, left: &Option<Left>)
    ensures { Leaves left.now (numbers_in numbers.old) (numbers_in numbers.new) }
{
    match left {
        None => (),
        Some(l) => numbers.remove(l.parent, &l.name),
    }
}

impl Volume {
    /// Makes an edit, in one commit. The blobs that it brings are staged, and no others; they are
    /// given back where the edit is refused or memory is, and all else is as before then.
    ///
    /// A stop leaves the volume before the edit or after it. After a fault the volume is not to be
    /// used again.
    pub fn apply<W: World>(&mut self, world: &mut W, edit: Edit) -> Result<(), LineFault>
        requires edit { IsEdit self.old edit }
        requires settled { IsSettled self.old.image }
        requires space { HasRoom self.old.image }
        requires count { length self.old.image.used ≡ W.blocks world.old Side.Volume }
        requires staged { (b : ℕ) → staged b self.old.image ≡ brought_by b edit.put.items }
        requires stands { W.told → StandsOn self.old (disk Side.Volume (now (W.log world.old))) }
        requires good { W.told → IsGoodEdit self.old edit (disk Side.Volume (now (W.log world.old))).bytes }
        ensures any_moment { W.told → let bytes = (disk Side.Volume (now (W.log world.old))).bytes in
            Runs Side.Volume (LeavesEither (Some (stored_on self.old bytes)) (Some (stored_on (after self.old edit) bytes))) (W.log world.old) (W.log world.new) }
        ensures stored { W.told → OnOk result (stored_on self.new (disk Side.Volume (now (W.log world.new))).bytes ≡ stored_on (after self.old edit) (disk Side.Volume (now (W.log world.old))).bytes) }
        ensures ready { NoFault result → IsReady self.new (W.blocks world.old Side.Volume) }
        ensures stands { W.told → NoFault result → StandsOn self.new (disk Side.Volume (now (W.log world.new))) }
        ensures err { OnErr result (NoFault result → IsBack self.old self.new) }
        ensures untouched { OnErr result (NoFault result → world.new ≡ world.old) }
        ensures full { (why : RefusedFor) → result ≡ Err (LineFault.Refused why) → IsFullEdit self.old edit why }
        ensures fits { OnOk result (need_of_edit self.old edit ≤ free_of self.old.image) }
        ensures tried { (side : RefusedSide) → result ≡ Err (LineFault.Fault side) → need_of_edit self.old edit ≤ free_of self.old.image }
        ensures head { self.new.head ≡ self.old.head }
        ensures looks { self.new.looks ≡ self.old.looks }
        ensures blocks { W.blocks world.new ≡ W.blocks world.old }
        ensures never_less { NeverLess (W.faults world.old) (W.faults world.new) }
        ensures fault { BlamesOnly RefusedSide.Volume result (W.faults world.old) (W.faults world.new) }
    {
        let Edit {
            remove,
            put,
            enter: entered,
            leave: left,
            fixed,
            next,
        } = edit;
        // The image's count comes with the rules that it keeps.
        let _ = self.image.total();
        match enter(&mut self.numbers, &entered) {
            Ok(()) => (),
            Err(_) => {
                self.image.give_brought(&put);
                return Err(LineFault::Memory);
            }
        }
        let tag = write_tag(false, self.generation, next);
        match self.image.commit(world, Changes { remove, put }, tag) {
            Ok(()) => {
                leave(&mut self.numbers, &left);
                self.clean = false;
                self.next = next;
                keep(&mut self.fixed, fixed);
                Ok(())
            }
            Err(ImageError::Fault) => {
                leave(&mut self.numbers, &left);
                Err(LineFault::Fault(RefusedSide::Volume))
            }
            Err(ImageError::Full { need, free }) => {
                forget(&mut self.numbers, &entered);
                Err(LineFault::Refused(Refused::Full { need, free }))
            }
            Err(ImageError::Memory) => {
                forget(&mut self.numbers, &entered);
                Err(LineFault::Memory)
            }
        }
    }
}

/// Keeps the new paths, if there are any.
fn keep(fixed: &mut FixedPaths, paths: Option<FixedPaths>)
    ensures { fixed.new ≡ unwrap_or paths fixed.old }
{
    if let Some(paths) = paths {
        *fixed = paths;
    }
}
