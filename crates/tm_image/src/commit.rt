//! Whole commits.
ghost use Rattle.std.specs.Prelude.{◌≡◌, ◌≢◌, ◌+◌, ◌<◌, ◌≤◌, ℕ, [], IfOk, OnOk, OnErr, IsErrOf, Err, length};
ghost use Rattle.std.specs.List.{All};
ghost use Rattle.std.specs.List.Sorted.{IsStrictlyIncreasing};
ghost use Rattle.tm_world.specs.Outside.{disk, part_of};
ghost use Rattle.tm_world.specs.Log.{now};
ghost use Rattle.tm_world.specs.Runs.{Runs};
ghost use Rattle.tm_world.specs.Faults.{NeverLess, Rose};
ghost use Rattle.tm_gate.specs.Tag.{IsTag};
ghost use Rattle.tm_blockmap.specs.Counts.{times};
ghost use Rattle.tm_image.specs.Reads.{data_len, entries_of, LeavesRead};
ghost use Rattle.tm_image.specs.Seen.{Stands, staged, HasSameImage, IsSound, IsSettled};
ghost use Rattle.tm_image.specs.Room.{brought_len, free_of, table_len, HasRoom};
ghost use Rattle.tm_image.specs.Commit.{changed, commit_need, brought_by, LeavesCommit, IsPut};

use crate::{Changes, Image, ImageError};
use std::alloc::{AllocError, Global};
use tm_records::{Body, Put};
use tm_world::World;

/// The blocks of the blobs that these puts bring.
fn blocks_brought(alloc: Global, puts: &[Put]) -> Result<Vec<u32>, AllocError>
    ensures times { IfOk result (λ blocks. (b : ℕ) → times b blocks.items ≡ brought_by b puts.now) }
    ensures many { IfOk result (λ blocks. length blocks.items ≡ brought_len puts.now) }
{
    let mut blocks = Vec::new(alloc);
    for put in puts {
        if let Body::New(blob) = &put.body {
            blocks.extend_from_slice(blob.blocks.as_slice())?;
        }
    }
    Ok(blocks)
}

impl Image {
    /// The blocks of the blobs that these puts bring.
    fn brought(&self, puts: &[Put]) -> Result<Vec<u32>, AllocError>
        ensures times { IfOk result (λ blocks. (b : ℕ) → times b blocks.items ≡ brought_by b puts.now) }
        ensures many { IfOk result (λ blocks. length blocks.items ≡ brought_len puts.now) }
        ensures sound { IsSound self.now }
    {
        blocks_brought(self.alloc, puts)
    }

    /// Gives back the blobs that these puts bring: their blocks are free afterwards. It takes no
    /// memory.
    pub fn give_brought(&mut self, puts: &[Put])
        requires sound { IsSound self.old }
        requires staged { (b : ℕ) → brought_by b puts.now ≤ staged b self.old }
        ensures staged { (b : ℕ) → staged b self.new + brought_by b puts.now ≡ staged b self.old }
        ensures free { free_of self.new ≡ free_of self.old + brought_len puts.now }
        ensures same { HasSameImage self.old self.new }
        ensures sound { IsSound self.new }
    {
        for put in puts {
            if let Body::New(blob) = &put.body {
                self.give_back(blob.blocks.as_slice());
            }
        }
    }

    /// Makes the records and the tag the new ones, on the disk too: removes these keys and puts these
    /// records. A key that a put keeps the data of is there, some key is there afterwards, and the
    /// blobs are staged, each standing once. `Full` comes exactly by the rule of room.
    ///
    /// The blobs are data of the records afterwards. Where the commit is refused or memory is, all is
    /// as before, and the blobs are staged. A stop leaves the old records and tag or the new, each
    /// with its data; after a failure the image is not to be used again.
    pub fn try_commit<W: World>(
        &mut self,
        world: &mut W,
        changes: Changes,
        tag: [u8; 64],
    ) -> Result<(), ImageError>
        requires settled { IsSettled self.old }
        requires space { HasRoom self.old }
        requires count { length self.old.used ≡ W.blocks world.old self.old.side }
        requires rising { IsStrictlyIncreasing changes.remove.items }
        requires put { All (IsPut self.old.records) changes.put.items }
        requires staged { (b : ℕ) → brought_by b changes.put.items ≤ staged b self.old }
        requires some { changed changes.remove.items changes.put.items self.old.records ≢ [] }
        requires tag { IsTag self.old.side tag }
        requires stands { W.told → Stands self.old (disk self.old.side (now (W.log world.old))) }
        ensures any_moment { W.told → Runs self.old.side (LeavesCommit changes.remove.items changes.put.items tag self.old (disk self.old.side (now (W.log world.old))).bytes) (W.log world.old) (W.log world.new) }
        ensures stands { W.told → OnOk result (Stands self.new (disk self.old.side (now (W.log world.new)))) }
        ensures leaves { W.told → OnOk result (LeavesRead self.old.side (entries_of (disk self.old.side (now (W.log world.old))).bytes (changed changes.remove.items changes.put.items self.old.records)) tag (disk self.old.side (now (W.log world.new)))) }
        ensures data { W.told → OnOk result (entries_of (disk self.old.side (now (W.log world.new))).bytes self.new.records ≡ entries_of (disk self.old.side (now (W.log world.old))).bytes self.new.records) }
        ensures others { W.told → OnOk result ((b : ℕ) → 0 < staged b self.new → (disk self.old.side (now (W.log world.new))).bytes b ≡ (disk self.old.side (now (W.log world.old))).bytes b) }
        ensures records { OnOk result (self.new.records ≡ changed changes.remove.items changes.put.items self.old.records) }
        ensures tag { OnOk result (self.new.root.tag ≡ tag) }
        ensures side { self.new.side ≡ self.old.side }
        ensures size { length self.new.used ≡ length self.old.used }
        ensures staged { OnOk result ((b : ℕ) → staged b self.new + brought_by b changes.put.items ≡ staged b self.old) }
        ensures free { OnOk result (free_of self.new + table_len self.new.records + data_len self.new.records
            ≡ free_of self.old + table_len self.old.records + data_len self.old.records + brought_len changes.put.items) }
        ensures sound { IsSound self.new }
        ensures settled { OnOk result (IsSettled self.new) }
        ensures space { OnOk result (HasRoom self.new) }
        ensures err { OnErr result (result ≢ Err ImageError.Fault → self.new ≡ self.old) }
        ensures faulted { result ≡ Err ImageError.Fault → (self.new.records ≡ changed changes.remove.items changes.put.items self.old.records) × (self.new.root ≡ self.old.root) }
        ensures untouched { OnErr result (result ≢ Err ImageError.Fault → world.new ≡ world.old) }
        ensures full { (need free : ℕ) → result ≡ Err (ImageError.Full need free) → (free < need) × (free ≡ free_of self.old) × (need ≡ commit_need changes.remove.items changes.put.items self.old.records) }
        ensures fits { OnOk result (commit_need changes.remove.items changes.put.items self.old.records ≤ free_of self.old) }
        ensures tried { IsErrOf result ImageError.Fault → commit_need changes.remove.items changes.put.items self.old.records ≤ free_of self.old }
        ensures blocks { W.blocks world.new ≡ W.blocks world.old }
        ensures never_less { NeverLess (W.faults world.old) (W.faults world.new) }
        ensures fault { IsErrOf result ImageError.Fault → Rose (W.faults world.old (part_of self.old.side)) (W.faults world.new (part_of self.old.side)) }
    {
        let prepared = self.prepare(changes)?;
        self.finish(world, prepared, tag)?;
        Ok(())
    }

    /// As [`Image::try_commit`], but the blobs are given back where the commit is refused or memory
    /// is: they are no longer staged afterwards. Then all else is as before, and nothing outside
    /// changed.
    pub fn commit<W: World>(
        &mut self,
        world: &mut W,
        changes: Changes,
        tag: [u8; 64],
    ) -> Result<(), ImageError>
        requires settled { IsSettled self.old }
        requires space { HasRoom self.old }
        requires count { length self.old.used ≡ W.blocks world.old self.old.side }
        requires rising { IsStrictlyIncreasing changes.remove.items }
        requires put { All (IsPut self.old.records) changes.put.items }
        requires staged { (b : ℕ) → brought_by b changes.put.items ≤ staged b self.old }
        requires some { changed changes.remove.items changes.put.items self.old.records ≢ [] }
        requires tag { IsTag self.old.side tag }
        requires stands { W.told → Stands self.old (disk self.old.side (now (W.log world.old))) }
        ensures any_moment { W.told → Runs self.old.side (LeavesCommit changes.remove.items changes.put.items tag self.old (disk self.old.side (now (W.log world.old))).bytes) (W.log world.old) (W.log world.new) }
        ensures stands { W.told → result ≢ Err ImageError.Fault → Stands self.new (disk self.old.side (now (W.log world.new))) }
        ensures leaves { W.told → OnOk result (LeavesRead self.old.side (entries_of (disk self.old.side (now (W.log world.old))).bytes (changed changes.remove.items changes.put.items self.old.records)) tag (disk self.old.side (now (W.log world.new)))) }
        ensures data { W.told → OnOk result (entries_of (disk self.old.side (now (W.log world.new))).bytes self.new.records ≡ entries_of (disk self.old.side (now (W.log world.old))).bytes self.new.records) }
        ensures others { W.told → OnOk result ((b : ℕ) → 0 < staged b self.new → (disk self.old.side (now (W.log world.new))).bytes b ≡ (disk self.old.side (now (W.log world.old))).bytes b) }
        ensures records { OnOk result (self.new.records ≡ changed changes.remove.items changes.put.items self.old.records) }
        ensures tag { OnOk result (self.new.root.tag ≡ tag) }
        ensures side { self.new.side ≡ self.old.side }
        ensures size { length self.new.used ≡ length self.old.used }
        ensures staged { result ≢ Err ImageError.Fault → (b : ℕ) → staged b self.new + brought_by b changes.put.items ≡ staged b self.old }
        ensures free { result ≢ Err ImageError.Fault → free_of self.new + table_len self.new.records + data_len self.new.records
            ≡ free_of self.old + table_len self.old.records + data_len self.old.records + brought_len changes.put.items }
        ensures sound { IsSound self.new }
        ensures settled { result ≢ Err ImageError.Fault → IsSettled self.new }
        ensures space { result ≢ Err ImageError.Fault → HasRoom self.new }
        ensures err { OnErr result (result ≢ Err ImageError.Fault → HasSameImage self.old self.new) }
        ensures faulted { result ≡ Err ImageError.Fault → (self.new.records ≡ changed changes.remove.items changes.put.items self.old.records) × (self.new.root ≡ self.old.root) }
        ensures untouched { OnErr result (result ≢ Err ImageError.Fault → world.new ≡ world.old) }
        ensures full { (need free : ℕ) → result ≡ Err (ImageError.Full need free) → (free < need) × (free ≡ free_of self.old) × (need ≡ commit_need changes.remove.items changes.put.items self.old.records) }
        ensures fits { OnOk result (commit_need changes.remove.items changes.put.items self.old.records ≤ free_of self.old) }
        ensures tried { IsErrOf result ImageError.Fault → commit_need changes.remove.items changes.put.items self.old.records ≤ free_of self.old }
        ensures blocks { W.blocks world.new ≡ W.blocks world.old }
        ensures never_less { NeverLess (W.faults world.old) (W.faults world.new) }
        ensures fault { IsErrOf result ImageError.Fault → Rose (W.faults world.old (part_of self.old.side)) (W.faults world.new (part_of self.old.side)) }
    {
        let blobs = match self.brought(&changes.put) {
            Ok(blobs) => blobs,
            Err(_) => {
                self.give_brought(&changes.put);
                return Err(ImageError::Memory);
            }
        };
        match self.try_commit(world, changes, tag) {
            Ok(()) => Ok(()),
            Err(ImageError::Fault) => Err(ImageError::Fault),
            Err(ImageError::Full { need, free }) => {
                self.give_back(&blobs);
                Err(ImageError::Full { need, free })
            }
            Err(ImageError::Memory) => {
                self.give_back(&blobs);
                Err(ImageError::Memory)
            }
        }
    }
}
