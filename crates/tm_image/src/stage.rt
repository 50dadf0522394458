//! Blobs before the commit that takes them up.
ghost use Rattle.std.specs.Prelude.{◌≡◌, ◌≢◌, ◌+◌, ◌^◌, ◌<◌, ◌≤◌, ◌/◌, ℕ, OnOk, OnErr, IfOk, IsErrOf, Err, length, slice_index};
ghost use Rattle.tm_world.specs.Outside.{disk, part_of};
ghost use Rattle.tm_world.specs.Log.{now};
ghost use Rattle.tm_world.specs.Runs.{Runs};
ghost use Rattle.tm_world.specs.Faults.{NeverLess, Rose};
ghost use Rattle.tm_blockmap.specs.Counts.{times};
ghost use Rattle.tm_blockmap.specs.Takes.{Takes};
ghost use Rattle.tm_chain.specs.Blob.{FillsOn, blob_len, bytes_in};
ghost use Rattle.tm_image.specs.Reads.{LeavesRead, entries_of};
ghost use Rattle.tm_image.specs.Seen.{Stands, staged, HasSameImage, IsSound, IsSettled};
ghost use Rattle.tm_image.specs.Room.{free_of, table_len, HasRoom};

use crate::{Image, ImageError};
use tm_chain::write_blob;
use tm_world::{Blob, Blocks, World};

impl Image {
    /// Writes bytes to the lowest free blocks, where they are staged. `Full` comes exactly by the
    /// rule of room. A stop leaves what the disk stood for; after a failure the image is not to be
    /// used again.
    pub fn stage<W: World>(&mut self, world: &mut W, bytes: &[u8]) -> Result<Blob, ImageError>
        requires settled { IsSettled self.old }
        requires space { HasRoom self.old }
        requires count { length self.old.used ≡ W.blocks world.old self.old.side }
        requires stands { W.told → Stands self.old (disk self.old.side (now (W.log world.old))) }
        ensures any_moment { W.told → let old = disk self.old.side (now (W.log world.old)) in
            Runs self.old.side (LeavesRead self.old.side (entries_of old.bytes self.old.records) self.old.root.tag) (W.log world.old) (W.log world.new) }
        ensures stands { W.told → Stands self.new (disk self.old.side (now (W.log world.new))) }
        ensures data { W.told → entries_of (disk self.old.side (now (W.log world.new))).bytes self.old.records ≡ entries_of (disk self.old.side (now (W.log world.old))).bytes self.old.records }
        ensures fills { W.told → IfOk result (λ blob. FillsOn blob.blocks bytes.now (disk self.old.side (now (W.log world.new))).bytes) }
        ensures holds { W.told → IfOk result (λ blob. bytes_in blob.blocks (disk self.old.side (now (W.log world.new))).bytes 0 blob.length ≡ bytes.now) }
        ensures others { W.told → (b : ℕ) → 0 < slice_index self.old.used b → (disk self.old.side (now (W.log world.new))).bytes b ≡ (disk self.old.side (now (W.log world.old))).bytes b }
        ensures length { IfOk result (λ blob. blob.length ≡ length bytes.now) }
        ensures many { IfOk result (λ blob. length blob.blocks ≡ (blob.length + 4095) / 4096) }
        ensures lowest { IfOk result (λ blob. Takes blob.blocks self.old.used self.new.used) }
        ensures staged { IfOk result (λ blob. (b : ℕ) → staged b self.new ≡ staged b self.old + times b blob.blocks) }
        ensures same { HasSameImage self.old self.new }
        ensures free { IfOk result (λ blob. free_of self.new + length blob.blocks ≡ free_of self.old) }
        ensures sound { IsSound self.new }
        ensures settled { IsSettled self.new }
        ensures space { OnOk result (HasRoom self.new) }
        ensures full { (need free : ℕ) → result ≡ Err (ImageError.Full need free) → (free < need) × (free ≡ free_of self.old) × (need ≡ blob_len (length bytes.now) + table_len self.old.records) }
        ensures fits { OnOk result (blob_len (length bytes.now) + table_len self.old.records ≤ free_of self.old) }
        ensures err { OnErr result (result ≢ Err ImageError.Fault → self.new ≡ self.old) }
        ensures untouched { OnErr result (result ≢ Err ImageError.Fault → world.new ≡ world.old) }
        ensures blocks { W.blocks world.new ≡ W.blocks world.old }
        ensures never_less { NeverLess (W.faults world.old) (W.faults world.new) }
        ensures fault { IsErrOf result ImageError.Fault → Rose (W.faults world.old (part_of self.old.side)) (W.faults world.new (part_of self.old.side)) }
    {
        let count = (bytes.len() + 4095) / 4096;
        let need = count as u64 + self.table.len() as u64;
        let free = self.map.free() as u64;
        if need > free {
            return Err(ImageError::Full { need, free });
        }
        let blocks = self.map.take_all(self.alloc, count as u32)?;
        write_blob(world, self.side, bytes, &blocks)?;
        Ok(Blob {
            length: bytes.len() as u64,
            blocks: Blocks::of(blocks),
        })
    }

    /// Gives staged blocks back, which are free afterwards.
    pub(crate) fn give_back(&mut self, blocks: &[u32])
        requires staged { (b : ℕ) → times b blocks.now ≤ staged b self.old }
        ensures staged { (b : ℕ) → staged b self.new + times b blocks.now ≡ staged b self.old }
        ensures free { free_of self.new ≡ free_of self.old + length blocks.now }
        ensures same { HasSameImage self.old self.new }
        ensures sound { IsSound self.new }
    {
        self.map.give_all(blocks);
    }

    /// Gives a staged blob back: its blocks are free afterwards. It takes no memory.
    pub fn unstage(&mut self, blob: Blob)
        requires staged { (b : ℕ) → times b blob.blocks ≤ staged b self.old }
        ensures staged { (b : ℕ) → staged b self.new + times b blob.blocks ≡ staged b self.old }
        ensures free { free_of self.new ≡ free_of self.old + length blob.blocks }
        ensures same { HasSameImage self.old self.new }
        ensures sound { IsSound self.new }
    {
        self.give_back(blob.blocks.as_slice());
    }
}
