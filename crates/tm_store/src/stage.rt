//! Blobs of files before the snapshot that takes them up.
ghost use Rattle.std.specs.Prelude.{◌≡◌, ◌==◌, ◌<◌, ◌≤◌, ◌+◌, ◌++◌, ◌/◌, ℕ, [], true, false, not, filter, OnOk, IfOk, length, vec_len, vec_capacity};
ghost use Rattle.std.specs.List.{list_any};
ghost use Rattle.std.specs.List.Sorted.{IsNonDecreasing};
ghost use Rattle.tm_world.specs.Outside.{disk};
ghost use Rattle.tm_world.specs.Log.{now};
ghost use Rattle.tm_world.specs.Runs.{Runs};
ghost use Rattle.tm_world.specs.Faults.{NeverLess};
ghost use Rattle.tm_blockmap.specs.Counts.{times};
ghost use Rattle.tm_chain.specs.Blob.{bytes_in, blob_len};
ghost use Rattle.tm_image.specs.Seen.{IsSound, Stands, content_of};
ghost use Rattle.tm_image.specs.Room.{free_of, AreStaged};
ghost use Rattle.tm_store_records.specs.Room.{store_blocks};
ghost use Rattle.tm_store_records.specs.States.{LeavesOneStore};
ghost use Rattle.tm_store_records.specs.Held.{IsWhole, store_on, store_stored_on};
ghost use Rattle.tm_store.specs.Answers.{IfRefused, IsFullRefusal, BlamesStore, OnRefusal, UnlessFault};

use crate::Store;
use tm_base::{LineFault, Refused};
use tm_image::ImageError;
use tm_store_records::table_is_told;
use tm_world::{Blob, Blocks, Side, World};

/// Whether a block stands in a list.
fn contains(blocks: &[u32], block: u32) -> bool
    ensures { result ≡ list_any (λ x. x == block) blocks.now }
{
    blocks.iter().any(|x| *x == block)
}

/// Whether no block of a list is less than one before it.
fn rises(blocks: &[u32]) -> bool
    ensures up { result ≡ true → IsNonDecreasing blocks.now }
    ensures down { result ≡ false → ¬ IsNonDecreasing blocks.now }
{
    blocks.is_sorted()
}

/// Whether a block stands in a list that rises.
fn stands_in(rising: &[u32], block: u32) -> bool
    requires { IsNonDecreasing rising.now }
    ensures { result ≡ list_any (λ x. x == block) rising.now }
{
    rising.binary_search(&block).is_ok()
}

/// Takes the blocks of a list that rises out of another, each found or missed by halves.
fn take_rising(list: &mut Vec<u32>, rising: &[u32])
    requires { IsNonDecreasing rising.now }
    ensures { list.new.items ≡ filter (λ b. not (list_any (λ x. x == b) rising.now)) list.old.items }
{
    list.retain(|block| !stands_in(rising, *block));
}

/// Takes the blocks of any list out of another.
fn take_any(list: &mut Vec<u32>, blocks: &[u32])
    ensures { list.new.items ≡ filter (λ b. not (list_any (λ x. x == b) blocks.now)) list.old.items }
{
    list.retain(|block| !contains(blocks, *block));
}

/// Takes the blocks of one list out of another. Those of a staged blob rise.
fn take_out(list: &mut Vec<u32>, blocks: &[u32])
    ensures { list.new.items ≡ filter (λ b. not (list_any (λ x. x == b) blocks.now)) list.old.items }
{
    if rises(blocks) {
        take_rising(list, blocks);
    } else {
        take_any(list, blocks);
    }
}

/// Lists more blocks, for which there is room.
fn append(list: &mut Vec<u32>, blocks: &[u32])
    requires { vec_len list.old + length blocks.now ≤ vec_capacity list.old }
    ensures { list.new.items ≡ list.old.items ++ blocks.now }
{
    match list.extend_from_slice(blocks) {
        Ok(()) => {}
        Err(_) => unreachable!(),
    }
}

impl Store {
    /// Writes the bytes of a file to the lowest free blocks, where they are staged. `Full` comes
    /// exactly by the rule of room. A stop leaves the store as it was; after a failure it is not to be
    /// used again.
    pub fn stage_file<W: World>(&mut self, world: &mut W, bytes: &[u8]) -> Result<Blob, LineFault>
        requires whole { IsWhole self.old }
        requires count { length self.old.image.used ≡ W.blocks world.old Side.Store }
        requires stands { W.told → Stands self.old.image (disk Side.Store (now (W.log world.old))) }
        ensures any_moment { W.told → let old = (disk Side.Store (now (W.log world.old))).bytes in
            Runs Side.Store (LeavesOneStore (store_stored_on self.old old)) (W.log world.old) (W.log world.new) }
        ensures stands { W.told → UnlessFault result (Stands self.new.image (disk Side.Store (now (W.log world.new)))) }
        ensures state { W.told → UnlessFault result (store_on self.new (disk Side.Store (now (W.log world.new))).bytes ≡ store_on self.old (disk Side.Store (now (W.log world.old))).bytes) }
        ensures holds { W.told → IfOk result (λ blob. bytes_in blob.blocks (disk Side.Store (now (W.log world.new))).bytes 0 blob.length ≡ bytes.now) }
        ensures others { W.told → UnlessFault result ((b : ℕ) → 0 < times b self.old.staged → (disk Side.Store (now (W.log world.new))).bytes b ≡ (disk Side.Store (now (W.log world.old))).bytes b) }
        ensures length { IfOk result (λ blob. blob.length ≡ length bytes.now) }
        ensures many { IfOk result (λ blob. length blob.blocks ≡ blob_len (length bytes.now)) }
        ensures staged { IfOk result (λ blob. self.new.staged ≡ self.old.staged ++ blob.blocks) }
        ensures same { OnOk result (self.new ≡ record self.old { image = self.new.image; staged = self.new.staged }) }
        ensures size { length self.new.image.used ≡ length self.old.image.used }
        ensures free { IfOk result (λ blob. free_of self.new.image + length blob.blocks ≡ free_of self.old.image) }
        ensures whole { UnlessFault result (IsWhole self.new) }
        ensures refused { IfRefused result (IsFullRefusal (blob_len (length bytes.now) + store_blocks self.old.machine self.old.snapshots self.old.nodes) (free_of self.old.image)) }
        ensures fits { OnOk result (blob_len (length bytes.now) + store_blocks self.old.machine self.old.snapshots self.old.nodes ≤ free_of self.old.image) }
        ensures err { OnRefusal result ((self.new ≡ self.old) × (world.new ≡ world.old)) }
        ensures blocks { W.blocks world.new ≡ W.blocks world.old }
        ensures never_less { NeverLess (W.faults world.old) (W.faults world.new) }
        ensures fault { BlamesStore result (W.faults world.old) (W.faults world.new) }
    {
        table_is_told();
        // So its blocks can be listed afterwards without memory.
        self.staged.reserve((bytes.len() + 4095) / 4096)?;
        let blob = match self.image.stage(world, bytes) {
            Ok(blob) => blob,
            Err(ImageError::Fault) => return Err(LineFault::Fault(tm_base::Side::Store)),
            Err(ImageError::Full { need, free }) => {
                return Err(LineFault::Refused(Refused::Full { need, free }));
            }
            Err(ImageError::Memory) => return Err(LineFault::Memory),
        };
        append(&mut self.staged, blob.blocks.as_slice());
        Ok(blob)
    }

    /// Gives a staged blob back: its blocks are free afterwards. It takes no memory.
    pub fn unstage(&mut self, blob: Blob)
        requires whole { IsWhole self.old }
        requires staged { (b : ℕ) → times b blob.blocks ≤ times b self.old.staged }
        ensures staged { (b : ℕ) → times b self.new.staged + times b blob.blocks ≡ times b self.old.staged }
        ensures free { free_of self.new.image ≡ free_of self.old.image + length blob.blocks }
        ensures content { content_of self.new.image ≡ content_of self.old.image }
        ensures named { self.new.image.named ≡ self.old.image.named }
        ensures same { self.new ≡ record self.old { image = self.new.image; staged = self.new.staged } }
        ensures whole { IsWhole self.new }
    {
        take_out(&mut self.staged, blob.blocks.as_slice());
        self.image.unstage(blob);
        // This shows that the image is sound.
        let _ = self.image.total();
    }

    /// Gives back all staged blobs. It takes no memory.
    pub(crate) fn give_back_all(&mut self)
        requires { AreStaged self.old.staged self.old.image }
        ensures staged { self.new.staged ≡ [] }
        ensures unstaged { AreStaged [] self.new.image }
        ensures content { content_of self.new.image ≡ content_of self.old.image }
        ensures named { self.new.image.named ≡ self.old.image.named }
        ensures side { self.new.image.side ≡ self.old.image.side }
        ensures more { free_of self.old.image ≤ free_of self.new.image }
        ensures sound { IsSound self.new.image }
        ensures same { self.new ≡ record self.old { image = self.new.image; staged = [] } }
    {
        let none = Vec::new(self.alloc);
        let blocks = std::mem::replace(&mut self.staged, none);
        self.image.unstage(Blob {
            length: 0,
            blocks: Blocks::of(blocks),
        });
        // This shows that the image is sound.
        let _ = self.image.total();
    }
}
