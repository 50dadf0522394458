//! A volume in memory, and what it says.
ghost use Rattle.std.specs.Prelude.{◌≡◌, ◌==◌, ◌+◌, ℕ, IfOk, length};
ghost use Rattle.tm_image.specs.Reads.{data_len};
ghost use Rattle.tm_image.specs.Room.{free_of, table_len};
ghost use Rattle.tm_nodes.specs.Headers.{volume_text};
ghost use Rattle.tm_volume.specs.Seen.{IsKept, IsReady, IsShelved};

use crate::blank::meta_of_head;
use std::alloc::{AllocError, Global};
use std::marker::Model;
use tm_base::Name;
use tm_image::Image;
use tm_index::Index;
use tm_nodes::VolumeHead;
use tm_tree::PathList;
use tm_volume_records::FixedPaths;
use tm_world::Bytes;

/// A volume: its image, and the number of the item at each place.
///
/// Seen as its image, its head, its fixed paths, its tag, and how many folders were listed.
#[derive(Drop)]
pub struct Volume {
    pub(crate) alloc: Global,
    pub(crate) image: Image,
    pub(crate) head: VolumeHead,
    pub(crate) fixed: FixedPaths,
    pub(crate) clean: bool,
    pub(crate) generation: u64,
    pub(crate) next: u64,
    pub(crate) numbers: Index,
    pub(crate) looks: u64,
}

impl Model for Volume {
    ghost use Rattle.std.specs.Prelude.{cond};
    ghost use Rattle.tm_index.specs.Folders.{numbers_in};
    ghost use Rattle.tm_volume.specs.Seen.{Seen, IsShelf};

    ghost Value = { Seen };

    ghost view = { λ v. record { image = v.image; head = v.head; fixed = v.fixed; tag = record { clean = cond v.clean 1 0; generation = v.generation; next = v.next }; looks = v.looks } };

    ghost invariant = { λ v. IsShelf (record { image = v.image; head = v.head; fixed = v.fixed; tag = record { clean = cond v.clean 1 0; generation = v.generation; next = v.next }; looks = v.looks }) (numbers_in v.numbers) };
}

/// What a volume says of itself.
#[derive(Clone, Copy, Debug, PartialEq, Eq)]
pub struct VolumeInfo {
    /// The number of blocks of its image.
    pub blocks: u32,
    /// Its id.
    pub id: u128,
    /// How many journal rows it keeps.
    pub capacity: u32,
    /// Its generation, from 1 to 2^62 - 1.
    pub generation: u64,
    /// Its next number, from 1 to 2^62.
    pub next: u64,
    /// Whether it was closed cleanly and not changed since.
    pub clean: bool,
}

impl Volume {
    /// What it says of itself. It takes no memory.
    pub fn info(&self) -> VolumeInfo
        ensures blocks { result.blocks ≡ length self.now.image.used }
        ensures head { (result.id ≡ self.now.head.id) × (result.capacity ≡ self.now.head.capacity) }
        ensures kept { IsKept self.now }
        ensures tag { (result.generation ≡ self.now.tag.generation) × (result.next ≡ self.now.tag.next) × (result.clean ≡ (self.now.tag.clean == 1)) }
    {
        VolumeInfo {
            blocks: self.image.total(),
            id: self.head.id,
            capacity: self.head.capacity,
            generation: self.generation,
            next: self.next,
            clean: self.clean,
        }
    }

    /// The paths that are excluded from backups, by rising path. It takes no memory.
    pub fn fixed(&self) -> &PathList
        ensures { result.now ≡ self.now.fixed }
    {
        self.fixed.list()
    }

    /// Its name. It takes no memory.
    pub fn name(&self) -> &Name
        ensures { result.now ≡ self.now.head.name }
    {
        &self.head.name
    }

    /// How many folders were listed since it was loaded or made; the count stands still at
    /// 2^64 - 1. It takes no memory.
    pub fn looks(&self) -> u64
        ensures { result ≡ self.now.looks }
    {
        self.looks
    }

    /// The paths that are excluded from backups, as they are changed. It takes no memory.
    pub fn fixed_paths(&self) -> &FixedPaths
        ensures { result.now ≡ self.now.fixed }
    {
        &self.fixed
    }

    /// The meta of its head (`docs/FORMATS.md`, "Records of a volume"). It fails only for want of
    /// memory.
    pub fn head_meta(&self) -> Result<Bytes, AllocError>
        ensures { IfOk result (λ meta. meta ≡ volume_text self.now.head) }
    {
        meta_of_head(self.alloc, &self.head)
    }

    /// Where it takes its memory.
    pub fn alloc(&self) -> Global {
        self.alloc
    }

    /// Nothing: the rules that it keeps, for proofs that need them. It takes no memory.
    pub fn rules(&self)
        ensures shelved { IsShelved self.now }
        ensures room { (blocks : ℕ) → IsReady self.now blocks → free_of self.now.image + 3 + table_len self.now.image.records + data_len self.now.image.records ≡ blocks }
    {
        // They come with the rules that the image keeps.
        let _ = self.image.total();
        let _ = self.image.free();
    }
}
