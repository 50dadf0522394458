//! Images by path.
mod blocks;

ghost use Rattle.std.specs.Prelude.{◌≡◌, ◌<◌, ◌≤◌, length, replicate, slice_index, slice_index_or, slice_set, IfOk, None, Some};
ghost use Rattle.tm_base.specs.Limits.{max_blocks};
ghost use Rattle.tm_world.specs.Disk.{written, synced, zeros};
ghost use Rattle.tm_memworld.specs.Torn.{loosened, torn_disk};
ghost use Rattle.tm_memworld.specs.Site.{SiteView, blank, disk_of, count_at, IsBy, zero_block};

use blocks::{tear_blocks, zero_blocks, zero_times};
use smallvec::SmallVec;
use std::alloc::{AllocError, Global};
use std::marker::Model;

/// The bytes of a path. Those of at most 1,023 bytes, which no path of macOS exceeds, take no memory.
pub type PathBytes = SmallVec<u8, 1023>;

/// The longest path that is kept without memory.
pub const SHORT_PATH: usize = 1023;

/// A path, and the image that stands there, if one does.
///
/// Times are numbers of changes in the record.
#[derive(Drop)]
pub struct Site {
    path: PathBytes,
    // how many of the blocks the image has
    count: Option<u32>,
    blocks: Vec<[u8; 4096]>,
    // when each block was written last
    times: Vec<usize>,
    // when all were synced last
    settled: usize,
}

impl Model for Site {
    ghost use Rattle.tm_memworld.specs.Site.{SiteView, KeepsImage};

    ghost Value = { SiteView };

    ghost view = { λ s. record { path = s.path.items; count = s.count; blocks = s.blocks.items; times = s.times.items; settled = s.settled } };

    ghost invariant = { λ s. KeepsImage s.count s.blocks.items s.times.items };
}

impl Site {
    /// A path at which nothing stands, and memory for an image of so many blocks.
    pub fn blank(alloc: Global, path: &[u8], blocks: u32) -> Result<Site, AllocError>
        requires { blocks ≤ max_blocks }
        ensures { IfOk result (λ s. s ≡ blank path.now blocks) }
    {
        Ok(Site {
            path: SmallVec::from_slice(alloc, path)?,
            count: None,
            blocks: zero_blocks(alloc, blocks)?,
            times: zero_times(alloc, blocks)?,
            settled: 0,
        })
    }

    /// A short path at which nothing stands. It takes no memory.
    pub fn named(alloc: Global, path: &[u8]) -> Site
        requires { length path.now ≤ 1023 }
        ensures { result ≡ blank path.now 0 }
    {
        Site {
            path: SmallVec::from_slice(alloc, path).unwrap(),
            count: None,
            blocks: Vec::new(alloc),
            times: Vec::new(alloc),
            settled: 0,
        }
    }

    /// The path.
    pub fn path(&self) -> &[u8]
        ensures { result.now ≡ self.now.path }
    {
        self.path.as_slice()
    }

    /// How many blocks the image has, or none where nothing stands.
    pub fn count(&self) -> Option<u32>
        ensures { result ≡ self.now.count }
    {
        self.count
    }

    /// For how many blocks there is memory.
    pub fn capacity(&self) -> u32
        ensures count { result ≡ length self.now.blocks }
        ensures most { result ≤ max_blocks }
    {
        self.blocks.len() as u32
    }

    /// An image of so many zero blocks stands there from now on.
    pub fn open(&mut self, count: u32)
        requires none { self.old.count ≡ None }
        requires fits { count ≤ length self.old.blocks }
        ensures view { self.new ≡ record self.old { count = Some count } }
        ensures disk { disk_of self.new ≡ zeros count }
    {
        self.count = Some(count);
    }

    /// The bytes of a block.
    pub fn block(&self, block: usize) -> &[u8; 4096]
        requires { block < count_at self.now }
        ensures view { result.now ≡ slice_index_or self.now.blocks block zero_block }
        ensures disk { result.now ≡ (disk_of self.now).bytes block }
    {
        &self.blocks[block]
    }

    /// Writes a block at a time, and answers when it was written before.
    pub fn put(&mut self, block: usize, bytes: &[u8; 4096], time: usize) -> usize
        requires block { block < count_at self.old }
        requires later { self.old.settled < time }
        ensures view { self.new ≡ record self.old { blocks = slice_set self.old.blocks block bytes.now; times = slice_set self.old.times block time } }
        ensures before { result ≡ slice_index self.old.times block }
        ensures disk { disk_of self.new ≡ written block bytes.now (disk_of self.old) }
    {
        let before = self.times[block];
        self.blocks[block] = *bytes;
        self.times[block] = time;
        before
    }

    /// A write of a block fails at a time; answers when it was written before.
    pub fn loosen(&mut self, block: usize, time: usize) -> usize
        requires block { block < count_at self.old }
        requires later { self.old.settled < time }
        ensures view { self.new ≡ record self.old { times = slice_set self.old.times block time } }
        ensures before { result ≡ slice_index self.old.times block }
        ensures disk { disk_of self.new ≡ loosened block (disk_of self.old) }
    {
        let before = self.times[block];
        self.times[block] = time;
        before
    }

    /// All that was written is stable from a time on; answers when it was synced before.
    pub fn settle(&mut self, time: usize) -> usize
        requires { IsBy time self.old }
        ensures view { self.new ≡ record self.old { settled = time } }
        ensures before { result ≡ self.old.settled }
        ensures disk { disk_of self.new ≡ synced (disk_of self.old) }
    {
        let before = self.settled;
        self.settled = time;
        before
    }

    /// Replaces each loose block by these bytes, and leaves none loose.
    pub fn tear(&mut self, torn: &[u8; 4096], time: usize)
        requires { IsBy time self.old }
        ensures path { self.new.path ≡ self.old.path }
        ensures capacity { length self.new.blocks ≡ length self.old.blocks }
        ensures by { IsBy time self.new }
        ensures disk { disk_of self.new ≡ torn_disk torn.now (disk_of self.old) }
    {
        if self.count.is_some() {
            tear_blocks(&mut self.blocks, &self.times, self.settled, torn);
        }
        self.settled = time;
    }
}
