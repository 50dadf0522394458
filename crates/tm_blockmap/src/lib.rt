//! The set of used blocks of an image.
//!
//! A block is a number below that of the image's blocks (`docs/FORMATS.md`, "Blocks"). The set
//! is kept in words of 64 bits with a hint, so that taking a block looks at few words.
#![tactic(auto)]

mod laws;

ghost use Rattle.std.specs.Prelude.{◌≡◌, ◌≢◌, ◌<◌, ◌≤◌, ◌-◌, ◌+◌, ◌^◌, ◌++◌, ◌↔◌, ℕ, length, min, slice_index, slice_set, replicate, sum, IfOk, IfSome, IfNone, IsTrue, OnOk, OnErr};
ghost use Rattle.std.specs.Int.{bit_at};
ghost use Rattle.tm_blockmap.specs.Marks.{AreMarks, IsLowestFree, IsFull};
ghost use Rattle.tm_blockmap.specs.Counts.{times};
ghost use Rattle.tm_blockmap.specs.Takes.{Takes};
ghost use Rattle.tm_blockmap.specs.Gives.{Gives};

pub use laws::marks_count_blocks;
use std::alloc::{AllocError, Global};
use std::marker::Model;

/// Memory was refused.
#[derive(Clone, Copy, Debug, PartialEq, Eq)]
pub struct Memory;

impl From<AllocError> for Memory {
    fn from(_error: AllocError) -> Memory {
        Memory
    }
}

/// A set of used blocks below a number. Seen as a list of marks, 1 at a used block and 0 at a
/// free one.
#[derive(Drop)]
pub struct BlockMap {
    /// A bit for each block, 64 to a word; those past the last block stay 0.
    words: Vec<u64>,
    count: u32,
    free: u32,
    /// No block of a word before this one is free.
    hint: usize,
}

impl Model for BlockMap {
    ghost use Rattle.std.specs.Prelude.{List, ℕ};

    ghost Value = { List ℕ };

    ghost use Rattle.tm_blockmap.specs.Words.{marks_of, IsBlockMap};

    ghost view = { λ a. marks_of a.count a.words.items };

    ghost invariant = { IsBlockMap };
}

/// The first word from `from` on that isn't full.
fn first_open(words: &[u64], from: usize) -> usize
    requires { from ≤ length words.now }
    ensures within { result ≤ length words.now }
    ensures not_before { from ≤ result }
    ensures full { (w : ℕ) → from ≤ w → w < result → slice_index words.now w ≡ 2 ^ 64 - 1 }
    ensures open { result < length words.now → slice_index words.now result ≢ 2 ^ 64 - 1 }
{
    let mut at = from;
    while at < words.len() && words[at] == u64::MAX {
        at += 1;
    }
    at
}

/// The lowest bit that is 0.
fn lowest_zero(word: u64) -> u32
    requires { word ≢ 2 ^ 64 - 1 }
    ensures within { result < 64 }
    ensures free { bit_at word result ≡ 0 }
    ensures below { (i : ℕ) → i < result → bit_at word i ≡ 1 }
{
    word.trailing_ones()
}

impl BlockMap {
    /// A map of `n` blocks, of which those below `kept` are used. Only want of memory can refuse
    /// it.
    pub fn new(alloc: Global, n: u32, kept: u32) -> Result<BlockMap, Memory>
        ensures kept { IfOk result (λ map. map ≡ replicate (min kept n) 1 ++ replicate (n - kept) 0) }
        ensures size { IfOk result (λ map. length map ≡ n) }
        ensures free { IfOk result (λ map. (b : ℕ) → b < n → (slice_index map b ≡ 0) ↔ (kept ≤ b)) }
        ensures are_marks { IfOk result AreMarks }
    {
        let mut map = BlockMap::unused(alloc, n)?;
        for block in 0..kept.min(n) {
            map.claim(block);
        }
        Ok(map)
    }

    /// A map of so many blocks, all of them free.
    fn unused(alloc: Global, n: u32) -> Result<BlockMap, Memory>
        ensures { IfOk result (λ map. map ≡ replicate n 0) }
    {
        let words = vec![in alloc; 0u64; (n as usize + 63) / 64]?;
        Ok(BlockMap {
            words,
            count: n,
            free: n,
            hint: 0,
        })
    }

    /// The number of blocks, used or free. It takes no memory.
    pub fn size(&self) -> u32
        ensures { result ≡ length self.now }
    {
        self.count
    }

    /// The number of free blocks. It takes no memory.
    pub fn free(&self) -> u32
        ensures { result + sum self.now ≡ length self.now }
    {
        self.free
    }

    /// Takes the lowest free block, which is used afterwards; none exactly where no block is
    /// free. It takes no memory.
    pub fn take(&mut self) -> Option<u32>
        ensures lowest { IfSome result (IsLowestFree self.old) }
        ensures used { IfSome result (λ block. self.new ≡ slice_set self.old block 1) }
        ensures full { IfNone result (IsFull self.old) }
        ensures same { IfNone result (self.new ≡ self.old) }
    {
        let at = first_open(&self.words, self.hint);
        if at >= self.words.len() {
            return None;
        }
        let word = self.words[at];
        let bit = lowest_zero(word);
        let block = at as u32 * 64 + bit;
        if block >= self.count {
            return None;
        }
        self.words[at] = word | 1 << bit;
        self.hint = at;
        self.free -= 1;
        Some(block)
    }

    /// Gives a used block back; it is free afterwards. It takes no memory.
    pub fn give(&mut self, block: u32)
        requires { slice_index self.old block ≡ 1 }
        ensures { self.new ≡ slice_set self.old block 0 }
    {
        let at = block as usize / 64;
        let bit = block % 64;
        self.words[at] &= !(1 << bit);
        self.hint = self.hint.min(at);
        self.free += 1;
    }

    /// Claims a block, which is used afterwards; whether it was free. It takes no memory.
    pub fn claim(&mut self, block: u32) -> bool
        requires { block < length self.old }
        ensures was_free { IsTrue result ↔ (slice_index self.old block ≡ 0) }
        ensures used { self.new ≡ slice_set self.old block 1 }
    {
        let at = block as usize / 64;
        let bit = block % 64;
        let word = self.words[at];
        if word >> bit & 1 == 1 {
            return false;
        }
        self.words[at] = word | 1 << bit;
        self.free -= 1;
        true
    }

    /// Takes so many of the lowest free blocks, one after another. Only want of memory can refuse
    /// it, and then the map is as before.
    pub fn take_all(&mut self, alloc: Global, count: u32) -> Result<Vec<u32>, Memory>
        requires room { count + sum self.old ≤ length self.old }
        requires are_marks { AreMarks self.old }
        ensures taken { IfOk result (λ blocks. Takes blocks.items self.old self.new) }
        ensures many { IfOk result (λ blocks. length blocks.items ≡ count) }
        ensures marks { IfOk result (λ blocks. (b : ℕ) → slice_index self.new b ≡ slice_index self.old b + times b blocks.items) }
        ensures sum { OnOk result (sum self.new ≡ sum self.old + count) }
        ensures size { length self.new ≡ length self.old }
        ensures are_marks { AreMarks self.new }
        ensures err { OnErr result (self.new ≡ self.old) }
    {
        let mut blocks = Vec::with_capacity(alloc, count as usize)?;
        for _i in 0..count {
            match self.take() {
                Some(block) => blocks.push(block).unwrap(),
                None => unreachable!(),
            }
        }
        Ok(blocks)
    }

    /// Gives back these blocks, which are used and each stand once. It takes no memory.
    pub fn give_all(&mut self, blocks: &[u32])
        requires used { (b : ℕ) → times b blocks.now ≤ slice_index self.old b }
        requires are_marks { AreMarks self.old }
        ensures { Gives blocks.now self.old self.new }
    {
        for block in blocks {
            self.give(*block);
        }
    }
}

#[cfg(test)]
mod tests;
