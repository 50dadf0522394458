//! Blocks in memory.
ghost use Rattle.std.specs.Prelude.{◌≡◌, ℕ, List, length, replicate, slice_index, slice_index_or, nat_lt, if◌then◌else◌, IfOk};
ghost use Rattle.tm_memworld.specs.Site.{zero_block};

use std::alloc::{AllocError, Global};

/// So many blocks of zeros.
pub fn zero_blocks(alloc: Global, count: u32) -> Result<Vec<[u8; 4096]>, AllocError>
    ensures { IfOk result (λ v. v.items ≡ replicate count zero_block) }
{
    let mut blocks = Vec::with_capacity(alloc, count as usize)?;
    for _i in 0..count {
        blocks.push([0u8; 4096])?;
    }
    Ok(blocks)
}

/// So many times before all others.
pub fn zero_times(alloc: Global, count: u32) -> Result<Vec<usize>, AllocError>
    ensures { IfOk result (λ v. v.items ≡ replicate count 0) }
{
    vec![in alloc; 0; count as usize]
}

/// Replaces each block that was written later than all were synced.
pub fn tear_blocks(blocks: &mut [[u8; 4096]], times: &[usize], settled: usize, torn: &[u8; 4096])
    requires { length times.now ≡ length blocks.old }
    ensures { (k : ℕ) → slice_index_or blocks.new k zero_block ≡ (if nat_lt settled (slice_index times.now k) then torn.now else slice_index_or blocks.old k zero_block) }
{
    for i in 0..blocks.len() {
        if settled < times[i] {
            blocks[i] = *torn;
        }
    }
}
