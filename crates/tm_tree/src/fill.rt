//! The bytes that a fill writes.
ghost use Rattle.std.specs.Prelude.{◌≡◌, IfOk};
ghost use Rattle.tm_tree.specs.Changes.{fill_byte, fill_bytes};

use std::alloc::{AllocError, Global};
use tm_world::Bytes;

// Byte `i` of what a fill writes.
fn fill_byte(seed: u64, i: u64) -> u8
    ensures { result ≡ fill_byte seed i }
{
    let (seed, i) = (u128::from(seed), u128::from(i));
    ((seed + 7 * i + i / 256) % 256) as u8
}

/// So many bytes of what a fill of this seed writes (`docs/SCRIPT.md`, "fill"); only want of memory
/// can refuse it.
pub fn fill_bytes(alloc: Global, count: u64, seed: u64) -> Result<Bytes, AllocError>
    ensures { IfOk result (λ bytes. bytes ≡ fill_bytes count seed) }
{
    let mut bytes = Vec::with_capacity(alloc, count as usize)?;
    for i in 0..count {
        bytes.push(fill_byte(seed, i))?;
    }
    Ok(Bytes::of(bytes))
}
