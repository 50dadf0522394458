//! Texts on chains of blocks, and blobs on blocks.
//!
//! A chain block is a `u32` with the number of the next block, 0 in the last, and 4,092 bytes of
//! text; the rest of the last block is zeros. A blob fills its blocks in order, 4,096 bytes to a
//! block; what follows in the last block isn't read (`docs/FORMATS.md`, "Chain, table and data").
//! These calls write and read; none of them syncs.
#![tactic(auto)]

mod blob;
mod error;
mod laws;
mod read;
mod walk;
mod write;

pub use blob::{read_blob, write_blob};
pub use error::ChainError;
pub use laws::{chains_are_one, filled_blocks_hold};
pub use read::{Chain, read_chain};
pub use write::write_chain;
