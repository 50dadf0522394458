//! What tests over a world in memory share: worlds with images of zeros, blocks that are read, written and changed, and
//! images that are written by hand, record by record. No part of the program.
//!
//! The volume stands at the path `v`, and the store at `s`.
#![tactic(auto)]

mod device;
mod records;
mod worlds;
mod written;

pub use device::{attach, attach_stable, change, read_block, write_block};
pub use records::{
    HEAD_KEY, ITEM, JOURNAL_KEY, Meta, NODE, Record, SNAPSHOT, put_edited, put_record, put_records,
};
pub use worlds::{pair, put_image, zeros};
pub use written::{chain_of, store_world, volume_world};
