//! A record, and a change of one.

use tm_world::{Blob, Blocks, Bytes};

/// What stands at a key: a meta, and data in blocks.
#[derive(Drop)]
pub struct Record {
    pub meta: Bytes,
    /// The length of the data, in bytes.
    pub length: u64,
    /// The blocks that the data fills, 4,096 bytes to a block.
    pub blocks: Blocks,
}

/// What becomes of the data of a record that is put.
#[derive(Drop)]
pub enum Body {
    /// The data that stands at the key.
    Kept,
    /// No data.
    Empty,
    /// The data of a blob.
    New(Blob),
}

/// A record that is put at a key, whether or not one stands there.
#[derive(Drop)]
pub struct Put {
    pub key: u64,
    pub meta: Bytes,
    pub body: Body,
}
