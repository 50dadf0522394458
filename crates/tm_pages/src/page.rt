//! A page.

/// A block that begins with a part of the text (`docs/FORMATS.md`, "Pages").
#[derive(Clone, Copy, Debug, PartialEq, Eq)]
pub struct Page {
    /// The number of the block.
    pub block: u32,
    /// How many bytes of the text it begins with, from 1 to 4,096.
    pub length: u16,
}
