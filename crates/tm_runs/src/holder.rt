//! What is kept of a page.

/// The key of the record that has a page's first byte, and how many of the record's bytes stand
/// before the page.
#[derive(Clone, Copy, Debug, PartialEq, Eq)]
pub struct Holder {
    /// The key of the record.
    pub key: u64,
    /// How many of its bytes stand before the page.
    pub skip: usize,
}
