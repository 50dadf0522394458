//! The causes for which an image is bad.

/// Which check an image fails, in the order in which they are made (`docs/FORMATS.md`, "What is
/// bad").
#[derive(Clone, Copy, Debug, PartialEq, Eq)]
pub enum Cause {
    /// A field of the named slot; the place is its offset.
    Slot,
    /// The chain of the table; the place is a block.
    Chain,
    /// A record of the table text; the place is its offset.
    Table,
    /// A page of the table; the place is a block. No image gives it before tables have pages.
    Pages,
    /// A block that is claimed twice; the place is the block.
    Block,
    /// Fewer blocks are free than the table takes; the place is the free number.
    Room,
    /// A record that breaks a rule; the place is its key.
    Record,
    /// The generations of a volume are spent; the place is 0.
    Spent,
}
