//! The keys of a volume's records.

/// The key of the head: the name, the id and the capacity, and the fixed paths.
pub const HEAD_KEY: u64 = 1;

/// The key of the journal's rows.
pub const JOURNAL_KEY: u64 = 2;

/// The key of item `n`, from 1 (the root) to the most items, is this and `n`.
pub const ITEM_KEY: u64 = 1 << 62;
