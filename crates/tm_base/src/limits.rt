//! The bounds of an image, a volume, a store and a script, each said once.

/// The most blocks of an image: those of 1 GiB (`docs/FORMATS.md`).
pub const MAX_BLOCKS: u32 = 262_144;

/// The fewest blocks of an image that can be formatted.
pub const MIN_BLOCKS: u32 = 8;

/// The bytes of a block.
pub const BLOCK_BYTES: usize = 4_096;

/// The most items of a volume, the root counted; also the highest number of an item.
pub const MAX_ITEMS: u64 = 65_536;

/// The most bytes of a file.
pub const MAX_FILE_BYTES: u64 = 16_777_216;

/// The most bytes of a link's target.
pub const MAX_TARGET_BYTES: usize = 1_023;

/// The most extra attributes of an item.
pub const MAX_EXTRAS: usize = 16;

/// The most bytes of an extra attribute's value.
pub const MAX_VALUE_BYTES: usize = 4_096;

/// The most fixed paths of a volume.
pub const MAX_FIXED: usize = 256;

/// The most names of a path.
pub const MAX_NAMES: usize = 64;

/// The most bytes of a name.
pub const MAX_NAME_BYTES: usize = 255;

/// The last second of the year 9999, counted from 1970-01-01T00:00:00.
pub const LAST_MOMENT: u64 = 253_402_300_799;

/// The most events that a volume's journal keeps.
pub const MAX_EVENTS: u64 = 65_536;

/// The most snapshots of a store.
pub const MAX_SNAPSHOTS: usize = 1_024;

/// The most nodes of a store.
pub const MAX_NODES: u64 = 262_144;

/// The most bytes of a script.
pub const MAX_SCRIPT_BYTES: usize = 1_048_576;
