//! What a call changed, with what it takes to undo it.
use tm_world::Side;

/// What attaching a side did at the path.
#[derive(Clone, Copy)]
pub enum Opened {
    /// The path was known, and what stands there stays.
    Found,
    /// An image was made there.
    Made,
    /// The path was not known, and is noted.
    Named,
}

/// A change, with what was there before. Sites and scripts are named by their places in the lists,
/// blocks by their numbers.
#[derive(Clone, Copy)]
pub enum Change {
    /// A side was attached: which, where it was attached before, and what that did at the path.
    Attached(Side, Option<usize>, Opened),
    /// A script was attached: which was before, and how far it was taken.
    Started(Option<usize>, usize),
    /// A block of a site was written, which was written before at this time. Its old bytes are saved.
    Wrote(usize, usize, usize),
    /// A write of a block of a site failed, which was written before at this time.
    Loosened(usize, usize, usize),
    /// A site was synced, which was synced before at this time.
    Synced(usize, usize),
    /// So many bytes of the script were taken.
    Took(usize),
    /// So many bytes were said.
    Said(usize),
}
