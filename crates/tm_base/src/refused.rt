//! Why a line was not done.
ghost use Rattle.std.specs.Prelude.{◌≡◌};
ghost use Rattle.tm_base.specs.Refusals.{number_of};

use crate::moment::Moment;
use std::alloc::{AllocError, AllocFailed};

/// One of the two images.
#[derive(Clone, Copy, Debug, PartialEq, Eq)]
pub enum Side {
    Volume,
    Store,
}

/// A line's need of blocks is above what is free; both are shown.
#[derive(Clone, Copy, Debug, PartialEq, Eq)]
pub struct Full {
    /// The free blocks that the line needs.
    pub need: u64,
    /// The blocks that are free.
    pub free: u64,
}

/// Why a line is refused (`docs/SCRIPT.md`, "Refusals").
///
/// The variants stand by rising number; where several hold, the least is answered.
#[derive(Clone, Copy, Debug, PartialEq, Eq)]
pub enum Refused {
    /// No volume is formatted.
    NoVolume,
    /// No store is formatted.
    NoStore,
    /// The image is formatted already.
    Already,
    /// The image has fewer than 8 blocks.
    Small,
    /// The walk down a path meets a folder without the next name.
    NotFound,
    /// An item stands where a new one would, or a link where a file would be written.
    Exists,
    /// The walk down a path goes through a file or link, or `rmdir` names one.
    NotFolder,
    /// A folder stands where a file or link is needed.
    IsFolder,
    /// `rmdir` of a folder with entries.
    NotEmpty,
    /// A folder would move beneath itself.
    IntoSelf,
    /// An item would stand under more than 64 names.
    TooDeep,
    /// A file would have this length, above 16,777,216.
    TooLong {
        /// In bytes.
        length: u64,
    },
    /// The line would reach this count, above a limit.
    TooMany {
        /// Of items, extras, fixed paths, snapshots or nodes.
        count: u128,
    },
    /// The root would be removed or excluded.
    RootItem,
    /// Too few blocks are free.
    Full {
        /// The free blocks that the line needs.
        need: u64,
        /// The blocks that are free.
        free: u64,
    },
    /// A backup runs.
    Busy {
        /// When it was started.
        date: Moment,
    },
    /// No backup runs.
    NoBackup,
    /// The moment isn't later than the last snapshot's date.
    DateNotLater {
        /// Of the last snapshot.
        date: Moment,
    },
    /// The line needs a moment, and none is set.
    NoMoment,
    /// The new moment is earlier than the one that is set.
    ClockBack {
        /// The one that is set.
        date: Moment,
    },
    /// A store path names no snapshot.
    NoSnapshot,
    /// That exclusion isn't there.
    NotExcluded,
    /// The item lacks the attribute.
    NoAttribute,
    /// The volume's numbers, its generations or the backup numbers are spent.
    IdsSpent,
    /// A snapshot has that volume id.
    IdTaken,
    /// No machine builds this line yet; asked before all others.
    NotBuilt,
}

impl Refused {
    /// The number of the refusal, from 1 to 27; none has 23. It takes no memory.
    pub fn number(&self) -> u8
        ensures { result ≡ number_of self.now }
    {
        match self {
            Refused::NoVolume => 1,
            Refused::NoStore => 2,
            Refused::Already => 3,
            Refused::Small => 4,
            Refused::NotFound => 5,
            Refused::Exists => 6,
            Refused::NotFolder => 7,
            Refused::IsFolder => 8,
            Refused::NotEmpty => 9,
            Refused::IntoSelf => 10,
            Refused::TooDeep => 11,
            Refused::TooLong { .. } => 12,
            Refused::TooMany { .. } => 13,
            Refused::RootItem => 14,
            Refused::Full { .. } => 15,
            Refused::Busy { .. } => 16,
            Refused::NoBackup => 17,
            Refused::DateNotLater { .. } => 18,
            Refused::NoMoment => 19,
            Refused::ClockBack { .. } => 20,
            Refused::NoSnapshot => 21,
            Refused::NotExcluded => 22,
            Refused::NoAttribute => 24,
            Refused::IdsSpent => 25,
            Refused::IdTaken => 26,
            Refused::NotBuilt => 27,
        }
    }
}

/// Why a call for a line was not done.
#[derive(Clone, Copy, Debug, PartialEq, Eq)]
pub enum LineFault {
    /// The line is refused.
    Refused(Refused),
    /// An image failed.
    Fault(Side),
    /// Memory was refused.
    Memory,
}

impl From<Refused> for LineFault {
    ghost use Rattle.tm_base.specs.declared.refused.LineFault.TheVariants.{Refused};

    ghost from_gives = { λ why fault. fault ≡ Refused why };

    fn from(why: Refused) -> LineFault {
        LineFault::Refused(why)
    }
}

impl From<AllocError> for LineFault {
    ghost use Rattle.tm_base.specs.declared.refused.LineFault.TheVariants.{Memory};

    ghost from_gives = { λ _ fault. fault ≡ Memory };

    fn from(_error: AllocError) -> LineFault {
        LineFault::Memory
    }
}

impl<T: Drop> From<AllocFailed<T>> for LineFault {
    ghost use Rattle.tm_base.specs.declared.refused.LineFault.TheVariants.{Memory};

    ghost from_gives = { λ _ fault. fault ≡ Memory };

    fn from(_error: AllocFailed<T>) -> LineFault {
        LineFault::Memory
    }
}
