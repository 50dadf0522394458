//! What every layer above may rely on.
ghost use Rattle.tm_image.specs.Laws.{BlobStays, BlocksAreShared, ChangedAt, EntryAt, EntryChangedAt, FailsOrLacks, OneFailure, OneReading, ReadsOrFails, ReadsOrLacks, StandingIsLeft, StandingIsRead, TableFits};

/// What stands on a disk is what an image of it stands for, whatever a stop leaves.
pub fn standing_is_read()
    ensures left { StandingIsLeft }
    ensures itself { StandingIsRead }
{}

/// An image stands for one map and one tag, or it is unformatted, or one check fails at one place:
/// the answer of [`crate::Image::load`] is the only one.
pub fn readings_are_one()
    ensures reading { OneReading }
    ensures formatted { ReadsOrLacks }
    ensures whole { ReadsOrFails }
    ensures checked { FailsOrLacks }
    ensures failure { OneFailure }
{}

/// What changes make of the record and of the entry at each key.
pub fn changes_by_key()
    ensures changed { ChangedAt }
    ensures entry { EntryAt }
    ensures changed_entry { EntryChangedAt }
{}

/// How the blocks of an image are shared, by which the rule of room is reckoned.
pub fn blocks_are_shared()
    ensures table { TableFits }
    ensures shared { BlocksAreShared }
{}

/// A blob is what its blocks hold, so it stays where they stay.
pub fn blobs_stay()
    ensures { BlobStays }
{}
