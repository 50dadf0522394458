//! What every crate above may rely on.
ghost use Rattle.tm_store.specs.Finding.{NamedAt, NamedUnder};
ghost use Rattle.tm_store.specs.Sides.{OneStoreSide, StoreBlankLeaves, StoreBlankMayBeFormatted, NoneOrStore, OneStoreFailure, StoreReadsOrFails};

use tm_image::readings_are_one;
use tm_store_records::one_store_reads;

/// An image reads as at most one store, and as none where it is unformatted.
pub fn sides_read_as_one()
    ensures { OneStoreSide }
{
    one_store_reads();
    readings_are_one();
}

/// A stop leaves an unformatted disk unformatted.
pub fn blank_is_left()
    ensures { StoreBlankLeaves }
{}

/// A store may be made on an unformatted disk.
pub fn blank_may_be_formatted()
    ensures { StoreBlankMayBeFormatted }
{}

/// Whatever a stop leaves of a side that is being formatted reads as no store, or as the new one.
pub fn none_or_store()
    ensures { NoneOrStore }
{}

/// An image reads as a store, or it is unformatted, or one check of it fails at one place.
pub fn store_fails_once()
    ensures failure { OneStoreFailure }
    ensures whole { StoreReadsOrFails }
{
    readings_are_one();
}

/// A snapshot is named in a store as it is in memory.
pub fn snapshots_are_named()
    ensures at { NamedAt }
    ensures under { NamedUnder }
{}
