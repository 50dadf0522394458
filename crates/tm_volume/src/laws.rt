//! What every crate above may rely on.
ghost use Rattle.tm_volume.specs.Answers.{OneVolumeFailure, ReadsOrFailsVolume};
ghost use Rattle.tm_volume.specs.Bounds.{ItemsKeepBounds, KeptAreFew, KeptIsTree};
ghost use Rattle.tm_volume.specs.Reads.{OneSide, BlankLeaves};
ghost use Rattle.tm_volume.specs.Seen.{StandsLeaves};

use tm_image::{readings_are_one, standing_is_read};
use tm_items::{counts_are_alike, numbers_count, sound_items_read};
use tm_nodes::spellings_are_found;

/// An image reads as at most one volume, and as none where it is unformatted.
pub fn sides_read_as_one()
    ensures { OneSide }
{
    readings_are_one();
}

/// A stop leaves an unformatted disk unformatted.
pub fn blank_is_left()
    ensures { BlankLeaves }
{}

/// Whatever a stop leaves of the disk on which a volume stands reads as that volume.
pub fn standing_volume_is_left()
    ensures { StandsLeaves }
{
    standing_is_read();
}

/// An image reads as a volume, or it is unformatted, or one check of it fails at one place; but a
/// volume whose generations are spent reads as such, and is not opened.
pub fn volume_fails_once()
    ensures failure { OneVolumeFailure }
    ensures whole { ReadsOrFailsVolume }
{
    readings_are_one();
}

/// The items of a volume are a tree of at most 65,536 items, whatever the bytes of its data, and
/// each keeps the bounds of records; but the length of a file may be any.
pub fn items_keep_bounds()
    ensures tree { KeptIsTree }
    ensures few { KeptAreFew }
    ensures bounds { ItemsKeepBounds }
{
    spellings_are_found();
    sound_items_read();
    counts_are_alike();
    numbers_count();
}
