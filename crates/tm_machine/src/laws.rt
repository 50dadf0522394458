//! What the definitions of the plain machine say together.
//!
//! Each function is empty; its contract is a law.
ghost use Rattle.tm_machine.specs.Commits.{LastOfOpening};
ghost use Rattle.tm_machine.specs.Histories.{EffectsEnd, EffectsReply, HeldFits, HistoryWhereFits, PlainIsHistory, PlainMayBeDone, PlainWhereFits};
ghost use Rattle.tm_machine.specs.Session.{SessionLeaves};

use tm_fit::{backups_fit, changes_fit, later_generations_fit, new_stores_fit, new_volumes_fit};
use tm_store::held_reads;
use tm_store::laws::blank_is_left;
use tm_volume::laws::{blank_is_left as volume_blank_is_left, standing_volume_is_left};

/// The last commit is what is kept of the state after it: of opening, and of what a line does, which
/// has a reply of one byte or more.
pub fn commits_end()
    ensures opening { LastOfOpening }
    ensures last { EffectsEnd }
    ensures replies { EffectsReply }
{}

/// Lines may always do what the plain machine does.
pub fn plain_is_history()
    ensures lines { PlainMayBeDone }
    ensures history { PlainIsHistory }
{}

/// Whatever pair of images a stop leaves between two lines reads as what is kept of the session.
pub fn session_is_left()
    ensures { SessionLeaves }
{
    standing_volume_is_left();
    volume_blank_is_left();
    held_reads();
    blank_is_left();
}

/// Over a pair that fits, lines do what the plain machine does and nothing else; and so does a run
/// over a pair that fits once it is opened again. Whatever the images hold at a moment of it fits
/// once it is opened again.
pub fn plain_where_fits()
    ensures lines { PlainWhereFits }
    ensures history { HistoryWhereFits }
    ensures held { HeldFits }
{
    changes_fit();
    backups_fit();
    new_volumes_fit();
    new_stores_fit();
    later_generations_fit();
}
