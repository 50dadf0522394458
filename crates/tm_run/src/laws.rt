//! What the definitions of runs say together.
//!
//! Each function is empty; its contract is a law.
ghost use Rattle.tm_run.specs.Moments.{SidesArePaths};
ghost use Rattle.tm_run.specs.Outcomes.{BadIsShut, OneOutcome, OneStart, StartsRun};
ghost use Rattle.tm_run.specs.Rows.{RowFits, RowPasses};

use tm_machine::{commits_end, plain_is_history, plain_where_fits};
use tm_store::laws::{sides_read_as_one, store_fails_once};
use tm_text::{bad_is_outside, one_first_bad_line, one_meaning};
use tm_volume::laws::{sides_read_as_one as volume_sides_read_as_one, volume_fails_once};

/// Some words and what stands outside give one outcome at most.
pub fn one_outcome()
    ensures one { OneOutcome }
    ensures start { OneStart }
    ensures run { StartsRun }
{
    one_meaning();
    bad_is_outside();
    one_first_bad_line();
    volume_sides_read_as_one();
    volume_fails_once();
    sides_read_as_one();
    store_fails_once();
}

/// An image of which a check fails can't be opened.
pub fn bad_is_shut()
    ensures { BadIsShut }
{
    volume_fails_once();
    store_fails_once();
}

/// A moment of a run on the sides is one at the paths of its words.
pub fn sides_are_paths()
    ensures { SidesArePaths }
{
    commits_end();
}

/// Over a row of runs, each of which finds what the one before may have left, the state passes by
/// prefixes of commits, and holds each line whose reply was said; and where the first pair fits once
/// it is opened again, each run is the plain machine's, and what is left fits again.
pub fn rows_pass()
    ensures passes { RowPasses }
    ensures fits { RowFits }
{
    plain_is_history();
    plain_where_fits();
}
