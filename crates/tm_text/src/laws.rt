//! Laws of the script language.
ghost use Rattle.tm_text.specs.ReadingLaws.{PrintedNamesRead, PrintedPathsRead, PrintedIdsRead, PrintedSnapshotsRead};
ghost use Rattle.tm_text.specs.ScriptLaws.{OneMeaning, BadIsOutside, OneFirstBadLine, LinesAreValid, ValidLinesAreWritten};

/// A script is one list of lines at most.
pub fn one_meaning()
    ensures { OneMeaning }
{}

/// A script that has a first bad line is no list of lines.
pub fn bad_is_outside()
    ensures { BadIsOutside }
{}

/// A script has one first bad line at most.
pub fn one_first_bad_line()
    ensures { OneFirstBadLine }
{}

/// The values of a script's lines are within the bounds of their kinds of word.
pub fn lines_are_valid()
    ensures { LinesAreValid }
{}

/// Each line whose values are within the bounds of their kinds of word can be written.
pub fn valid_lines_are_written()
    ensures { ValidLinesAreWritten }
{}

/// A printed name reads as that name.
pub fn printed_names_read()
    ensures { PrintedNamesRead }
{}

/// A printed path reads as that path.
pub fn printed_paths_read()
    ensures { PrintedPathsRead }
{}

/// A printed id reads as that id.
pub fn printed_ids_read()
    ensures { PrintedIdsRead }
{}

/// The printed path of a snapshot reads as the store path of that snapshot.
pub fn printed_snapshots_read()
    ensures { PrintedSnapshotsRead }
{}
