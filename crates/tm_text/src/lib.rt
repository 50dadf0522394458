//! The script language: which bytes are a script, and which lines they spell
//! (`docs/SCRIPT.md`).
#![tactic(auto)]

mod error;
mod fsevents;
mod item;
mod laws;
mod line;
mod pieces;
mod place;
mod readers;
mod script;
mod session;
mod shapes;
mod store;
mod tmutil;
mod verb;
mod words;

pub use laws::{
    bad_is_outside, lines_are_valid, one_first_bad_line, one_meaning, printed_ids_read,
    printed_names_read, printed_paths_read, printed_snapshots_read, valid_lines_are_written,
};
pub use line::{Line, Lines};
pub use place::{ItemAt, SnapshotAt, StorePath, Stored, Which};
pub use script::{ParseError, parse};

#[cfg(test)]
mod tests;
