//! The run of a script: from the words of the command to the bytes that are said.
#![tactic(auto)]

mod images;
mod laws;
mod lines;
mod output;
mod pair;
mod script;
mod status;
mod top;

pub use laws::{bad_is_shut, one_outcome, rows_pass, sides_are_paths};
pub use status::Status;
pub use top::run;
