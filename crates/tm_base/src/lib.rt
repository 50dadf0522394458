//! Names, paths, moments and refusals: the words that every other crate speaks in.
#![tactic(auto)]

mod laws;
pub mod limits;
mod moment;
mod name;
mod path;
mod refused;

pub use laws::{ancestor_is_less, moment_texts_differ, prefix_is_front};
pub use moment::{BadDate, Moment};
pub use name::{Name, NameError};
pub use path::{Path, PathError};
pub use refused::{Full, LineFault, Refused, Side};

#[cfg(test)]
mod tests;
