//! The text of a table: the records of an image by rising key (`docs/FORMATS.md`, "The table").
#![tactic(auto)]

mod decoding;
mod encoding;
mod entry;
mod error;
mod laws;

pub use decoding::decode;
pub use encoding::{encode, is_among, push_record};
pub use error::TableError;
pub use laws::tables_are_one;

#[cfg(test)]
mod tests;
