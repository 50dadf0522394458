//! Fields in bytes: numbers of a fixed width, and bytes after their length.
//!
//! Numbers are big endian. A `short` is one length byte and so many bytes, a `long` is a `u16`
//! length and so many bytes (`docs/FORMATS.md`, "Fields"). Each value has one spelling, and no
//! spelling begins another of its kind.
#![tactic(auto)]

mod error;
mod get;
mod laws;
mod put;

pub use error::{CodecError, Memory};
pub use get::{get_long, get_short, get_u8, get_u16, get_u32, get_u64, get_u128};
pub use laws::{spellings_are_apart, spellings_are_read_again};
pub use put::{put_long, put_short, put_u8, put_u16, put_u32, put_u64, put_u128};

#[cfg(test)]
mod tests;
