//! What a command names.
use thiserror::Error;

/// What a command names (`docs/DEFINITIONS.md`, "Runs").
#[derive(Clone, Copy, Debug, PartialEq, Eq)]
pub struct Command<'a> {
    /// The path of the image of the volume.
    pub volume: &'a str,
    /// The path of the image of the store.
    pub store: &'a str,
    /// The path of the script.
    pub script: &'a str,
    /// How many blocks an image gets that is made where none stands, from 1 to
    /// `tm_base::limits::MAX_BLOCKS`.
    pub create: Option<u32>,
}

/// Why words were not read as the command.
#[derive(Clone, Copy, Debug, PartialEq, Eq, Error)]
pub enum WordsError {
    /// They are not the command.
    #[error("the words are not the command")]
    Usage,
    /// Memory was refused.
    #[error("out of memory")]
    Memory,
}
