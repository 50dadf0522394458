//! Why a table isn't read.
ghost use Rattle.std.specs.Prelude.{◌≡◌};

use std::alloc::{AllocError, AllocFailed};
use tm_codec::CodecError;

/// Why a table isn't read.
#[derive(Clone, Copy, Debug, PartialEq, Eq)]
pub enum TableError {
    /// The offset of the first record that breaks a rule (`docs/FORMATS.md`, "What is bad").
    BadTable(u64),
    /// Memory was refused.
    Memory,
}

impl<T: Drop> From<AllocFailed<T>> for TableError {
    ghost use Rattle.tm_table.specs.declared.error.TableError.TheVariants.{Memory};

    ghost from_gives = { λ _ e. e ≡ Memory };

    fn from(_error: AllocFailed<T>) -> TableError {
        TableError::Memory
    }
}

/// Why a record isn't read.
#[derive(Clone, Copy, Debug, PartialEq, Eq)]
pub(crate) enum RecordError {
    /// It breaks a rule.
    Bad,
    /// Memory was refused.
    Memory,
}

impl From<CodecError> for RecordError {
    ghost use Rattle.tm_table.specs.declared.error.RecordError.TheVariants.{Bad};

    ghost from_gives = { λ _ e. e ≡ Bad };

    fn from(_error: CodecError) -> RecordError {
        RecordError::Bad
    }
}

impl From<AllocError> for RecordError {
    ghost use Rattle.tm_table.specs.declared.error.RecordError.TheVariants.{Memory};

    ghost from_gives = { λ _ e. e ≡ Memory };

    fn from(_error: AllocError) -> RecordError {
        RecordError::Memory
    }
}
