//! Why a record could not be read.
ghost use Rattle.std.specs.Prelude.{ℕ, List, Option};
ghost use Rattle.tm_nodes.specs.Answers.{Tells};
ghost use Rattle.tm_nodes.specs.Readers.{Gives, value_alone};

use std::alloc::{AllocError, AllocFailed};
use tm_codec::CodecError;

/// Why a reading call gives no record.
#[derive(Clone, Copy, Debug, PartialEq, Eq)]
pub enum NodeError {
    /// The bytes under this key break a rule of the record's fields (`docs/RECORDS.md`).
    BadNode(u64),
    /// Memory was refused.
    Memory,
}

/// Why the front of some bytes gives no value.
#[derive(Clone, Copy, Debug, PartialEq, Eq)]
pub enum ReadError {
    /// A field is missing or breaks a rule.
    Broken,
    /// Memory was refused.
    Memory,
}

impl From<CodecError> for ReadError {
    ghost use Rattle.std.specs.Prelude.{◌≡◌};
    ghost use Rattle.tm_nodes.specs.declared.error.ReadError.TheVariants.{Broken};

    ghost from_gives = { λ _ error. error ≡ Broken };

    fn from(_error: CodecError) -> ReadError {
        ReadError::Broken
    }
}

impl From<AllocError> for ReadError {
    ghost use Rattle.std.specs.Prelude.{◌≡◌};
    ghost use Rattle.tm_nodes.specs.declared.error.ReadError.TheVariants.{Memory};

    ghost from_gives = { λ _ error. error ≡ Memory };

    fn from(_error: AllocError) -> ReadError {
        ReadError::Memory
    }
}

impl<T: Drop> From<AllocFailed<T>> for ReadError {
    ghost use Rattle.std.specs.Prelude.{◌≡◌};
    ghost use Rattle.tm_nodes.specs.declared.error.ReadError.TheVariants.{Memory};

    ghost from_gives = { λ _ error. error ≡ Memory };

    fn from(_error: AllocFailed<T>) -> ReadError {
        ReadError::Memory
    }
}

/// The value that was read, where no bytes follow it; [`NodeError::BadNode`] with this key where
/// some do, or where none was read.
pub fn alone<T: Drop>(key: u64, read: Result<(T, &[u8]), ReadError>) -> Result<T, NodeError>
    ensures { (found : Option (T × List ℕ)) → Gives (λ x. (x.0, x.1.now)) read.entry found → Tells key result (value_alone found) }
{
    match read {
        Ok((value, [])) => Ok(value),
        Ok(_) | Err(ReadError::Broken) => Err(NodeError::BadNode(key)),
        Err(ReadError::Memory) => Err(NodeError::Memory),
    }
}
