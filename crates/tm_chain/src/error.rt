//! Why a chain isn't read.
ghost use Rattle.std.specs.Prelude.{◌≡◌};

use std::alloc::{AllocError, AllocFailed};
use tm_world::Failed;

/// Why a chain isn't read.
#[derive(Clone, Copy, Debug, PartialEq, Eq)]
pub enum ChainError {
    /// The first block, in chain order, that breaks a rule (`docs/FORMATS.md`, "What is bad").
    BadChain(u32),
    /// The device failed.
    Fault,
    /// Memory was refused.
    Memory,
}

impl From<Failed> for ChainError {
    ghost use Rattle.tm_chain.specs.declared.error.ChainError.TheVariants.{Fault};

    ghost from_gives = { λ _ e. e ≡ Fault };

    fn from(_failed: Failed) -> ChainError {
        ChainError::Fault
    }
}

impl From<AllocError> for ChainError {
    ghost use Rattle.tm_chain.specs.declared.error.ChainError.TheVariants.{Memory};

    ghost from_gives = { λ _ e. e ≡ Memory };

    fn from(_error: AllocError) -> ChainError {
        ChainError::Memory
    }
}

impl<T: Drop> From<AllocFailed<T>> for ChainError {
    ghost use Rattle.tm_chain.specs.declared.error.ChainError.TheVariants.{Memory};

    ghost from_gives = { λ _ e. e ≡ Memory };

    fn from(_error: AllocFailed<T>) -> ChainError {
        ChainError::Memory
    }
}

impl From<tm_blockmap::Memory> for ChainError {
    ghost use Rattle.tm_chain.specs.declared.error.ChainError.TheVariants.{Memory};

    ghost from_gives = { λ _ e. e ≡ Memory };

    fn from(_error: tm_blockmap::Memory) -> ChainError {
        ChainError::Memory
    }
}
