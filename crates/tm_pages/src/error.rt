//! Why pages aren't planned or read.
ghost use Rattle.std.specs.Prelude.{◌≡◌};

use std::alloc::{AllocError, AllocFailed};
use tm_world::Failed;

/// Why pages aren't planned.
#[derive(Clone, Copy, Debug, PartialEq, Eq)]
pub enum PlanError {
    /// The map has too few free blocks.
    Full,
    /// Memory was refused.
    Memory,
}

impl From<AllocError> for PlanError {
    ghost use Rattle.tm_pages.specs.declared.error.PlanError.TheVariants.{Memory};

    ghost from_gives = { λ _ e. e ≡ Memory };

    fn from(_error: AllocError) -> PlanError {
        PlanError::Memory
    }
}

impl<T: Drop> From<AllocFailed<T>> for PlanError {
    ghost use Rattle.tm_pages.specs.declared.error.PlanError.TheVariants.{Memory};

    ghost from_gives = { λ _ e. e ≡ Memory };

    fn from(_error: AllocFailed<T>) -> PlanError {
        PlanError::Memory
    }
}

impl From<tm_blockmap::Memory> for PlanError {
    ghost use Rattle.tm_pages.specs.declared.error.PlanError.TheVariants.{Memory};

    ghost from_gives = { λ _ e. e ≡ Memory };

    fn from(_error: tm_blockmap::Memory) -> PlanError {
        PlanError::Memory
    }
}

/// Why pages aren't read.
#[derive(Clone, Copy, Debug, PartialEq, Eq)]
pub enum PagesError {
    /// The offset in the directory text of the first entry that breaks a rule
    /// (`docs/FORMATS.md`, "Pages").
    BadPages(u64),
    /// The device failed.
    Fault,
    /// Memory was refused.
    Memory,
}

impl From<Failed> for PagesError {
    ghost use Rattle.tm_pages.specs.declared.error.PagesError.TheVariants.{Fault};

    ghost from_gives = { λ _ e. e ≡ Fault };

    fn from(_failed: Failed) -> PagesError {
        PagesError::Fault
    }
}

impl From<AllocError> for PagesError {
    ghost use Rattle.tm_pages.specs.declared.error.PagesError.TheVariants.{Memory};

    ghost from_gives = { λ _ e. e ≡ Memory };

    fn from(_error: AllocError) -> PagesError {
        PagesError::Memory
    }
}

impl<T: Drop> From<AllocFailed<T>> for PagesError {
    ghost use Rattle.tm_pages.specs.declared.error.PagesError.TheVariants.{Memory};

    ghost from_gives = { λ _ e. e ≡ Memory };

    fn from(_error: AllocFailed<T>) -> PagesError {
        PagesError::Memory
    }
}
