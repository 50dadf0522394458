//! Why a step of a test isn't done.
use std::alloc::{AllocError, AllocFailed};
use tm_pages::{PagesError, PlanError};
use tm_table::TableError;
use tm_world::Failed;

/// Why a step of a test isn't done.
#[derive(Clone, Copy, Debug, PartialEq, Eq)]
pub(crate) enum Failure {
    /// The map has too few free blocks.
    Full,
    /// The device failed, memory was refused, or what was read is bad.
    Other,
}

impl From<PlanError> for Failure {
    fn from(error: PlanError) -> Failure {
        match error {
            PlanError::Full => Failure::Full,
            PlanError::Memory => Failure::Other,
        }
    }
}

impl From<PagesError> for Failure {
    fn from(_error: PagesError) -> Failure {
        Failure::Other
    }
}

impl From<TableError> for Failure {
    fn from(_error: TableError) -> Failure {
        Failure::Other
    }
}

impl From<Failed> for Failure {
    fn from(_error: Failed) -> Failure {
        Failure::Other
    }
}

impl From<tm_codec::Memory> for Failure {
    fn from(_error: tm_codec::Memory) -> Failure {
        Failure::Other
    }
}

impl From<tm_blockmap::Memory> for Failure {
    fn from(_error: tm_blockmap::Memory) -> Failure {
        Failure::Other
    }
}

impl From<AllocError> for Failure {
    fn from(_error: AllocError) -> Failure {
        Failure::Other
    }
}

impl<T: Drop> From<AllocFailed<T>> for Failure {
    fn from(_error: AllocFailed<T>) -> Failure {
        Failure::Other
    }
}
