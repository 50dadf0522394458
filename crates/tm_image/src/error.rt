//! Why an image refuses a call.
ghost use Rattle.std.specs.Prelude.{◌≡◌};

use std::alloc::AllocError;
use tm_world::{Cause, Failed};

/// Why nothing was staged or committed.
#[derive(Clone, Copy, Debug, PartialEq, Eq)]
pub enum ImageError {
    /// By the rule of room so many blocks are needed, and fewer are free.
    Full { need: u64, free: u64 },
    /// The device failed.
    Fault,
    /// Memory was refused.
    Memory,
}

impl From<Failed> for ImageError {
    ghost use Rattle.tm_image.specs.declared.error.ImageError.TheVariants.{Fault};

    ghost from_gives = { λ _ e. e ≡ Fault };

    fn from(_failed: Failed) -> ImageError {
        ImageError::Fault
    }
}

impl From<AllocError> for ImageError {
    ghost use Rattle.tm_image.specs.declared.error.ImageError.TheVariants.{Memory};

    ghost from_gives = { λ _ e. e ≡ Memory };

    fn from(_error: AllocError) -> ImageError {
        ImageError::Memory
    }
}

impl From<tm_blockmap::Memory> for ImageError {
    ghost use Rattle.tm_image.specs.declared.error.ImageError.TheVariants.{Memory};

    ghost from_gives = { λ _ e. e ≡ Memory };

    fn from(_error: tm_blockmap::Memory) -> ImageError {
        ImageError::Memory
    }
}

impl From<tm_codec::Memory> for ImageError {
    ghost use Rattle.tm_image.specs.declared.error.ImageError.TheVariants.{Memory};

    ghost from_gives = { λ _ e. e ≡ Memory };

    fn from(_error: tm_codec::Memory) -> ImageError {
        ImageError::Memory
    }
}

/// Why no image was read.
#[derive(Clone, Copy, Debug, PartialEq, Eq)]
pub enum LoadError {
    /// There are fewer than 3 blocks, or the named slot lacks the magic.
    Unformatted,
    /// A check fails, at this place (`docs/FORMATS.md`, "What is bad").
    Bad { cause: Cause, place: u64 },
    /// The device failed.
    Fault,
    /// Memory was refused.
    Memory,
}

impl From<Failed> for LoadError {
    ghost use Rattle.tm_image.specs.declared.error.LoadError.TheVariants.{Fault};

    ghost from_gives = { λ _ e. e ≡ Fault };

    fn from(_failed: Failed) -> LoadError {
        LoadError::Fault
    }
}

impl From<tm_blockmap::Memory> for LoadError {
    ghost use Rattle.tm_image.specs.declared.error.LoadError.TheVariants.{Memory};

    ghost from_gives = { λ _ e. e ≡ Memory };

    fn from(_error: tm_blockmap::Memory) -> LoadError {
        LoadError::Memory
    }
}

impl From<AllocError> for LoadError {
    ghost use Rattle.tm_image.specs.declared.error.LoadError.TheVariants.{Memory};

    ghost from_gives = { λ _ e. e ≡ Memory };

    fn from(_error: AllocError) -> LoadError {
        LoadError::Memory
    }
}
