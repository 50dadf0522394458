//! The words after the program's name.
ghost use Rattle.std.specs.Prelude.{◌≡◌, drop};

use std::alloc::AllocError;
use std::env::args;
use std::io;
use std::io::ErrorKind;
use std::rt::Env;

/// Why the words of the command are not had.
#[derive(Clone, Copy, Debug, PartialEq, Eq)]
pub(crate) enum ArgumentsError {
    /// Memory was refused.
    Memory,
    /// The system did not give them, or one of them is not UTF-8.
    NotGiven,
}

impl From<AllocError> for ArgumentsError {
    ghost use Rattle.std.specs.Prelude.{◌≡◌};
    ghost use Rattle.tmvol.specs.declared.arguments.ArgumentsError.TheVariants.{Memory};

    ghost from_gives = { λ _ error. error ≡ Memory };

    fn from(_error: AllocError) -> ArgumentsError {
        ArgumentsError::Memory
    }
}

impl From<io::Error> for ArgumentsError {
    ghost use Rattle.std.specs.IoError.{error_kind};
    ghost use Rattle.tmvol.specs.Endings.{IsWhyNotGiven};

    ghost from_gives = { λ cause error. IsWhyNotGiven (error_kind cause) error };

    fn from(cause: io::Error) -> ArgumentsError {
        if cause.kind() == ErrorKind::OutOfMemory {
            ArgumentsError::Memory
        } else {
            ArgumentsError::NotGiven
        }
    }
}

/// The words that the system gives, of which the first is the program's name.
pub(crate) fn arguments<R: Env + AllocGlobal>(rt: &R) -> Result<Vec<String>, ArgumentsError> {
    Ok(args(rt)?.collect(rt.alloc())?)
}

/// The words after the program's name.
pub(crate) fn after_name(words: &[String]) -> &[String]
    ensures { result.now ≡ drop 1 words.now }
{
    match words.split_first() {
        Some((_name, rest)) => rest,
        None => words,
    }
}
