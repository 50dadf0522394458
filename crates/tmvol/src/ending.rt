//! The exit status.
ghost use Rattle.std.specs.Prelude.{◌≡◌};
ghost use Rattle.std.specs.Process.{exit_status};
ghost use Rattle.tmvol.specs.Endings.{code_at_end};

use crate::arguments::ArgumentsError;
use std::process::ExitCode;
use tm_run::Status;

/// The exit status of a process that ended so (`docs/SCRIPT.md`, "The end of a run"): that of the
/// run, or 6 where memory for the words was refused, or 9 where they were not given.
pub(crate) fn exit_code(ended: Result<Status, ArgumentsError>) -> ExitCode
    ensures { exit_status result ≡ code_at_end ended }
{
    ExitCode::from(match ended {
        Ok(status) => status.code(),
        Err(ArgumentsError::Memory) => Status::Memory.code(),
        Err(ArgumentsError::NotGiven) => 9,
    })
}
