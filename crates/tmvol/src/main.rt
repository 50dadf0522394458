//! The program: the words that the system gives, the run over real files, and the exit status.
#![tactic(auto)]

mod arguments;
mod ending;

ghost use Rattle.std.specs.Prelude.{◌≡◌};
ghost use Rattle.tm_command.specs.Command.{texts, IsSomeCommand};
ghost use Rattle.tm_run.specs.Readings.{EndsAsOrCut};
ghost use Rattle.tm_run.specs.declared.status.Status.{Status};

use crate::arguments::{ArgumentsError, after_name, arguments};
use crate::ending::exit_code;
use std::process::ExitCode;
use std::rt::{Env, Files};
use tm_fileworld::FileWorld;
use tm_run::{Status, run};

/// Runs the command that the words after the program's name make, over files and standard output.
fn run_words<R: Files + Print + AllocGlobal>(rt: &R, words: &[String]) -> Status
    ensures usage { result ≡ Status.Usage → IsSomeCommand (texts words.now) → ⊥ }
    ensures not_command { (IsSomeCommand (texts words.now) → ⊥) → EndsAsOrCut Status.Usage result }
{
    run(rt.alloc(), words, &mut FileWorld::new(rt))
}

/// Runs the command that the system's words make.
fn run_arguments<R: Env + Files + Print + AllocGlobal>(rt: &R) -> Result<Status, ArgumentsError> {
    let words = arguments(rt)?;
    Ok(run_words(rt, after_name(words.as_slice())))
}

/// Runs the command of the process, and ends with the status of its end.
fn main(rt: HostRuntime) -> ExitCode {
    exit_code(run_arguments(&rt))
}
