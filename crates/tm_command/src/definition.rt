//! The command as `clap` is told it.
ghost use Rattle.std.specs.Prelude.{◌≡◌, false, IfOk};
ghost use Rattle.clap.specs.Words.{app_of, rule_of};
ghost use Rattle.tm_command.specs.Command.{bare_app, path_rule, create_rule, tmvol};

use clap::{Arg, Command};
use std::alloc::{AllocError, Global};

// An option that must stand, with one text.
fn path_option<'a>(alloc: Global, name: &'a str) -> Arg<'a>
    ensures rule { rule_of result ≡ path_rule name.entry.now }
    ensures local { result.global ≡ false }
{
    Arg::new(alloc, name).long(name).required(true)
}

// `--create`, which may be left out.
fn create_option<'a>(alloc: Global) -> Arg<'a>
    ensures rule { rule_of result ≡ create_rule }
    ensures local { result.global ≡ false }
{
    Arg::new(alloc, "create").long("create")
}

// The program's name, which is not among the words.
fn bare_command<'a>(alloc: Global) -> Command<'a>
    ensures { app_of result ≡ bare_app }
{
    Command::new(alloc, "tmvol").no_binary_name(true)
}

/// The definition of the command.
pub(crate) fn tmvol<'a>(alloc: Global) -> Result<Command<'a>, AllocError>
    ensures { IfOk result (λ command. app_of command ≡ tmvol) }
{
    bare_command(alloc)
        .arg(path_option(alloc, "volume"))?
        .arg(path_option(alloc, "store"))?
        .arg(path_option(alloc, "script"))?
        .arg(create_option(alloc))
}
