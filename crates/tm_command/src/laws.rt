//! What the definition of the command says.
//!
//! The function is empty; its contract is a law.
ghost use Rattle.tm_command.specs.Command.{OneCommand};

/// Words are one command at most.
pub fn one_command()
    ensures { OneCommand }
{}
