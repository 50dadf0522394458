//! The command of the program: which words after the program's name are it, and what they name
//! (`docs/DEFINITIONS.md`, "Runs").
#![tactic(auto)]

mod command;
mod definition;
mod laws;
mod reading;

pub use command::{Command, WordsError};
pub use laws::one_command;
pub use reading::read_words;

#[cfg(test)]
mod tests;
