//! How a run ends.
ghost use Rattle.std.specs.Prelude.{◌≡◌};
ghost use Rattle.tm_run.specs.Codes.{code_of};

use tm_base::Side;
use tm_world::Cause;

/// How a run ends (`docs/SCRIPT.md`, "The end of a run").
#[derive(Clone, Copy, Debug, PartialEq, Eq)]
pub enum Status {
    /// The script was run to its end, and no line was refused.
    Done,
    /// The script was run to its end, and some line was refused.
    DoneRefused,
    /// The words are not the command.
    Usage,
    /// The script is too long, or a line of it is outside the grammar.
    Script {
        /// The first bad line, counted from 1; 0 where the script is too long.
        line: u64,
    },
    /// An image is bad; no line was done (`docs/FORMATS.md`, "What is bad").
    BadImage {
        /// Which image.
        side: Side,
        /// The check that it fails.
        cause: Cause,
        /// Where.
        place: u64,
    },
    /// An image could not be opened, read or written.
    Device {
        /// Which image.
        side: Side,
    },
    /// Memory was refused.
    Memory,
    /// The script could not be read.
    ScriptFault,
    /// The output failed.
    OutFault,
}

impl Status {
    /// The exit status of the program.
    pub fn code(self) -> u8
        ensures { result ≡ code_of self }
    {
        match self {
            Status::Done => 0,
            Status::DoneRefused => 1,
            Status::Usage => 2,
            Status::Script { .. } => 3,
            Status::BadImage { .. } => 4,
            Status::Device { .. } => 5,
            Status::Memory => 6,
            Status::ScriptFault => 7,
            Status::OutFault => 8,
        }
    }
}
