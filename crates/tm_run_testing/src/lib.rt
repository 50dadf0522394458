//! What tests of whole runs share: runs of the program over a world in memory, one after the other on the same images,
//! tables of scripts with what they say, and what the images hold after them. No part of the program.
#![tactic(auto)]

mod opened;
mod runs;
mod scripts;

pub use opened::{ReadError, VolumeItems, df, read_store, read_volume, stat};
pub use runs::{
    COMMAND, Run, Stop, first_other, joined, put_times, replies_in, run_next, run_with, said,
    stops_after, words,
};
pub use scripts::{FORMAT_BOTH, FORMAT_BOTH_SAYS, FORMAT_VOLUME};
