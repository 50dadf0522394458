//! Runs of the program over a world in memory, one after the other on the same images.
use std::alloc::{AllocError, Global};
use tm_memworld::MemWorld;
use tm_run::{Status, run};

/// The words of the command that the program's manual gives.
pub const COMMAND: [&str; 6] = ["--volume", "v", "--store", "s", "--script", "p"];

/// Lines that are all done, the lines that are run after them in the same script, what these say, and
/// how the run ends.
pub type Run = (&'static str, &'static str, &'static str, Status);

/// Words as the program gets them.
pub fn words(alloc: Global, texts: &[&str]) -> Result<Vec<String>, AllocError> {
    let mut words = Vec::new(alloc);
    for text in texts {
        words.push(String::from_str(alloc, text)?)?;
    }
    Ok(words)
}

// Puts a script at `p`, and takes room for a run of it.
fn prepare(world: &mut MemWorld, script: &str) -> Result<(), AllocError> {
    world
        .put_script("p", script.as_bytes())
        .or(Err(AllocError))?;
    world.room(2000, 1000, 20_000).or(Err(AllocError))
}

/// Runs the program with these words, over a world with this script at `p`. How it ends.
pub fn run_with(
    alloc: Global,
    world: &mut MemWorld,
    texts: &[&str],
    script: &str,
) -> Result<Status, AllocError> {
    prepare(world, script)?;
    let words = words(alloc, texts)?;
    Ok(run(alloc, &words, world))
}

/// Runs a script over the pair at `v` and `s`. How it ends.
pub fn run_next(alloc: Global, world: &mut MemWorld, script: &str) -> Result<Status, AllocError> {
    run_with(alloc, world, &COMMAND, script)
}

/// What was said since the last stop.
pub fn said(world: &MemWorld) -> &str {
    str::from_utf8(world.said()).unwrap_or("what is no text")
}

/// One text behind another.
pub fn joined(alloc: Global, front: &str, back: &str) -> Result<String, AllocError> {
    let mut text = String::from_str(alloc, front)?;
    text.push_str(back)?;
    Ok(text)
}

/// Puts a part at the end of a text so many times.
pub fn put_times(text: &mut String, part: &str, count: usize) -> Result<(), AllocError> {
    for _ in 0..count {
        text.push_str(part)?;
    }
    Ok(())
}

/// Runs scripts one after the other over the same pair. What the first says that says something else
/// or ends otherwise, after all that was said before it; nothing where each run is as it must be.
pub fn first_other(
    alloc: Global,
    world: &mut MemWorld,
    runs: &[Run],
) -> Result<String, AllocError> {
    let mut says = String::new(alloc);
    for (before, lines, text, status) in runs {
        let script = joined(alloc, before, lines)?;
        put_times(&mut says, "ok\n", before.lines().count())?;
        says.push_str(text)?;
        let ended = run_next(alloc, world, &script)?;
        if ended != *status || said(world) != says.as_str() {
            return told(alloc, lines, said(world), ended);
        }
    }
    Ok(String::new(alloc))
}

// Lines, what was said, and how the run of the lines ended.
fn told(alloc: Global, lines: &str, said: &str, ended: Status) -> Result<String, AllocError> {
    Ok(format!(in alloc; "{lines}said\n{said}and ended {ended:?}")?)
}

/// How many of these replies a text begins with, one after the other.
pub fn replies_in(said: &str, replies: &[&str]) -> usize {
    let mut rest = said;
    let mut count = 0usize;
    for reply in replies {
        match rest.strip_prefix(*reply) {
            Some(after) => {
                rest = after;
                count = count.saturating_add(1);
            }
            None => return count,
        }
    }
    count
}

/// Where a run is cut off.
#[derive(Clone, Copy)]
pub struct Stop {
    /// The first call that is not made.
    pub call: u64,
    /// What fills the blocks that were not synced.
    pub byte: u8,
}

/// Runs a script as far as a stop, and stops. How the run ended, and how many of these replies it said.
pub fn stops_after(
    alloc: Global,
    world: &mut MemWorld,
    script: &str,
    replies: &[&str],
    stop: Stop,
) -> Result<(Status, usize), AllocError> {
    world.fuse(stop.call);
    let ended = run_next(alloc, world, script)?;
    let count = replies_in(said(world), replies);
    world.stop(&[stop.byte; 4096]);
    Ok((ended, count))
}
