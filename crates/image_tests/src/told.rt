//! What a run says to an image that is opened.
use std::alloc::{AllocError, Global};
use tm_memworld::MemWorld;
use tm_run::Status;
use tm_run_testing::{run_next, said};
use tm_world::Cause;

/// The place at which an image is bad, and why.
pub(crate) type Bad = Option<(Cause, u64)>;

/// The word of a cause.
fn word(cause: Cause) -> &'static str {
    match cause {
        Cause::Slot => "slot",
        Cause::Chain => "chain",
        Cause::Table => "table",
        Cause::Pages => "pages",
        Cause::Block => "block",
        Cause::Room => "room",
        Cause::Record => "record",
        Cause::Spent => "spent",
    }
}

/// Whether a run ended as it must where an image is bad, and said so.
fn is_bad(
    alloc: Global,
    side: tm_base::Side,
    (cause, place): (Cause, u64),
    ended: Status,
    said: &str,
) -> Result<bool, AllocError> {
    let name = match side {
        tm_base::Side::Volume => "volume",
        tm_base::Side::Store => "store",
    };
    let word = word(cause);
    let line = format!(in alloc; "bad image {name} {word} {place}\n")?;
    let status = Status::BadImage { side, cause, place };
    Ok(ended == status && said == line.as_str())
}

/// Whether a run says that the volume is bad there, or opens it where it isn't bad.
pub(crate) fn volume_tells(
    alloc: Global,
    world: &mut MemWorld,
    bad: Bad,
) -> Result<bool, AllocError> {
    let ended = run_next(alloc, world, "")?;
    match bad {
        Some(bad) => is_bad(alloc, tm_base::Side::Volume, bad, ended, said(world)),
        None => Ok(ended == Status::Done && said(world) == ""),
    }
}

/// Whether a run says that the store is bad there, or opens it where it isn't bad.
pub(crate) fn store_tells(
    alloc: Global,
    world: &mut MemWorld,
    bad: Bad,
) -> Result<bool, AllocError> {
    let ended = run_next(alloc, world, "tmutil machinedirectory\n")?;
    match bad {
        Some(bad) => is_bad(alloc, tm_base::Side::Store, bad, ended, said(world)),
        None => Ok(ended == Status::Done && said(world) == "/Backups.backupdb/Mac\nok\n"),
    }
}
