//! Runs that are cut off at each of their calls, and what the next run then reads.
use crate::scripts::{FIRST, FIRST_SAYS};
use std::alloc::{AllocError, Global};
use std::test::Fail;
use tm_memworld::MemWorld;
use tm_run::Status;
use tm_run_testing::{FORMAT_BOTH, FORMAT_BOTH_SAYS, Stop, joined, run_next, said, stops_after};
use tm_testing::pair;

/// No script here makes so many calls.
const MOST_CALLS: u64 = 1000;

/// Two backups of a file that changes between them, over a new volume and a new store.
const TWO_BACKUPS: &str = "\
write /f one\n\
tmutil startbackup --block\n\
at 2009-03-02-100000\n\
write /f two\n\
tmutil startbackup --block\n";

/// A later backup, and what it has once the second text was written.
const LATER: &str = "\
at 2009-03-02-110000\n\
tmutil startbackup --block\n\
store cat /Backups.backupdb/Mac/Latest/HD/f\n";

const LATER_SAYS: &str = "ok\nfinished 2009-03-02-110000 walked 1\nok\nbytes 3 two\nok\n";

/// What the next run asks.
const NEXT: &str = "\
tmutil listbackups\n\
store cat /Backups.backupdb/Mac/2009-03-02-090000/HD/f\n\
store cat /Backups.backupdb/Mac/2009-03-02-100000/HD/f\n\
store ls /Backups.backupdb/Mac\n";

/// What it is answered without a store, and with one of no, of one and of two snapshots.
const ANSWERS: [&str; 4] = [
    "\
refused 2 NoStore\n\
refused 2 NoStore\n\
refused 2 NoStore\n\
refused 2 NoStore\n",
    "\
ok\n\
refused 21 NoSnapshot\n\
refused 21 NoSnapshot\n\
ok\n",
    "\
/Backups.backupdb/Mac/2009-03-02-090000\n\
ok\n\
bytes 3 one\n\
ok\n\
refused 21 NoSnapshot\n\
snapshot 2009-03-02-090000\n\
latest 2009-03-02-090000\n\
ok\n",
    "\
/Backups.backupdb/Mac/2009-03-02-090000\n\
/Backups.backupdb/Mac/2009-03-02-100000\n\
ok\n\
bytes 3 one\n\
ok\n\
bytes 3 two\n\
ok\n\
snapshot 2009-03-02-090000\n\
snapshot 2009-03-02-100000\n\
latest 2009-03-02-100000\n\
ok\n",
];

/// What the whole run says, by replies.
const REPLIES: [&str; 8] = [
    "ok\n",
    "ok\n",
    "ok\n",
    "ok\n",
    "finished 2009-03-02-090000 walked 1\nok\n",
    "ok\n",
    "ok\n",
    "finished 2009-03-02-100000 walked 1\nok\n",
];

/// The least place in the answers that may be read after so many replies: their lines were done.
const LEAST: [usize; 9] = [0, 0, 0, 1, 1, 2, 2, 2, 3];

/// The greatest place: the next line may have been done too.
const MOST: [usize; 9] = [0, 0, 1, 1, 2, 2, 2, 3, 3];

/// Whether what the next run says may be read after so many replies. Once the second text was written,
/// a later backup has it.
fn may_be_read(said: &str, replies: usize) -> bool {
    let (Some(least), Some(most)) = (LEAST.get(replies), MOST.get(replies)) else {
        return false;
    };
    for (place, answer) in ANSWERS.iter().enumerate() {
        if let Some(after) = said.strip_prefix(*answer) {
            let is_later = if replies < 7 {
                after == ""
            } else {
                after == LATER_SAYS
            };
            return *least <= place && place <= *most && is_later;
        }
    }
    false
}

/// Runs the script as far as a stop, and then the next. Whether the script was run to its end, and
/// whether the next run says what it may.
fn next_may_say(alloc: Global, script: &str, stop: Stop) -> Result<(bool, bool), AllocError> {
    let mut world = pair(alloc, 64, 64).or(Err(AllocError))?;
    let (ended, replies) = stops_after(alloc, &mut world, script, &REPLIES, stop)?;
    let later = if replies < 7 { "" } else { LATER };
    run_next(alloc, &mut world, &joined(alloc, NEXT, later)?)?;
    Ok((ended == Status::Done, may_be_read(said(&world), replies)))
}

/// Stops the script at each of its calls in turn. The first after which the next run says what it may
/// not, or how many calls there are.
fn first_bad_stop(alloc: Global, byte: u8) -> Result<Option<u64>, AllocError> {
    let script = joined(alloc, FORMAT_BOTH, TWO_BACKUPS)?;
    for call in 0..MOST_CALLS {
        let (is_whole, may_say) = next_may_say(alloc, &script, Stop { call, byte })?;
        if !may_say {
            return Ok(Some(call));
        }
        if is_whole {
            return Ok(None);
        }
    }
    Ok(Some(MOST_CALLS))
}

#[test]
fn a_stop_leaves_the_snapshots_that_were_finished(rt: HostRuntime) -> Result<(), Fail> {
    for byte in [0, 1, 0xff] {
        let bad = first_bad_stop(rt.alloc(), byte)?;
        assert_eq!(rt; bad, None, "with blocks of {byte}");
    }
    Ok(())
}

/// What two runs said of which one call failed, and how the last ended.
fn said_with_failure<'a>(
    alloc: Global,
    world: &'a mut MemWorld,
    scripts: [&str; 2],
    call: u64,
) -> Result<(&'a str, Status), AllocError> {
    world.fail_at(&[call]).or(Err(AllocError))?;
    let mut ended = run_next(alloc, world, scripts[0])?;
    if ended == Status::Done {
        ended = run_next(alloc, world, scripts[1])?;
    }
    Ok((said(world), ended))
}

#[test]
fn a_call_that_fails_ends_the_run(rt: HostRuntime) -> Result<(), Fail> {
    let alloc = rt.alloc();
    let first = joined(alloc, FORMAT_BOTH, FIRST)?;
    let scripts = [
        first.as_str(),
        "store cat /Backups.backupdb/Mac/Latest/HD/f\n",
    ];
    let says = format!(in alloc; "{FORMAT_BOTH_SAYS}{FIRST_SAYS}bytes 5 hello\nok\n")?;
    let mut is_whole = false;
    for call in 0..MOST_CALLS {
        let mut world = pair(alloc, 64, 64)?;
        let (said, ended) = said_with_failure(alloc, &mut world, scripts, call)?;
        assert!(rt; says.starts_with(said), "call {call} said {said}");
        is_whole = ended == Status::Done && said == says.as_str();
        let is_fault = is_fault(ended, call, said);
        assert!(rt;
            is_whole || is_fault,
            "call {call} said {said} and ended {ended:?}"
        );
        if is_whole {
            break;
        }
    }
    assert!(rt; is_whole);
    Ok(())
}

/// Whether a run may end like this where a call failed. A run attaches and takes its script by its first
/// three calls, before it says anything.
fn is_fault(ended: Status, call: u64, said: &str) -> bool {
    match ended {
        Status::ScriptFault if call < 3 => said == "",
        Status::ScriptFault => said.ends_with(FIRST_SAYS),
        Status::OutFault | Status::Device { .. } => call >= 3,
        _ => false,
    }
}
