//! Whole runs, from the words to the bytes said.
use crate::pairs::PAIRS;
use crate::refusals::REFUSALS;
use crate::scripts::{FIRST, FIRST_SAYS, SCRIPTS};
use std::alloc::{AllocError, Global};
use std::test::Fail;
use tm_memworld::MemWorld;
use tm_run::Status;
use tm_run_testing::{
    COMMAND, FORMAT_BOTH, FORMAT_BOTH_SAYS, first_other, joined, put_times, run_next, run_with,
    said,
};
use tm_testing::pair;

/// The words of the command with `--create`.
const CREATED: [&str; 8] = [
    "--volume", "v", "--store", "s", "--script", "p", "--create", "64",
];

/// The words of the command with a second volume beside the same store.
const OTHER: [&str; 6] = ["--volume", "w", "--store", "s", "--script", "p"];

/// The usage line.
const USAGE: &str = "usage: tmvol --volume PATH --store PATH --script PATH [--create BLOCKS]\n";

#[test]
fn scripts_say_their_replies(rt: HostRuntime) -> Result<(), Fail> {
    for run in SCRIPTS {
        let mut world = pair(rt.alloc(), 4200, 64)?;
        // A file of 16 MiB is written to 4,096 blocks.
        world.room(5000, 5000, 0)?;
        let other = first_other(rt.alloc(), &mut world, &[run])?;
        assert_eq!(rt; other.as_str(), "");
    }
    Ok(())
}

#[test]
fn scripts_go_on_where_others_ended(rt: HostRuntime) -> Result<(), Fail> {
    for (volume, store, runs) in PAIRS {
        let mut world = pair(rt.alloc(), volume, store)?;
        let other = first_other(rt.alloc(), &mut world, runs)?;
        assert_eq!(rt; other.as_str(), "");
    }
    Ok(())
}

/// Folders, each in the one before, as deep as they go; and one more that would hold them all.
fn deep(alloc: Global) -> Result<String, AllocError> {
    let mut script = joined(alloc, FORMAT_BOTH, "")?;
    let mut path = String::new(alloc);
    for _ in 0..64 {
        path.push_str("/a")?;
        script.push_str("mkdir ")?;
        script.push_str(&path)?;
        script.push_str("\n")?;
    }
    script.push_str("mkdir /b\nmv /a /b/a\n")?;
    Ok(script)
}

#[test]
fn a_folder_of_64_names_does_not_go_deeper(rt: HostRuntime) -> Result<(), Fail> {
    let mut world = pair(rt.alloc(), 64, 64)?;
    let mut says = joined(rt.alloc(), FORMAT_BOTH_SAYS, "")?;
    put_times(&mut says, "ok\n", 65)?;
    says.push_str("refused 11 TooDeep\n")?;
    let ended = run_next(rt.alloc(), &mut world, &deep(rt.alloc())?)?;
    assert_eq!(rt; said(&world), says.as_str());
    assert_eq!(rt; ended, Status::DoneRefused);
    Ok(())
}

/// Whether lines after others are each refused with this text. A line that is refused leaves all as it
/// was, so each of them stands alone.
fn are_refused(
    alloc: Global,
    before: (&str, &str),
    lines: &[&str],
    refusal: &str,
) -> Result<bool, AllocError> {
    let mut script = joined(alloc, before.0, before.1)?;
    for line in lines {
        script.push_str(line)?;
        script.push_str("\n")?;
    }
    let mut says = String::new(alloc);
    put_times(&mut says, refusal, lines.len())?;
    let mut world = pair(alloc, 64, 64).or(Err(AllocError))?;
    let ended = run_next(alloc, &mut world, &script)?;
    Ok(ended == Status::DoneRefused && said(&world).ends_with(says.as_str()))
}

#[test]
fn each_refusal_stands_alone(rt: HostRuntime) -> Result<(), Fail> {
    for (before, lines, refusal) in REFUSALS {
        let are = are_refused(rt.alloc(), before, lines, refusal)?;
        assert!(rt; are, "{refusal} after {before:?}");
    }
    Ok(())
}

#[test]
fn other_words_are_the_usage(rt: HostRuntime) -> Result<(), Fail> {
    let table: [&[&str]; 6] = [
        &[],
        &["--volume", "v", "--store", "s"],
        &["--help"],
        &["--volume", "v", "--store", "v", "--script", "p"],
        &["--volume", "v", "--store", "s", "--script", "p", "more"],
        &["--volume", "v", "--store", "s", "--script"],
    ];
    for texts in table {
        let mut world = pair(rt.alloc(), 64, 64)?;
        let ended = run_with(rt.alloc(), &mut world, texts, FORMAT_BOTH)?;
        assert_eq!(rt; (ended, said(&world)), (Status::Usage, USAGE));
    }
    Ok(())
}

#[test]
fn a_script_that_is_too_long_runs_no_line(rt: HostRuntime) -> Result<(), Fail> {
    for (length, says, status) in [
        (1_048_576, "", Status::Done),
        (1_048_577, "script too long\n", Status::Script { line: 0 }),
    ] {
        let mut script = String::new(rt.alloc());
        put_times(&mut script, "\n", length)?;
        let mut world = pair(rt.alloc(), 64, 64)?;
        let ended = run_next(rt.alloc(), &mut world, &script)?;
        assert_eq!(rt; (ended, said(&world)), (status, says));
    }
    Ok(())
}

#[test]
fn a_script_that_does_not_stand_is_a_fault(rt: HostRuntime) -> Result<(), Fail> {
    let mut world = pair(rt.alloc(), 64, 64)?;
    let texts = ["--volume", "v", "--store", "s", "--script", "q"];
    let ended = run_with(rt.alloc(), &mut world, &texts, FORMAT_BOTH)?;
    assert_eq!(rt; ended, Status::ScriptFault);
    Ok(())
}

/// The lines that back a volume up in each of the years 2001 to 3025.
fn backups(alloc: Global) -> Result<String, AllocError> {
    let formatted = "\
at 2000-01-01-000000\n\
newvolume HD 6ba7b810-9dad-11d1-80b4-00c04fd430c8 1000\n\
newstore Mac\n";
    let mut script = joined(alloc, formatted, "")?;
    for year in 2001..3026u32 {
        let lines = format!(in alloc; "at {year}-01-01-000000\ntmutil startbackup --block\n")?;
        script.push_str(&lines)?;
    }
    Ok(script)
}

#[test]
fn a_store_has_1024_snapshots(rt: HostRuntime) -> Result<(), Fail> {
    let mut world = pair(rt.alloc(), 64, 64)?;
    world.room(100_000, 20_000, 100_000)?;
    let ended = run_next(rt.alloc(), &mut world, &backups(rt.alloc())?)?;
    let last = "finished 3024-01-01-000000 walked 1\nok\nok\nrefused 13 TooMany 1025\n";
    assert!(rt; said(&world).ends_with(last));
    assert_eq!(rt; ended, Status::DoneRefused);
    Ok(())
}

/// A second volume, whose file has the stamp of the first one's, at its path.
const SECOND_VOLUME: &str = "\
at 2009-03-02-100000\n\
newvolume Other 6ba7b810-9dad-11d1-80b4-00c04fd430c8 1000\n\
newvolume Other 6ba7b810-9dad-11d1-80b4-00c04fd430c9 1000\n\
write /f other\n\
tmutil startbackup --block\n\
store cat /Backups.backupdb/Mac/Latest/Other/f\n\
store cat /Backups.backupdb/Mac/Latest/HD/f\n\
store cat /Backups.backupdb/Mac/2009-03-02-090000/HD/f\n";

const SECOND_VOLUME_SAYS: &str = "\
ok\n\
refused 26 IdTaken\n\
ok\n\
ok\n\
finished 2009-03-02-100000 walked 1\n\
ok\n\
bytes 5 other\n\
ok\n\
refused 21 NoSnapshot\n\
bytes 5 hello\n\
ok\n";

/// The last snapshot isn't of the first volume: all is copied anew.
const FIRST_VOLUME: &str = "\
at 2009-03-02-110000\n\
tmutil startbackup --block\n\
store cat /Backups.backupdb/Mac/Latest/HD/f\n\
store ls /Backups.backupdb/Mac/2009-03-02-100000\n\
store ls /Backups.backupdb/Mac/2009-03-02-110000\n";

const FIRST_VOLUME_SAYS: &str = "\
ok\n\
finished 2009-03-02-110000 walked 1\n\
ok\n\
bytes 5 hello\n\
ok\n\
volume Other 6ba7b810-9dad-11d1-80b4-00c04fd430c9\n\
ok\n\
volume HD 6ba7b810-9dad-11d1-80b4-00c04fd430c8\n\
ok\n";

#[test]
fn each_volume_has_a_base_of_its_own(rt: HostRuntime) -> Result<(), Fail> {
    let alloc = rt.alloc();
    let mut world = pair(alloc, 64, 64)?;
    world.put_image("w", 64)?;
    run_next(alloc, &mut world, &joined(alloc, FORMAT_BOTH, FIRST)?)?;
    let second = run_with(alloc, &mut world, &OTHER, SECOND_VOLUME)?;
    let third = run_next(alloc, &mut world, FIRST_VOLUME)?;
    let says = format!(in alloc;
        "{FORMAT_BOTH_SAYS}{FIRST_SAYS}{SECOND_VOLUME_SAYS}{FIRST_VOLUME_SAYS}"
    )?;
    assert_eq!(rt; said(&world), says.as_str());
    assert_eq!(rt; (second, third), (Status::DoneRefused, Status::Done));
    Ok(())
}

/// A world in which two images of 64 blocks may be made, and none stands.
fn places(alloc: Global) -> Result<MemWorld, Fail> {
    let mut world = MemWorld::new(alloc)?;
    world.put_place("v", 64)?;
    world.put_place("s", 64)?;
    Ok(world)
}

#[test]
fn images_are_made_where_none_stand(rt: HostRuntime) -> Result<(), Fail> {
    let alloc = rt.alloc();
    let mut world = places(alloc)?;
    let ended = run_with(alloc, &mut world, &COMMAND, FORMAT_BOTH)?;
    let says = "ok\nrefused 4 Small\nrefused 4 Small\n";
    assert_eq!(rt; (ended, said(&world)), (Status::DoneRefused, says));
    let mut world = places(alloc)?;
    let script = joined(alloc, FORMAT_BOTH, FIRST)?;
    let first = run_with(alloc, &mut world, &CREATED, &script)?;
    let script = "store cat /Backups.backupdb/Mac/2009-03-02-090000/HD/f\n";
    let second = run_next(alloc, &mut world, script)?;
    let says = format!(in alloc; "{FORMAT_BOTH_SAYS}{FIRST_SAYS}bytes 5 hello\nok\n")?;
    assert_eq!(rt; said(&world), says.as_str());
    assert_eq!(rt; (first, second), (Status::Done, Status::Done));
    Ok(())
}
