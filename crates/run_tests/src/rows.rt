//! Runs in a row: over images that are not what they were thought to be, and with stops between them.
use std::alloc::{AllocError, Global};
use std::test::Fail;
use tm_memworld::MemWorld;
use tm_run::{Status, run};
use tm_run_testing::{
    COMMAND, FORMAT_BOTH, Stop, joined, run_next, run_with, said, stops_after, words,
};
use tm_testing::{pair, write_block};
use tm_world::Side;

/// The first run, over a new volume and a new store: a file, and its first backup.
const MONDAY: &str = "\
write /f one\n\
tmutil startbackup --block\n";

/// The second run: the file changes, and is backed up again.
const TUESDAY: &str = "\
at 2009-03-03-090000\n\
write /f two\n\
tmutil startbackup --block\n";

/// What the second run says, by replies.
const TUESDAY_SAYS: [&str; 3] = ["ok\n", "ok\n", "finished 2009-03-03-090000 walked 1\nok\n"];

/// What a third run asks, and what it is answered with one snapshot, and with two.
const ASKS: &str = "\
tmutil listbackups\n\
store cat /Backups.backupdb/Mac/2009-03-02-090000/HD/f\n\
store cat /Backups.backupdb/Mac/2009-03-03-090000/HD/f\n";

const ONE: &str = "\
/Backups.backupdb/Mac/2009-03-02-090000\n\
ok\n\
bytes 3 one\n\
ok\n\
refused 21 NoSnapshot\n";

const TWO: &str = "\
/Backups.backupdb/Mac/2009-03-02-090000\n\
/Backups.backupdb/Mac/2009-03-03-090000\n\
ok\n\
bytes 3 one\n\
ok\n\
bytes 3 two\n\
ok\n";

/// The words of the command with the old copy of the volume beside the store.
const OLD_COPY: [&str; 6] = ["--volume", "w", "--store", "s", "--script", "p"];

/// The words with which the old copy is made, beside a store that nothing else uses.
const COPYING: [&str; 6] = ["--volume", "w", "--store", "t", "--script", "p"];

/// Each line that is built, over the old copy: its file has a stamp that another file of the newer
/// store has too, so the backup takes it for that one and shares it.
const EACH_LINE: &str = "\
at 2009-03-04-090000\n\
newvolume HD 6ba7b810-9dad-11d1-80b4-00c04fd430c8 1000\n\
newstore Mac\n\
cat /f\n\
write /f three\n\
fill /g 3 65\n\
append /g !\n\
mkdir /a\n\
mv /g /a/h\n\
ln /l a/h\n\
chmod /a 700\n\
chown /a 502 21\n\
setx /a color red\n\
rmx /a color\n\
rm /l\n\
rmdir /a\n\
ls /a/h\n\
tmutil startbackup --block\n\
tmutil listbackups\n\
tmutil latestbackup\n\
tmutil machinedirectory\n\
store ls /Backups.backupdb/Mac\n\
store cat /Backups.backupdb/Mac/2009-03-02-090000/HD/f\n\
store cat /Backups.backupdb/Mac/2009-03-03-090000/HD/f\n\
store stat /Backups.backupdb/Mac/2009-03-03-090000/HD/f\n\
store df\n\
cat /f\n";

const EACH_LINE_SAYS: &str = "\
ok\n\
refused 3 Already\n\
refused 3 Already\n\
bytes 3 one\n\
ok\n\
ok\n\
ok\n\
ok\n\
ok\n\
ok\n\
ok\n\
ok\n\
ok\n\
ok\n\
ok\n\
ok\n\
refused 9 NotEmpty\n\
file 644 501 20 2009-03-04-090000 0 4 7 /a/h\n\
ok\n\
finished 2009-03-04-090000 walked 2\n\
ok\n\
/Backups.backupdb/Mac/2009-03-02-090000\n\
/Backups.backupdb/Mac/2009-03-03-090000\n\
/Backups.backupdb/Mac/2009-03-04-090000\n\
ok\n\
/Backups.backupdb/Mac/2009-03-04-090000\n\
ok\n\
/Backups.backupdb/Mac\n\
ok\n\
snapshot 2009-03-02-090000\n\
snapshot 2009-03-03-090000\n\
snapshot 2009-03-04-090000\n\
latest 2009-03-04-090000\n\
ok\n\
bytes 3 one\n\
ok\n\
bytes 3 two\n\
ok\n\
stat file label 2 links 2\n\
ok\n\
df blocks 64 free 57 nodes 7 stored 10 snapshots 3\n\
ok\n\
bytes 5 three\n\
ok\n";

#[test]
fn an_old_copy_of_the_volume_loses_no_snapshot(rt: HostRuntime) -> Result<(), Fail> {
    let alloc = rt.alloc();
    let mut world = pair(alloc, 64, 64)?;
    world.put_image("w", 64)?;
    world.put_image("t", 64)?;
    // The same lines make the same volume: what stands at `w` is a copy of `v` as it was on Monday.
    let monday = joined(alloc, FORMAT_BOTH, MONDAY)?;
    run_with(alloc, &mut world, &COPYING, &monday)?;
    run_next(alloc, &mut world, &monday)?;
    run_next(alloc, &mut world, TUESDAY)?;
    world.stop(&[0u8; 4096]);
    let ended = run_with(alloc, &mut world, &OLD_COPY, EACH_LINE)?;
    assert_eq!(rt; said(&world), EACH_LINE_SAYS);
    assert_eq!(rt; ended, Status::DoneRefused);
    Ok(())
}

/// Three runs in a row, of which the second is stopped at a call, with stops between them. Whether
/// the second was whole, and whether the third reads what the second may have left.
fn three_runs(alloc: Global, monday: &str, stop: Stop) -> Result<(bool, bool), AllocError> {
    let mut world = pair(alloc, 64, 64).or(Err(AllocError))?;
    run_next(alloc, &mut world, monday)?;
    world.stop(&[stop.byte; 4096]);
    let (ended, replies) = stops_after(alloc, &mut world, TUESDAY, &TUESDAY_SAYS, stop)?;
    run_next(alloc, &mut world, ASKS)?;
    let said = said(&world);
    let is_one_of = match replies {
        0 | 1 => said == ONE,
        2 => said == ONE || said == TWO,
        _ => said == TWO,
    };
    Ok((ended == Status::Done, is_one_of))
}

#[test]
fn three_runs_with_stops_between_them(rt: HostRuntime) -> Result<(), Fail> {
    let monday = joined(rt.alloc(), FORMAT_BOTH, MONDAY)?;
    let mut is_whole = false;
    for call in 0..1000 {
        if is_whole {
            break;
        }
        let stop = Stop { call, byte: 0xff };
        let (whole, is_one_of) = three_runs(rt.alloc(), &monday, stop)?;
        assert!(rt; is_one_of, "call {call}");
        is_whole = whole;
    }
    assert!(rt; is_whole);
    Ok(())
}

/// A pair of images of 64 blocks that no program here has made: noise stands in the selector, the
/// slots, a block of data and the last block. Of no block more a write is taken.
fn foreign(alloc: Global, byte: u8) -> Result<MemWorld, Fail> {
    let mut world = pair(alloc, 64, 64)?;
    world.room(100, 10, 0)?;
    for block in [0, 1, 2, 3, 63] {
        for side in [Side::Volume, Side::Store] {
            write_block(&mut world, side, block, &[byte; 4096])?;
        }
    }
    Ok(world)
}

#[test]
fn foreign_images_are_not_written(rt: HostRuntime) -> Result<(), Fail> {
    let words = words(rt.alloc(), &COMMAND)?;
    for byte in [1, 0xa5, 0xff] {
        let mut world = foreign(rt.alloc(), byte)?;
        world.put_script("p", b"")?;
        assert_eq!(rt; run(rt.alloc(), &words, &mut world), Status::Done);
        assert!(rt; world.said().is_empty());
    }
    Ok(())
}
