//! Scripts that go on where others ended, over the same images.
use crate::scripts::{FIRST, FIRST_SAYS};
use tm_run::Status;
use tm_run_testing::{FORMAT_BOTH, FORMAT_VOLUME, Run};

/// How many blocks of zeros the volume and the store have, and runs over them in a row.
type Pair = (u32, u32, &'static [Run]);

pub(crate) const PAIRS: [Pair; 16] = [
    // The snapshots are read in a second run.
    (
        64,
        64,
        &[
            (FORMAT_BOTH, FIRST, FIRST_SAYS, Status::Done),
            (
                "",
                "store cat /Backups.backupdb/Mac/2009-03-02-090000/HD/f\n",
                "bytes 5 hello\nok\n",
                Status::Done,
            ),
            (
                "",
                "\
tmutil machinedirectory\n\
tmutil listbackups\n\
tmutil latestbackup\n\
store ls /Backups.backupdb\n\
store ls /Backups.backupdb/Mac\n\
store ls /Backups.backupdb/Mac/Latest\n\
store ls /Backups.backupdb/Mac/Latest/HD\n\
store ls /Backups.backupdb/Mac/2009-03-02-090000/HD/f\n\
store cat /Backups.backupdb/Mac/Latest/HD/f\n",
                "\
/Backups.backupdb/Mac\n\
ok\n\
/Backups.backupdb/Mac/2009-03-02-090000\n\
ok\n\
/Backups.backupdb/Mac/2009-03-02-090000\n\
ok\n\
machine Mac\n\
ok\n\
snapshot 2009-03-02-090000\n\
latest 2009-03-02-090000\n\
ok\n\
volume HD 6ba7b810-9dad-11d1-80b4-00c04fd430c8\n\
ok\n\
folder 755 501 20 2009-03-02-090000 0 /\n\
file 644 501 20 2009-03-02-090000 0 5 1 f\n\
ok\n\
file 644 501 20 2009-03-02-090000 0 5 1 /f\n\
ok\n\
bytes 5 hello\n\
ok\n",
                Status::Done,
            ),
        ],
    ),
    // Each snapshot keeps its state.
    (
        64,
        64,
        &[
            (FORMAT_BOTH, FIRST, FIRST_SAYS, Status::Done),
            (
                "",
                "\
at 2009-03-02-100000\n\
mkdir /a\n\
mv /f /a/g\n\
ln /l a/g\n\
chmod /a/g 600\n\
setx /a/g color red\n\
tmutil startbackup --block\n",
                "ok\nok\nok\nok\nok\nok\nfinished 2009-03-02-100000 walked 2\nok\n",
                Status::Done,
            ),
            (
                "",
                "\
at 2009-03-02-110000\n\
rm /a/g\n\
rmdir /a\n\
tmutil startbackup --block\n",
                "ok\nok\nok\nfinished 2009-03-02-110000 walked 1\nok\n",
                Status::Done,
            ),
            (
                "",
                "\
tmutil listbackups\n\
tmutil latestbackup\n\
store cat /Backups.backupdb/Mac/2009-03-02-090000/HD/f\n\
store cat /Backups.backupdb/Mac/2009-03-02-090000/HD/a/g\n\
store ls /Backups.backupdb/Mac/2009-03-02-100000/HD\n\
store ls /Backups.backupdb/Mac/2009-03-02-100000/HD/a/g\n\
store cat /Backups.backupdb/Mac/2009-03-02-100000/HD/a/g\n\
store cat /Backups.backupdb/Mac/2009-03-02-100000/HD/l\n\
store ls /Backups.backupdb/Mac/Latest/HD\n\
store cat /Backups.backupdb/Mac/Latest/HD/a/g\n",
                "\
/Backups.backupdb/Mac/2009-03-02-090000\n\
/Backups.backupdb/Mac/2009-03-02-100000\n\
/Backups.backupdb/Mac/2009-03-02-110000\n\
ok\n\
/Backups.backupdb/Mac/2009-03-02-110000\n\
ok\n\
bytes 5 hello\n\
ok\n\
refused 5 NotFound\n\
folder 755 501 20 2009-03-02-100000 0 /\n\
folder 755 501 20 2009-03-02-100000 0 a\n\
link 755 501 20 2009-03-02-100000 0 7 l a/g\n\
ok\n\
file 600 501 20 2009-03-02-090000 1 5 11 /a/g\n\
extra color red\n\
ok\n\
bytes 5 hello\n\
ok\n\
target a/g\n\
ok\n\
folder 755 501 20 2009-03-02-110000 0 /\n\
link 755 501 20 2009-03-02-100000 0 7 l a/g\n\
ok\n\
refused 5 NotFound\n",
                Status::DoneRefused,
            ),
        ],
    ),
    // Backups are refused by their dates.
    (
        64,
        64,
        &[
            (FORMAT_BOTH, FIRST, FIRST_SAYS, Status::Done),
            // After loading there is no moment, and the clock may be set to any.
            (
                "",
                "\
tmutil startbackup --block\n\
at 2009-03-02-090000\n\
tmutil startbackup --block\n\
at 2009-03-02-080000\n\
at 2009-03-02-090000\n",
                "\
refused 19 NoMoment\n\
ok\n\
refused 18 DateNotLater 2009-03-02-090000\n\
refused 20 ClockBack 2009-03-02-090000\n\
ok\n",
                Status::DoneRefused,
            ),
            (
                "",
                "\
at 2009-03-02-080000\n\
tmutil startbackup --block\n\
tmutil listbackups\n",
                "\
ok\n\
refused 18 DateNotLater 2009-03-02-090000\n\
/Backups.backupdb/Mac/2009-03-02-090000\n\
ok\n",
                Status::DoneRefused,
            ),
            (
                "",
                "\
at 2009-03-02-090001\n\
tmutil startbackup --block\n\
newstore Mac\n",
                "\
ok\n\
finished 2009-03-02-090001 walked 1\n\
ok\n\
refused 3 Already\n",
                Status::DoneRefused,
            ),
        ],
    ),
    // A store of 8 blocks is full.
    (
        64,
        8,
        &[
            (
                FORMAT_BOTH,
                "\
fill /f 12288 0\n\
tmutil startbackup --block\n\
at 2009-03-02-100000\n\
write /g x\n\
tmutil startbackup --block\n",
                "\
ok\n\
finished 2009-03-02-090000 walked 1\n\
ok\n\
ok\n\
ok\n\
refused 15 Full 2 1\n",
                Status::DoneRefused,
            ),
            // No date runs after a refusal, and what was staged is free again.
            (
                "",
                "\
at 2009-03-02-100000\n\
store ls /Backups.backupdb/Mac\n\
tmutil startbackup --block\n\
rm /f\n\
tmutil startbackup --block\n\
rm /g\n\
tmutil startbackup --block\n\
store ls /Backups.backupdb/Mac\n\
store ls /Backups.backupdb/Mac/Latest/HD\n",
                "\
ok\n\
snapshot 2009-03-02-090000\n\
latest 2009-03-02-090000\n\
ok\n\
refused 15 Full 2 1\n\
ok\n\
refused 15 Full 2 1\n\
ok\n\
finished 2009-03-02-100000 walked 1\n\
ok\n\
snapshot 2009-03-02-090000\n\
snapshot 2009-03-02-100000\n\
latest 2009-03-02-100000\n\
ok\n\
folder 755 501 20 2009-03-02-100000 0 /\n\
ok\n",
                Status::DoneRefused,
            ),
        ],
    ),
    // Files are staged as far as there is room: of 8 blocks 4 are free, of which 3 may hold data.
    (
        64,
        8,
        &[
            (
                FORMAT_BOTH,
                "\
fill /f 12289 0\n\
tmutil startbackup --block\n\
fill /f 8192 0\n\
fill /g 8192 1\n\
tmutil startbackup --block\n\
fill /g 4097 1\n\
tmutil startbackup --block\n\
fill /g 4096 1\n\
tmutil startbackup --block\n",
                "\
ok\n\
refused 15 Full 5 4\n\
ok\n\
ok\n\
refused 15 Full 3 2\n\
ok\n\
refused 15 Full 3 2\n\
ok\n\
finished 2009-03-02-090000 walked 1\n\
ok\n",
                Status::DoneRefused,
            ),
            // An empty file takes no block, but one may be staged only where a table would still fit.
            (
                "",
                "\
at 2009-03-02-100000\n\
fill /h 0 0\n\
tmutil startbackup --block\n\
write /h x\n\
tmutil startbackup --block\n\
store cat /Backups.backupdb/Mac/Latest/HD/h\n",
                "\
ok\n\
ok\n\
finished 2009-03-02-100000 walked 1\n\
ok\n\
ok\n\
refused 18 DateNotLater 2009-03-02-100000\n\
bytes 0\n\
ok\n",
                Status::DoneRefused,
            ),
        ],
    ),
    // A second run goes on with the volume.
    (
        64,
        64,
        &[
            (FORMAT_VOLUME, "write /f hello\n", "ok\n", Status::Done),
            ("", "cat /f\n", "bytes 5 hello\nok\n", Status::Done),
        ],
    ),
    // An image that is formatted has 8 blocks or more. The store is there in the next run too.
    (
        7,
        64,
        &[(
            "at 2009-03-02-090000\n",
            "newvolume HD 6ba7b810-9dad-11d1-80b4-00c04fd430c8 1000\n",
            "refused 4 Small\n",
            Status::DoneRefused,
        )],
    ),
    (
        8,
        64,
        &[(
            "at 2009-03-02-090000\n",
            "newvolume HD 6ba7b810-9dad-11d1-80b4-00c04fd430c8 1000\n",
            "ok\n",
            Status::Done,
        )],
    ),
    (
        64,
        0,
        &[
            (
                "",
                "newstore Mac\ntmutil machinedirectory\n",
                "refused 4 Small\nrefused 2 NoStore\n",
                Status::DoneRefused,
            ),
            (
                "",
                "newstore Mac\n",
                "refused 4 Small\n",
                Status::DoneRefused,
            ),
        ],
    ),
    (
        64,
        7,
        &[
            (
                "",
                "newstore Mac\ntmutil machinedirectory\n",
                "refused 4 Small\nrefused 2 NoStore\n",
                Status::DoneRefused,
            ),
            (
                "",
                "newstore Mac\n",
                "refused 4 Small\n",
                Status::DoneRefused,
            ),
        ],
    ),
    (
        64,
        8,
        &[
            (
                "newstore Mac\n",
                "tmutil machinedirectory\n",
                "/Backups.backupdb/Mac\nok\n",
                Status::Done,
            ),
            (
                "",
                "newstore Mac\n",
                "refused 3 Already\n",
                Status::DoneRefused,
            ),
        ],
    ),
    // What does not fit is full. Of 64 blocks 60 are free, of which 59 may hold data.
    (
        64,
        64,
        &[
            (FORMAT_VOLUME, "", "", Status::Done),
            (
                "at 2009-03-02-090000\n",
                "fill /f 241664 0\nmkdir /a\n",
                "ok\nok\n",
                Status::Done,
            ),
        ],
    ),
    (
        64,
        64,
        &[
            (FORMAT_VOLUME, "", "", Status::Done),
            (
                "at 2009-03-02-090000\n",
                "fill /f 241665 0\n",
                "refused 15 Full 61 60\n",
                Status::DoneRefused,
            ),
        ],
    ),
    (
        64,
        64,
        &[
            (FORMAT_VOLUME, "", "", Status::Done),
            (
                "at 2009-03-02-090000\n",
                "fill /f 241664 0\nwrite /g x\nwrite /f x\n",
                "ok\nrefused 15 Full 2 1\nrefused 15 Full 2 1\n",
                Status::DoneRefused,
            ),
        ],
    ),
    (
        64,
        64,
        &[
            (FORMAT_VOLUME, "", "", Status::Done),
            (
                "at 2009-03-02-090000\n",
                "fill /f 241664 0\nrm /f\nwrite /g x\n",
                "ok\nok\nok\n",
                Status::Done,
            ),
        ],
    ),
    (
        64,
        64,
        &[
            (FORMAT_VOLUME, "", "", Status::Done),
            (
                "at 2009-03-02-090000\n",
                "write /f x\nappend /f y\nfill /g 237569 0\n",
                "ok\nok\nrefused 15 Full 60 59\n",
                Status::DoneRefused,
            ),
        ],
    ),
];
