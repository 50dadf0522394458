//! Scripts with what they say and how they end.
use tm_run::Status;
use tm_run_testing::{FORMAT_BOTH, FORMAT_VOLUME, Run};

/// A file, a backup, and the file from the snapshot.
pub(crate) const FIRST: &str = "\
write /f hello\n\
tmutil startbackup --block\n\
store cat /Backups.backupdb/Mac/2009-03-02-090000/HD/f\n";

/// What the first script says.
pub(crate) const FIRST_SAYS: &str = "\
ok\n\
finished 2009-03-02-090000 walked 1\n\
ok\n\
bytes 5 hello\n\
ok\n";

/// Scripts that each run over a new pair.
pub(crate) const SCRIPTS: [Run; 18] = [
    // A file, a backup, and the file from the snapshot.
    (FORMAT_BOTH, FIRST, FIRST_SAYS, Status::Done),
    // An empty script says nothing.
    ("", "", "", Status::Done),
    // Blanks and notes have no reply.
    (
        "",
        "\
\n\
   \n\
# a note\n\
  # another\n",
        "",
        Status::Done,
    ),
    // Without a backup there is no snapshot.
    (
        FORMAT_BOTH,
        "\
write /f hello\n\
store cat /Backups.backupdb/Mac/2009-03-02-090000/HD/f\n",
        "\
ok\n\
refused 21 NoSnapshot\n",
        Status::DoneRefused,
    ),
    // A file that was written after the backup is not in its snapshot.
    (
        FORMAT_BOTH,
        "\
tmutil startbackup --block\n\
write /f hello\n\
store cat /Backups.backupdb/Mac/Latest/HD/f\n",
        "\
finished 2009-03-02-090000 walked 1\n\
ok\n\
ok\n\
refused 5 NotFound\n",
        Status::DoneRefused,
    ),
    // A snapshot of what didn't change is the same folder under one root more.
    (
        FORMAT_BOTH,
        "\
write /f hello\n\
tmutil startbackup --block\n\
at 2009-03-02-100000\n\
tmutil startbackup --block\n\
store stat /Backups.backupdb/Mac/Latest/HD\n\
store stat /Backups.backupdb/Mac/Latest/HD/none\n",
        "\
ok\n\
finished 2009-03-02-090000 walked 1\n\
ok\n\
ok\n\
finished 2009-03-02-100000 walked 1\n\
ok\n\
stat folder label 1 links 2\n\
ok\n\
refused 5 NotFound\n",
        Status::DoneRefused,
    ),
    // A change in a folder makes each folder above it anew, and shares the rest.
    (
        FORMAT_BOTH,
        "\
mkdir /a\n\
mkdir /a/b\n\
mkdir /a/b/c\n\
write /a/b/c/f one\n\
write /a/s two\n\
tmutil startbackup --block\n\
at 2009-03-02-100000\n\
write /a/b/c/f three\n\
tmutil startbackup --block\n\
store stat /Backups.backupdb/Mac/Latest/HD\n\
store stat /Backups.backupdb/Mac/Latest/HD/a/b/c\n\
store stat /Backups.backupdb/Mac/Latest/HD/a/s\n\
store df\n",
        "\
ok\n\
ok\n\
ok\n\
ok\n\
ok\n\
finished 2009-03-02-090000 walked 4\n\
ok\n\
ok\n\
ok\n\
finished 2009-03-02-100000 walked 4\n\
ok\n\
stat folder label 2 links 1\n\
ok\n\
stat folder label 2 links 1\n\
ok\n\
stat file label 1 links 2\n\
ok\n\
df blocks 64 free 57 nodes 11 stored 11 snapshots 2\n\
ok\n",
        Status::Done,
    ),
    // What a file was at the backup stays in its snapshot.
    (
        FORMAT_BOTH,
        "\
write /f hello\n\
tmutil startbackup --block\n\
write /f later\n\
store cat /Backups.backupdb/Mac/Latest/HD/f\n\
cat /f\n",
        "\
ok\n\
finished 2009-03-02-090000 walked 1\n\
ok\n\
ok\n\
bytes 5 hello\n\
ok\n\
bytes 5 later\n\
ok\n",
        Status::Done,
    ),
    // The snapshot of an empty volume is its root.
    (
        FORMAT_BOTH,
        "\
tmutil startbackup --block\n\
store ls /Backups.backupdb/Mac/Latest/HD\n",
        "\
finished 2009-03-02-090000 walked 1\n\
ok\n\
folder 755 501 20 2009-03-02-090000 0 /\n\
ok\n",
        Status::Done,
    ),
    // A second backup needs a later date.
    (
        FORMAT_BOTH,
        "\
tmutil startbackup --block\n\
tmutil startbackup --block\n",
        "\
finished 2009-03-02-090000 walked 1\n\
ok\n\
refused 18 DateNotLater 2009-03-02-090000\n",
        Status::DoneRefused,
    ),
    // The clock does not go back.
    (
        "",
        "\
at 2009-03-02-090000\n\
at 2009-03-02-080000\n",
        "\
ok\n\
refused 20 ClockBack 2009-03-02-090000\n",
        Status::DoneRefused,
    ),
    // A bad line ends the run before its first line.
    (
        "",
        "\
at 2009-03-02-090000\n\
frob\n",
        "script line 2\n",
        Status::Script { line: 2 },
    ),
    // What is refused on the root and by lengths.
    (
        FORMAT_BOTH,
        "\
rmdir /\n\
mkdir /\n\
rm /\n\
mkdir /a\n\
mv /a /a/b\n\
mv / /x\n\
rm /q\n\
fill /f 16777217 0\n",
        "\
refused 14 RootItem\n\
refused 6 Exists\n\
refused 8 IsFolder\n\
ok\n\
refused 10 IntoSelf\n\
refused 10 IntoSelf\n\
refused 5 NotFound\n\
refused 12 TooLong 16777217\n",
        Status::DoneRefused,
    ),
    // Every line that changes items, and what it leaves.
    (
        FORMAT_BOTH,
        "\
mkdir /a\n\
write /a/f one\n\
append /a/f two\n\
fill /g 4 250\n\
ln /l a/f\n\
chmod /a/f 600\n\
chown /g 0 4294967295\n\
setx /l color red\n\
setx /l empty\n\
rmx /l color\n\
mv /g /a/h\n\
ls /\n\
ls /a\n\
ls /a/f\n\
ls /l\n\
cat /a/f\n\
cat /a/h\n\
cat /l\n\
rm /l\n\
rm /a/f\n\
rm /a/h\n\
rmdir /a\n\
ls /\n",
        "\
ok\n\
ok\n\
ok\n\
ok\n\
ok\n\
ok\n\
ok\n\
ok\n\
ok\n\
ok\n\
ok\n\
folder 755 501 20 2009-03-02-090000 0 /\n\
folder 755 501 20 2009-03-02-090000 0 a\n\
link 755 501 20 2009-03-02-090000 1 19 l a/f\n\
ok\n\
folder 755 501 20 2009-03-02-090000 0 /a\n\
file 600 501 20 2009-03-02-090000 0 6 11 f\n\
file 644 0 4294967295 2009-03-02-090000 0 4 13 h\n\
ok\n\
file 600 501 20 2009-03-02-090000 0 6 11 /a/f\n\
ok\n\
link 755 501 20 2009-03-02-090000 1 19 /l a/f\n\
extra empty\n\
ok\n\
bytes 6 onetwo\n\
ok\n\
bytes 4 %FA%01%08%0F\n\
ok\n\
target a/f\n\
ok\n\
ok\n\
ok\n\
ok\n\
ok\n\
folder 755 501 20 2009-03-02-090000 0 /\n\
ok\n",
        Status::Done,
    ),
    // Dates: contents set a file's own, entries their folder's, attributes none.
    (
        FORMAT_BOTH,
        "\
mkdir /a\n\
write /a/f one\n\
at 2009-03-02-100000\n\
chmod /a/f 600\n\
ls /a/f\n\
write /a/f two\n\
ls /a\n\
at 2009-03-02-110000\n\
mv /a/f /g\n\
ls /\n\
ls /a\n",
        "\
ok\n\
ok\n\
ok\n\
ok\n\
file 600 501 20 2009-03-02-090000 0 3 5 /a/f\n\
ok\n\
ok\n\
folder 755 501 20 2009-03-02-090000 0 /a\n\
file 600 501 20 2009-03-02-100000 0 3 7 f\n\
ok\n\
ok\n\
ok\n\
folder 755 501 20 2009-03-02-110000 0 /\n\
folder 755 501 20 2009-03-02-110000 0 a\n\
file 600 501 20 2009-03-02-100000 0 3 7 g\n\
ok\n\
folder 755 501 20 2009-03-02-110000 0 /a\n\
ok\n",
        Status::Done,
    ),
    // The lines that look at the store.
    (
        FORMAT_BOTH,
        "\
mkdir /a\n\
write /a/f one\n\
ln /l x\n\
tmutil listbackups\n\
tmutil latestbackup\n\
tmutil machinedirectory\n\
store ls /Backups.backupdb\n\
store ls /Backups.backupdb/Mac\n\
tmutil startbackup --block\n\
at 2009-03-02-100000\n\
write /a/f three\n\
tmutil startbackup --block\n\
tmutil listbackups\n\
tmutil latestbackup\n\
store ls /Backups.backupdb/Mac\n\
store ls /Backups.backupdb/Mac/Latest\n\
store ls /Backups.backupdb/Mac/2009-03-02-090000/HD\n\
store ls /Backups.backupdb/Mac/2009-03-02-090000/HD/a\n\
store cat /Backups.backupdb/Mac/2009-03-02-090000/HD/a/f\n\
store cat /Backups.backupdb/Mac/Latest/HD/a/f\n\
store cat /Backups.backupdb/Mac/Latest/HD/l\n",
        "\
ok\n\
ok\n\
ok\n\
ok\n\
refused 21 NoSnapshot\n\
/Backups.backupdb/Mac\n\
ok\n\
machine Mac\n\
ok\n\
ok\n\
finished 2009-03-02-090000 walked 2\n\
ok\n\
ok\n\
ok\n\
finished 2009-03-02-100000 walked 2\n\
ok\n\
/Backups.backupdb/Mac/2009-03-02-090000\n\
/Backups.backupdb/Mac/2009-03-02-100000\n\
ok\n\
/Backups.backupdb/Mac/2009-03-02-100000\n\
ok\n\
snapshot 2009-03-02-090000\n\
snapshot 2009-03-02-100000\n\
latest 2009-03-02-100000\n\
ok\n\
volume HD 6ba7b810-9dad-11d1-80b4-00c04fd430c8\n\
ok\n\
folder 755 501 20 2009-03-02-090000 0 /\n\
folder 755 501 20 2009-03-02-090000 0 a\n\
link 755 501 20 2009-03-02-090000 0 5 l x\n\
ok\n\
folder 755 501 20 2009-03-02-090000 0 /a\n\
file 644 501 20 2009-03-02-090000 0 3 3 f\n\
ok\n\
bytes 3 one\n\
ok\n\
bytes 5 three\n\
ok\n\
target x\n\
ok\n",
        Status::DoneRefused,
    ),
    // An item has 16 extra attributes, and a value of one may still change.
    (
        FORMAT_VOLUME,
        "\
setx / n00 v\n\
setx / n01 v\n\
setx / n02 v\n\
setx / n03 v\n\
setx / n04 v\n\
setx / n05 v\n\
setx / n06 v\n\
setx / n07 v\n\
setx / n08 v\n\
setx / n09 v\n\
setx / n10 v\n\
setx / n11 v\n\
setx / n12 v\n\
setx / n13 v\n\
setx / n14 v\n\
setx / n15 v\n\
setx / n15 w\n\
setx / n16 v\n",
        "\
ok\n\
ok\n\
ok\n\
ok\n\
ok\n\
ok\n\
ok\n\
ok\n\
ok\n\
ok\n\
ok\n\
ok\n\
ok\n\
ok\n\
ok\n\
ok\n\
ok\n\
refused 13 TooMany 17\n",
        Status::DoneRefused,
    ),
    // A file has 16 MiB.
    (
        FORMAT_VOLUME,
        "\
fill /f 16777216 0\n\
append /f x\n",
        "\
ok\n\
refused 12 TooLong 16777217\n",
        Status::DoneRefused,
    ),
];
