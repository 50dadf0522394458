//! Each line with each refusal that it can have in one run.

use tm_run_testing::{FORMAT_BOTH, FORMAT_VOLUME};

/// The lines that format images, and others after them.
type Before = (&'static str, &'static str);

/// Nothing is formatted.
const NOTHING: Before = ("", "");

/// A volume with a folder, two files and a link, and no store.
const ITEMS: Before = (
    FORMAT_VOLUME,
    "mkdir /a\nwrite /a/g x\nwrite /f x\nln /l f\n",
);

/// A volume with nothing in it.
const VOLUME: Before = (FORMAT_VOLUME, "");

/// A store without a snapshot.
const STORE: Before = ("", "newstore Mac\n");

/// A volume and a store with a snapshot of it.
const SNAPSHOT: Before = (FORMAT_BOTH, "write /f x\ntmutil startbackup --block\n");

/// The lines before, lines of which each is refused after them, and the text of that refusal.
pub(crate) const REFUSALS: [(Before, &[&str], &str); 23] = [
    // Before anything is formatted.
    (
        NOTHING,
        &[
            "mkdir /f",
            "write /f x",
            "append /f x",
            "fill /f 1 1",
            "rm /f",
            "rmdir /f",
            "mv /f /new",
            "ln /f x",
            "chmod /f 600",
            "chown /f 1 1",
            "setx /f n v",
            "rmx /f n",
            "ls /f",
            "cat /f",
            "tmutil startbackup --block",
        ],
        "refused 1 NoVolume\n",
    ),
    (
        NOTHING,
        &[
            "tmutil listbackups",
            "tmutil latestbackup",
            "tmutil machinedirectory",
            "store ls /Backups.backupdb",
            "store cat /Backups.backupdb/Mac/Latest/HD/f",
        ],
        "refused 2 NoStore\n",
    ),
    (
        NOTHING,
        &["newvolume HD 6ba7b810-9dad-11d1-80b4-00c04fd430c8 1000"],
        "refused 19 NoMoment\n",
    ),
    // With a volume alone.
    (
        ITEMS,
        &["tmutil startbackup --block"],
        "refused 2 NoStore\n",
    ),
    (
        ITEMS,
        &["newvolume HD 6ba7b810-9dad-11d1-80b4-00c04fd430c8 1000"],
        "refused 3 Already\n",
    ),
    (
        STORE,
        &["newstore Mac", "newstore PC"],
        "refused 3 Already\n",
    ),
    // A way that leads nowhere.
    (
        ITEMS,
        &[
            "mkdir /q/x",
            "write /q/x x",
            "append /q/x x",
            "fill /q/x 1 1",
            "rm /q",
            "rmdir /q",
            "mv /q /new",
            "ln /q/x x",
            "chmod /q 600",
            "chown /q 1 1",
            "setx /q n v",
            "rmx /q n",
            "ls /q",
            "cat /q",
            "mv /f /q/x",
        ],
        "refused 5 NotFound\n",
    ),
    (
        SNAPSHOT,
        &[
            "store ls /Backups.backupdb/Mac/Latest/HD/q",
            "store cat /Backups.backupdb/Mac/Latest/HD/q",
        ],
        "refused 5 NotFound\n",
    ),
    // Something stands there.
    (
        ITEMS,
        &[
            "mkdir /f",
            "mkdir /",
            "ln /a x",
            "mv /f /l",
            "mv /a /f",
            "write /l x",
            "append /l x",
            "fill /l 1 1",
        ],
        "refused 6 Exists\n",
    ),
    // A way through a file or a link.
    (
        ITEMS,
        &[
            "mkdir /f/x",
            "write /f/x x",
            "append /f/x x",
            "fill /f/x 1 1",
            "rm /f/x",
            "rmdir /f/x",
            "mv /f/x /new",
            "ln /f/x x",
            "chmod /f/x 600",
            "chown /f/x 1 1",
            "setx /f/x n v",
            "rmx /f/x n",
            "ls /f/x",
            "cat /f/x",
            "ls /l/x",
            "rmdir /f",
            "rmdir /l",
            "mv /l /f/x",
        ],
        "refused 7 NotFolder\n",
    ),
    (
        SNAPSHOT,
        &[
            "store ls /Backups.backupdb/Mac/Latest/HD/f/x",
            "store cat /Backups.backupdb/Mac/Latest/HD/f/x",
        ],
        "refused 7 NotFolder\n",
    ),
    // A folder where a file or link is needed.
    (
        ITEMS,
        &[
            "write /a x",
            "append /a x",
            "fill /a 1 1",
            "rm /a",
            "rm /",
            "cat /a",
            "cat /",
        ],
        "refused 8 IsFolder\n",
    ),
    (
        SNAPSHOT,
        &["store cat /Backups.backupdb/Mac/Latest/HD"],
        "refused 8 IsFolder\n",
    ),
    // A folder that holds something.
    (ITEMS, &["rmdir /a"], "refused 9 NotEmpty\n"),
    // A folder beneath itself.
    (ITEMS, &["mv /a /a/b", "mv / /new"], "refused 10 IntoSelf\n"),
    // A file of more than 16 MiB.
    (
        ITEMS,
        &["fill /f 16777217 0"],
        "refused 12 TooLong 16777217\n",
    ),
    // The root, with nothing in it.
    (VOLUME, &["rmdir /"], "refused 14 RootItem\n"),
    // A date that is not later than the last.
    (
        SNAPSHOT,
        &["tmutil startbackup --block"],
        "refused 18 DateNotLater 2009-03-02-090000\n",
    ),
    // The clock goes back.
    (
        SNAPSHOT,
        &["at 2009-03-02-085959"],
        "refused 20 ClockBack 2009-03-02-090000\n",
    ),
    // No snapshot is named.
    (
        STORE,
        &[
            "tmutil latestbackup",
            "store ls /Backups.backupdb/Mac/Latest",
            "store ls /Backups.backupdb/Mac/Latest/HD",
            "store cat /Backups.backupdb/Mac/Latest/HD/f",
        ],
        "refused 21 NoSnapshot\n",
    ),
    (
        SNAPSHOT,
        &[
            "store ls /Backups.backupdb/PC",
            "store ls /Backups.backupdb/PC/Latest",
            "store ls /Backups.backupdb/Mac/2009-03-02-090001",
            "store ls /Backups.backupdb/Mac/Latest/Other",
            "store cat /Backups.backupdb/Mac/Latest/Other/f",
        ],
        "refused 21 NoSnapshot\n",
    ),
    // An extra attribute that the item lacks.
    (ITEMS, &["rmx /f n"], "refused 24 NoAttribute\n"),
    // Lines that are not built yet, before all other refusals.
    (
        NOTHING,
        &[
            "setx / com.apple.metadata:com_apple_backup_excludeItem v",
            "rmx /q com.apple.metadata:com_apple_backup_excludeItem",
            "gen 1 3",
            "tmutil startbackup",
            "advance 1",
            "tmutil stopbackup",
            "tmutil addexclusion /a",
            "tmutil addexclusion -p /a",
            "tmutil removeexclusion /a",
            "tmutil removeexclusion -p /a",
            "tmutil isexcluded /a",
            "tmutil uniquesize /Backups.backupdb/Mac/Latest",
            "tmutil delete /Backups.backupdb/Mac/Latest",
            "tmutil restore /Backups.backupdb/Mac/Latest/HD/f /g",
            "thin",
            "fsevents since 0",
            "fsevents uuid",
            "fsevents drop",
            "fsevents lose",
        ],
        "refused 27 NotBuilt\n",
    ),
];
