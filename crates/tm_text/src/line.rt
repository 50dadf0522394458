//! The lines of a script.
use crate::place::{ItemAt, SnapshotAt, StorePath, Stored};
use std::alloc::{AllocError, Global};
use std::marker::Model;
use tm_base::{Moment, Name, Path};
use tm_world::Bytes;

/// A line of a script with its words decoded (`docs/SCRIPT.md`, "Lines").
#[derive(Drop)]
pub enum Line {
    /// `at DATE`.
    At(Moment),
    /// `newvolume NAME ID EVENTS`.
    NewVolume {
        /// The volume's name.
        name: Name,
        /// Its id.
        id: u128,
        /// The capacity of its journal in rows, 1 to 65,536.
        events: u32,
    },
    /// `newstore MACHINE`.
    NewStore(Name),
    /// `mkdir P`.
    Mkdir(Path),
    /// `write P TEXT`.
    Write {
        /// The file's path.
        path: Path,
        /// What it will hold, one byte or more.
        text: Bytes,
    },
    /// `append P TEXT`.
    Append {
        /// The file's path.
        path: Path,
        /// What is put at its end, one byte or more.
        text: Bytes,
    },
    /// `fill P LENGTH SEED`.
    Fill {
        /// The file's path.
        path: Path,
        /// The length that it will have, in bytes.
        length: u64,
        /// Which bytes it will hold.
        seed: u64,
    },
    /// `rm P`.
    Rm(Path),
    /// `rmdir P`.
    Rmdir(Path),
    /// `mv P Q`.
    Mv {
        /// Where the item stands.
        from: Path,
        /// Where it will stand.
        to: Path,
    },
    /// `ln P TARGET`.
    Ln {
        /// The link's path.
        path: Path,
        /// Its target, 1 to 1,023 bytes of UTF-8 without NUL.
        target: Bytes,
    },
    /// `chmod P MODE`.
    Chmod {
        /// The item's path.
        path: Path,
        /// Its mode, at most 4,095.
        mode: u16,
    },
    /// `chown P UID GID`.
    Chown {
        /// The item's path.
        path: Path,
        /// Its owner.
        uid: u32,
        /// Its group.
        gid: u32,
    },
    /// `setx P NAME VALUE`, of which VALUE may be left out.
    Setx {
        /// The item's path.
        path: Path,
        /// The attribute's name.
        name: Name,
        /// Its value, at most 4,096 bytes.
        value: Bytes,
    },
    /// `rmx P NAME`.
    Rmx {
        /// The item's path.
        path: Path,
        /// The attribute's name.
        name: Name,
    },
    /// `ls P`.
    Ls(Path),
    /// `cat P`.
    Cat(Path),
    /// `gen SEED COUNT`.
    Gen {
        /// Which tree is made.
        seed: u64,
        /// The number of its files.
        count: u64,
    },
    /// `tmutil startbackup`.
    StartBackup,
    /// `tmutil startbackup --block`.
    StartBackupBlock,
    /// `advance N`, of at least one step.
    Advance(u64),
    /// `tmutil stopbackup`.
    StopBackup,
    /// `tmutil listbackups`.
    ListBackups,
    /// `tmutil latestbackup`.
    LatestBackup,
    /// `tmutil machinedirectory`.
    MachineDirectory,
    /// `tmutil addexclusion P`.
    AddExclusion(Path),
    /// `tmutil addexclusion -p P`.
    AddFixedExclusion(Path),
    /// `tmutil removeexclusion P`.
    RemoveExclusion(Path),
    /// `tmutil removeexclusion -p P`.
    RemoveFixedExclusion(Path),
    /// `tmutil isexcluded P`.
    IsExcluded(Path),
    /// `tmutil uniquesize SP`.
    UniqueSize(Stored),
    /// `tmutil delete SP`.
    Delete(SnapshotAt),
    /// `tmutil restore SP P`.
    Restore {
        /// The stored item.
        item: ItemAt,
        /// Where it is restored to.
        to: Path,
    },
    /// `thin`.
    Thin,
    /// `fsevents since N`.
    FsEventsSince(u64),
    /// `fsevents uuid`.
    FsEventsUuid,
    /// `fsevents drop`.
    FsEventsDrop,
    /// `fsevents lose`.
    FsEventsLose,
    /// `store ls SP`.
    StoreLs(StorePath),
    /// `store cat SP`.
    StoreCat(ItemAt),
    /// `store stat SP`.
    StoreStat(ItemAt),
    /// `store df`.
    StoreDf,
}

/// The lines of a script, in order, without those that are skipped. Seen as their list.
#[derive(Drop)]
pub struct Lines {
    lines: Vec<Line>,
}

impl Model for Lines {
    ghost use Rattle.std.specs.Prelude.{List};
    ghost use Rattle.tm_text.specs.declared.line.Line.{Line};

    ghost Value = { List Line };

    ghost view = { λ l. l.lines.items };
}

impl Lines {
    ghost use Rattle.std.specs.Prelude.{◌≡◌, [], ◌∷◌, ◌++◌, OnOk, OnErr};

    /// No line. It takes no memory.
    pub fn new(alloc: Global) -> Lines
        ensures { result ≡ [] }
    {
        Lines {
            lines: Vec::new(alloc),
        }
    }

    /// Puts a line at the end; where memory is refused, the lines stay as they were.
    pub fn push(&mut self, line: Line) -> Result<(), AllocError>
        ensures ok { OnOk result (self.new ≡ self.old ++ line ∷ []) }
        ensures err { OnErr result (self.new ≡ self.old) }
    {
        self.lines.push(line)?;
        Ok(())
    }

    /// The lines, to read. It takes no memory.
    pub fn as_slice(&self) -> &[Line]
        ensures { result.now ≡ self.now }
    {
        self.lines.as_slice()
    }
}
