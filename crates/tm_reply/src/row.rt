//! The data lines of replies.
ghost use Rattle.std.specs.Prelude.{◌≡◌, ℕ, IfOk, string_bytes};
ghost use Rattle.tm_reply.specs.Rows.{row_text, machine_path, snapshot_path, in_progress_name};

use crate::words::{encode, encode_path, print_id, print_mode};
use std::alloc::{AllocError, Global};
use tm_base::{Moment, Name, Path};
use tm_world::Bytes;

/// The attributes that a listed item's line shows.
#[derive(Clone, Copy, Debug, PartialEq, Eq)]
pub struct Attributes {
    /// The mode, at most 4,095; printed in octal.
    pub mode: u16,
    /// The owner.
    pub uid: u32,
    /// The group.
    pub gid: u32,
    /// When the contents or the entries were changed last.
    pub modified: Moment,
    /// The number of extended attributes.
    pub extras: u64,
}

/// What a listed item's line calls the item.
#[derive(Drop)]
pub enum ListedName {
    /// Its path inside the volume: the item that was asked for.
    Path(Path),
    /// Its name: an entry of the folder that was asked for.
    Entry(Name),
}

/// What kind an item is.
#[derive(Clone, Copy, Debug, PartialEq, Eq)]
pub enum Kind {
    /// A folder.
    Folder,
    /// A file.
    File,
    /// A symbolic link.
    Link,
}

/// A data line of a reply (`docs/SCRIPT.md`, "Replies").
#[derive(Drop)]
pub enum ReplyRow {
    /// `folder MODE UID GID DATE E WORD`.
    Folder {
        /// The folder's attributes.
        attributes: Attributes,
        /// What it is called.
        name: ListedName,
    },
    /// `file MODE UID GID DATE E LENGTH STAMP WORD`.
    File {
        /// The file's attributes.
        attributes: Attributes,
        /// Its length in bytes.
        length: u64,
        /// Its stamp.
        stamp: u64,
        /// What it is called.
        name: ListedName,
    },
    /// `link MODE UID GID DATE E STAMP WORD TARGET`.
    Link {
        /// The link's attributes.
        attributes: Attributes,
        /// Its stamp.
        stamp: u64,
        /// What it is called.
        name: ListedName,
        /// Its target.
        target: Bytes,
    },
    /// `extra NAME VALUE`, or `extra NAME` where the value is empty.
    Extra {
        /// The attribute's name.
        name: Name,
        /// Its value.
        value: Bytes,
    },
    /// `bytes LENGTH WORD`, or `bytes 0` of an empty file.
    Contents(Bytes),
    /// `target WORD`.
    Target(Bytes),
    /// `gen files F folders D bytes B`.
    Generated {
        /// The number of files.
        files: u64,
        /// The number of folders.
        folders: u64,
        /// The sum of the files' lengths.
        bytes: u64,
    },
    /// `running L`.
    Running {
        /// The number of folders that are still to be walked.
        left: u64,
    },
    /// `finished DATE walked W`.
    Finished {
        /// The snapshot's date.
        date: Moment,
        /// The number of folders that were walked.
        walked: u64,
    },
    /// `/Backups.backupdb/MACHINE/DATE`.
    SnapshotPath {
        /// The machine's name.
        machine: Name,
        /// The snapshot's date.
        date: Moment,
    },
    /// `/Backups.backupdb/MACHINE`.
    MachineDirectory(Name),
    /// `[Excluded] P`.
    Excluded(Path),
    /// `[Included] P`.
    Included(Path),
    /// `unique BYTES`.
    Unique {
        /// The number of bytes.
        bytes: u64,
    },
    /// `removed PATH`.
    Removed {
        /// The machine's name.
        machine: Name,
        /// The removed snapshot's date.
        date: Moment,
    },
    /// `event ID FLAGS PATH`.
    Event {
        /// The event's number.
        id: u64,
        /// Its flags: 0, 1, 3 or 5.
        flags: u8,
        /// The folder.
        path: Path,
    },
    /// `uuid TEXT`.
    Uuid(u128),
    /// `machine MACHINE`.
    Machine(Name),
    /// `snapshot DATE`.
    Snapshot(Moment),
    /// `running DATE.inProgress`.
    InProgress(Moment),
    /// `latest DATE`.
    Latest(Moment),
    /// `volume NAME ID`.
    Volume {
        /// The volume's name.
        name: Name,
        /// Its id.
        id: u128,
    },
    /// `stat KIND label K links L`.
    Stat {
        /// What kind the item is.
        kind: Kind,
        /// The number of the backup that copied it first.
        label: u64,
        /// The number of its links.
        links: u64,
    },
    /// `df blocks T free F nodes N stored S snapshots C`.
    Df {
        /// The blocks of the store's image.
        blocks: u64,
        /// Those of them that are free.
        free: u64,
        /// The number of nodes.
        nodes: u64,
        /// The stored bytes.
        stored: u64,
        /// The number of snapshots.
        snapshots: u64,
    },
}

impl Attributes {
    ghost use Rattle.tm_reply.specs.Rows.{attributes_text};

    // MODE UID GID DATE E.
    #[tactic(auto, unfolding(crate::specs::Rows::attributes_text))]
    fn print(&self, alloc: Global) -> Result<String, AllocError>
        ensures { IfOk result (λ text. string_bytes text ≡ attributes_text self.now) }
    {
        let mode = print_mode(alloc, self.mode)?;
        let date = self.modified.print(alloc)?;
        let uid = self.uid;
        let gid = self.gid;
        let extras = self.extras;
        format!(in alloc; "{mode} {uid} {gid} {date} {extras}")
    }
}

impl ListedName {
    ghost use Rattle.tm_reply.specs.Rows.{printed_name};

    // The path, or the name.
    #[tactic(auto, unfolding(crate::specs::Rows::printed_name))]
    fn print(&self, alloc: Global) -> Result<String, AllocError>
        ensures { IfOk result (λ text. string_bytes text ≡ printed_name self.now) }
    {
        match self {
            ListedName::Path(path) => encode_path(alloc, path),
            ListedName::Entry(name) => encode(alloc, name.as_bytes()),
        }
    }
}

impl Kind {
    ghost use Rattle.tm_reply.specs.Rows.{kind_word};

    // The word for the kind.
    #[tactic(auto, unfolding(crate::specs::Rows::kind_word))]
    fn print(self) -> &'static str
        ensures { result.now ≡ kind_word self }
    {
        match self {
            Kind::Folder => "folder",
            Kind::File => "file",
            Kind::Link => "link",
        }
    }
}

// The path of a machine's folder.
#[tactic(auto, unfolding(crate::specs::Rows::machine_path))]
fn print_machine_path(alloc: Global, machine: &Name) -> Result<String, AllocError>
    ensures { IfOk result (λ text. string_bytes text ≡ machine_path machine.now) }
{
    let machine = encode(alloc, machine.as_bytes())?;
    format!(in alloc; "/Backups.backupdb/{machine}")
}

// The path of a snapshot.
#[tactic(auto, unfolding(crate::specs::Rows::snapshot_path))]
fn print_snapshot_path(alloc: Global, machine: &Name, date: Moment) -> Result<String, AllocError>
    ensures { IfOk result (λ text. string_bytes text ≡ snapshot_path machine.now date) }
{
    let machine = print_machine_path(alloc, machine)?;
    let date = date.print(alloc)?;
    format!(in alloc; "{machine}/{date}")
}

// The name of a snapshot that is not finished.
#[tactic(auto, unfolding(crate::specs::Rows::in_progress_name))]
fn print_in_progress(alloc: Global, date: Moment) -> Result<String, AllocError>
    ensures { IfOk result (λ text. string_bytes text ≡ in_progress_name date) }
{
    let date = date.print(alloc)?;
    format!(in alloc; "{date}.inProgress")
}

impl ReplyRow {
    ghost use Rattle.tm_reply.specs.Rows.{row_text};

    /// The text of the line, with its end; only want of memory can refuse it.
    #[tactic(auto, unfolding(crate::specs::Rows::row_text))]
    pub fn print(&self, alloc: Global) -> Result<String, AllocError>
        ensures { IfOk result (λ text. string_bytes text ≡ row_text self.now) }
    {
        match self {
            ReplyRow::Folder { attributes, name } => {
                let head = attributes.print(alloc)?;
                let name = name.print(alloc)?;
                format!(in alloc; "folder {head} {name}\n")
            }
            ReplyRow::File {
                attributes,
                length,
                stamp,
                name,
            } => {
                let head = attributes.print(alloc)?;
                let name = name.print(alloc)?;
                format!(in alloc; "file {head} {length} {stamp} {name}\n")
            }
            ReplyRow::Link {
                attributes,
                stamp,
                name,
                target,
            } => {
                let head = attributes.print(alloc)?;
                let name = name.print(alloc)?;
                let target = encode(alloc, target.as_slice())?;
                format!(in alloc; "link {head} {stamp} {name} {target}\n")
            }
            ReplyRow::Extra { name, value } => print_extra(alloc, name, value),
            ReplyRow::Contents(bytes) => print_contents(alloc, bytes),
            ReplyRow::Target(target) => {
                let target = encode(alloc, target.as_slice())?;
                format!(in alloc; "target {target}\n")
            }
            ReplyRow::Generated {
                files,
                folders,
                bytes,
            } => format!(in alloc; "gen files {files} folders {folders} bytes {bytes}\n"),
            ReplyRow::Running { left } => format!(in alloc; "running {left}\n"),
            ReplyRow::Finished { date, walked } => {
                let date = date.print(alloc)?;
                format!(in alloc; "finished {date} walked {walked}\n")
            }
            ReplyRow::SnapshotPath { machine, date } => {
                let path = print_snapshot_path(alloc, machine, *date)?;
                format!(in alloc; "{path}\n")
            }
            ReplyRow::MachineDirectory(machine) => {
                let path = print_machine_path(alloc, machine)?;
                format!(in alloc; "{path}\n")
            }
            ReplyRow::Excluded(path) => {
                let path = encode_path(alloc, path)?;
                format!(in alloc; "[Excluded] {path}\n")
            }
            ReplyRow::Included(path) => {
                let path = encode_path(alloc, path)?;
                format!(in alloc; "[Included] {path}\n")
            }
            ReplyRow::Unique { bytes } => format!(in alloc; "unique {bytes}\n"),
            ReplyRow::Removed { machine, date } => {
                let path = print_snapshot_path(alloc, machine, *date)?;
                format!(in alloc; "removed {path}\n")
            }
            ReplyRow::Event { id, flags, path } => {
                let path = encode_path(alloc, path)?;
                format!(in alloc; "event {id} {flags} {path}\n")
            }
            ReplyRow::Uuid(id) => {
                let id = print_id(alloc, *id)?;
                format!(in alloc; "uuid {id}\n")
            }
            ReplyRow::Machine(name) => {
                let name = encode(alloc, name.as_bytes())?;
                format!(in alloc; "machine {name}\n")
            }
            ReplyRow::Snapshot(date) => {
                let date = date.print(alloc)?;
                format!(in alloc; "snapshot {date}\n")
            }
            ReplyRow::InProgress(date) => {
                let name = print_in_progress(alloc, *date)?;
                format!(in alloc; "running {name}\n")
            }
            ReplyRow::Latest(date) => {
                let date = date.print(alloc)?;
                format!(in alloc; "latest {date}\n")
            }
            ReplyRow::Volume { name, id } => {
                let name = encode(alloc, name.as_bytes())?;
                let id = print_id(alloc, *id)?;
                format!(in alloc; "volume {name} {id}\n")
            }
            ReplyRow::Stat { kind, label, links } => {
                let kind = kind.print();
                format!(in alloc; "stat {kind} label {label} links {links}\n")
            }
            ReplyRow::Df {
                blocks,
                free,
                nodes,
                stored,
                snapshots,
            } => print_df(alloc, *blocks, *free, *nodes, *stored, *snapshots),
        }
    }
}

// `extra NAME VALUE`, or `extra NAME` where the value is empty.
#[tactic(auto, unfolding(crate::specs::Rows::row_text))]
fn print_extra(alloc: Global, name: &Name, value: &Bytes) -> Result<String, AllocError>
    ensures { IfOk result (λ text. string_bytes text ≡ row_text (ReplyRow.Extra name.now value.now)) }
{
    let name = encode(alloc, name.as_bytes())?;
    if value.as_slice().is_empty() {
        return format!(in alloc; "extra {name}\n");
    }
    let value = encode(alloc, value.as_slice())?;
    format!(in alloc; "extra {name} {value}\n")
}

// `bytes LENGTH WORD`, or `bytes 0` where there is none.
#[tactic(auto, unfolding(crate::specs::Rows::row_text))]
fn print_contents(alloc: Global, bytes: &Bytes) -> Result<String, AllocError>
    ensures { IfOk result (λ text. string_bytes text ≡ row_text (ReplyRow.Contents bytes.now)) }
{
    if bytes.as_slice().is_empty() {
        return String::from_str(alloc, "bytes 0\n");
    }
    let length = bytes.as_slice().len();
    let word = encode(alloc, bytes.as_slice())?;
    format!(in alloc; "bytes {length} {word}\n")
}

// `df blocks T free F nodes N stored S snapshots C`.
#[tactic(auto, unfolding(crate::specs::Rows::row_text))]
fn print_df(
    alloc: Global,
    blocks: u64,
    free: u64,
    nodes: u64,
    stored: u64,
    snapshots: u64,
) -> Result<String, AllocError>
    ensures { IfOk result (λ text. string_bytes text ≡ row_text (ReplyRow.Df blocks free nodes stored snapshots)) }
{
    format!(in alloc;
        "df blocks {blocks} free {free} nodes {nodes} stored {stored} snapshots {snapshots}\n"
    )
}
