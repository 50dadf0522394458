//! The lines that change a volume.
use tm_base::{Name, Path};
use tm_world::Bytes;

/// A change of a volume (`docs/SCRIPT.md` has the line of each).
#[derive(Drop)]
pub enum Change {
    /// Makes a folder.
    Mkdir {
        path: Path,
    },
    /// Makes a file with these bytes, or gives them to the file there.
    Write {
        path: Path,
        bytes: Bytes,
    },
    /// Adds these bytes to the end of a file, which is made where nothing stands.
    Append {
        path: Path,
        bytes: Bytes,
    },
    /// Writes so many bytes, byte `i` being `seed + 7 i + i / 256` modulo 256.
    Fill {
        path: Path,
        length: u64,
        seed: u64,
    },
    /// Removes a file or link.
    Rm {
        path: Path,
    },
    /// Removes an empty folder.
    Rmdir {
        path: Path,
    },
    /// Moves an item, with all beneath it, to a path where nothing stands.
    Mv {
        path: Path,
        to: Path,
    },
    /// Makes a symbolic link.
    Ln {
        path: Path,
        target: Bytes,
    },
    /// Sets the permission bits.
    Chmod {
        path: Path,
        mode: u16,
    },
    /// Sets the owners.
    Chown {
        path: Path,
        uid: u32,
        gid: u32,
    },
    /// Sets an extra attribute.
    Setx {
        path: Path,
        name: Name,
        value: Bytes,
    },
    /// Removes an extra attribute.
    Rmx {
        path: Path,
        name: Name,
    },
    /// Excludes a path from backups.
    Fix {
        path: Path,
    },
    /// Excludes a path no longer.
    Unfix {
        path: Path,
    },
}
