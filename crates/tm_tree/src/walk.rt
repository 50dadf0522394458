//! Where a walk down a path ends.

/// Where the walk down a path, name by name from the root, ends.
#[derive(Clone, Copy, Debug, PartialEq, Eq)]
pub enum Way {
    /// It meets a folder without the next name.
    Nowhere,
    /// It goes through a file or link.
    Blocked,
    /// It comes to a folder.
    AtFolder,
    /// It comes to a file.
    AtFile,
    /// It comes to a link.
    AtLink,
}
