//! Touches, journal rows and lists of paths.
ghost use Rattle.std.specs.Prelude.{◌≡◌};

use std::marker::Model;
use tm_base::Path;

/// A folder that a line touched, and how.
#[derive(Drop)]
pub struct Touch {
    /// The folder.
    pub path: Path,
    /// 0 for the folder alone, 1 (MustScanSubDirs) for all beneath it too.
    pub flags: u8,
}

/// The touches of a line, in the order in which they draw numbers. Seen as their list.
#[derive(Drop)]
pub struct Touches {
    list: Vec<Touch>,
}

impl Model for Touches {
    ghost use Rattle.std.specs.Prelude.{List};
    ghost use Rattle.tm_tree.specs.declared.rows.Touch.{Touch};

    ghost Value = { List Touch };

    ghost view = { λ touches. touches.list.items };
}

impl Touches {
    /// The touches of a list. It takes no memory.
    pub fn of(list: Vec<Touch>) -> Touches
        ensures { result ≡ list.items }
    {
        Touches { list }
    }

    /// The touches, to read. It takes no memory.
    pub fn as_slice(&self) -> &[Touch]
        ensures { result.now ≡ self.now }
    {
        self.list.as_slice()
    }

    /// The touches as the list that they were made of. It takes no memory.
    pub fn into_list(self) -> Vec<Touch>
        ensures { result.items ≡ self }
    {
        let Touches { list } = self;
        list
    }
}

/// A row of the event journal: something changed in a folder.
#[derive(Drop)]
pub struct Row {
    /// Its number; rows have rising ids.
    pub id: u64,
    /// The folder.
    pub path: Path,
    /// MustScanSubDirs 1, UserDropped 2, KernelDropped 4: one of 0, 1, 3 and 5.
    pub flags: u8,
}

/// Rows of the journal. Seen as their list.
#[derive(Drop)]
pub struct RowList {
    list: Vec<Row>,
}

impl Model for RowList {
    ghost use Rattle.std.specs.Prelude.{List};
    ghost use Rattle.tm_tree.specs.declared.rows.Row.{Row};

    ghost Value = { List Row };

    ghost view = { λ rows. rows.list.items };
}

impl RowList {
    /// The rows of a list. It takes no memory.
    pub fn of(list: Vec<Row>) -> RowList
        ensures { result ≡ list.items }
    {
        RowList { list }
    }

    /// The rows, to read. It takes no memory.
    pub fn as_slice(&self) -> &[Row]
        ensures { result.now ≡ self.now }
    {
        self.list.as_slice()
    }

    /// The rows as the list that they were made of. It takes no memory.
    pub fn into_list(self) -> Vec<Row>
        ensures { result.items ≡ self }
    {
        let RowList { list } = self;
        list
    }
}

/// How far a journal has been read: its generation and the last id seen.
#[derive(Clone, Copy, Debug, PartialEq, Eq)]
pub struct Mark {
    /// Of the journal, from 1 to 2^62 - 1.
    pub generation: u64,
    /// The last id that was seen.
    pub cursor: u64,
}

/// Paths, each once, by rising path. Seen as their list.
#[derive(Drop)]
pub struct PathList {
    list: Vec<Path>,
}

impl Model for PathList {
    ghost use Rattle.std.specs.Prelude.{List, ℕ};

    ghost Value = { List (List (List ℕ)) };

    ghost view = { λ paths. paths.list.items };
}

impl PathList {
    /// The paths of a list. It takes no memory.
    pub fn of(list: Vec<Path>) -> PathList
        ensures { result ≡ list.items }
    {
        PathList { list }
    }

    /// The paths, to read. It takes no memory.
    pub fn as_slice(&self) -> &[Path]
        ensures { result.now ≡ self.now }
    {
        self.list.as_slice()
    }
}
