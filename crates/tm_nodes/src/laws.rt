//! What every crate above may rely on (`docs/RECORDS.md`).
ghost use Rattle.std.specs.Prelude.{ℕ};
ghost use Rattle.tm_base.specs.IsName.{IsName};
ghost use Rattle.tm_nodes.specs.Headers.{volume_text, machine_text, snapshot_text, IsVolumeHead, IsSnapshotRow};
ghost use Rattle.tm_nodes.specs.Items.{item_text, IsItemOfSize};
ghost use Rattle.tm_nodes.specs.Laws.{FindsSpelled, HasOneMeaning, IsReadAgain};
ghost use Rattle.tm_nodes.specs.Nodes.{node_text, IsNodeOfSize};
ghost use Rattle.tm_nodes.specs.Paths.{paths_text, ArePaths};
ghost use Rattle.tm_nodes.specs.Records.{item_of, node_of, volume_of, machine_of, snapshot_of, paths_of, rows_of};
ghost use Rattle.tm_nodes.specs.Rows.{rows_text, AreRows};

/// What is found in bytes is the record that they spell, and every record that they spell.
pub fn spellings_are_found()
    ensures items { (size : ℕ) → FindsSpelled (λ meta. item_of meta size) item_text (IsItemOfSize size) }
    ensures nodes { (size : ℕ) → FindsSpelled (λ meta. node_of meta size) node_text (IsNodeOfSize size) }
    ensures volumes { FindsSpelled volume_of volume_text IsVolumeHead }
    ensures machines { FindsSpelled machine_of machine_text IsName }
    ensures snapshots { FindsSpelled snapshot_of snapshot_text IsSnapshotRow }
    ensures paths { FindsSpelled paths_of paths_text ArePaths }
    ensures rows { FindsSpelled rows_of rows_text AreRows }
{}

/// Records with equal spellings are equal; of files, where they have as many bytes.
pub fn spellings_have_one_meaning()
    ensures items { (size : ℕ) → HasOneMeaning item_text (IsItemOfSize size) }
    ensures nodes { (size : ℕ) → HasOneMeaning node_text (IsNodeOfSize size) }
    ensures volumes { HasOneMeaning volume_text IsVolumeHead }
    ensures machines { HasOneMeaning machine_text IsName }
    ensures snapshots { HasOneMeaning snapshot_text IsSnapshotRow }
    ensures paths { HasOneMeaning paths_text ArePaths }
    ensures rows { HasOneMeaning rows_text AreRows }
{}

/// What is written of a record that keeps the rules is read as that record again.
pub fn spellings_are_read_again()
    ensures items { (size : ℕ) → IsReadAgain (λ meta. item_of meta size) item_text (IsItemOfSize size) }
    ensures nodes { (size : ℕ) → IsReadAgain (λ meta. node_of meta size) node_text (IsNodeOfSize size) }
    ensures volumes { IsReadAgain volume_of volume_text IsVolumeHead }
    ensures machines { IsReadAgain machine_of machine_text IsName }
    ensures snapshots { IsReadAgain snapshot_of snapshot_text IsSnapshotRow }
    ensures paths { IsReadAgain paths_of paths_text ArePaths }
    ensures rows { IsReadAgain rows_of rows_text AreRows }
{}
