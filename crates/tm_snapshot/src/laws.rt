//! What every crate above may rely on.
ghost use Rattle.tm_snapshot.specs.Growth.{BuiltMayGrow, GrownHaveRecords, GrownIsCompleted, GrownIsStored, NeedIsTold, PutsFit, PutsGrow};
ghost use Rattle.tm_snapshot.specs.Sizes.{CompletedIsSized};

use tm_nodes::{spellings_are_found, spellings_are_read_again};
use tm_store_records::{held_files, sizes_are_told, table_is_told, text_is_told};

/// What a backup built may join the graph, and the nodes can have records then.
pub fn built_may_grow()
    ensures joins { BuiltMayGrow }
    ensures records { GrownHaveRecords }
{
    spellings_are_found();
}

/// The records that a finished backup puts make the store with what was built.
pub fn puts_grow()
    ensures grow { PutsGrow }
    ensures completed { GrownIsCompleted }
    ensures stored { GrownIsStored }
{
    spellings_are_found();
    spellings_are_read_again();
}

/// A commit can put these records, and releases nothing.
pub fn puts_fit()
    ensures { PutsFit }
{
    spellings_are_found();
}

/// The blocks that the commit needs are told by the machine, the snapshots and the nodes.
pub fn need_is_told()
    ensures { NeedIsTold }
{
    spellings_are_found();
    text_is_told();
    table_is_told();
    puts_grow();
}

/// The sizes of the store that a finished backup makes are told by what was built, even where there
/// would be too many nodes.
pub fn completed_is_sized()
    ensures { CompletedIsSized }
{
    spellings_are_found();
    held_files();
    sizes_are_told();
}
