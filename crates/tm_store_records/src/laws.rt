//! What every crate above may rely on.
ghost use Rattle.tm_store_records.specs.Laws.{DataIsTold, GoodIsStore, HeldFiles, HeldIsStore, HeldLengths, HeldReads, HeldSizes, OneStoreReads, SizesAreTold, TableIsTold, TextIsTold};

use tm_identity::{stored_is_counted, sums_are_counted};
use tm_image::{blocks_are_shared, readings_are_one, standing_is_read};
use tm_nodes::spellings_are_found;

/// Whatever a stop leaves of the disk on which a store stands reads as that store.
pub fn held_reads()
    ensures { HeldReads }
{
    standing_is_read();
}

/// An image reads as at most one store.
pub fn one_store_reads()
    ensures { OneStoreReads }
{
    readings_are_one();
}

/// Records that keep the rules are a store: each identity has one node, and links are exact.
pub fn good_is_store()
    ensures { GoodIsStore }
{
    spellings_are_found();
}

/// The nodes of a store in memory are a store, with files as long as their nodes say.
pub fn held_is_store()
    ensures store { HeldIsStore }
    ensures lengths { HeldLengths }
{
    good_is_store();
    held_files();
}

/// The bytes of a node of a store in memory are as many as the node says.
pub fn held_files()
    ensures { HeldFiles }
{
    spellings_are_found();
}

/// The length of the table's text is told by what the records stand for.
pub fn text_is_told()
    ensures { TextIsTold }
{
    spellings_are_found();
}

/// The number of blocks of data is told by what the records stand for.
pub fn data_is_told()
    ensures { DataIsTold }
{
    spellings_are_found();
}

/// The number of blocks of the table of a store in memory is told by its machine, its snapshots and
/// its nodes.
pub fn table_is_told()
    ensures { TableIsTold }
{
    text_is_told();
}

/// A store over a graph, even one that is only planned, has the sizes of its snapshots and nodes.
pub fn sizes_are_told()
    ensures { SizesAreTold }
{
    sums_are_counted();
    stored_is_counted();
}

/// A store in memory has the sizes of the store that it is.
pub fn held_sizes()
    ensures { HeldSizes }
{
    held_is_store();
    table_is_told();
    data_is_told();
    sizes_are_told();
    blocks_are_shared();
}
