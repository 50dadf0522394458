//! A node without its number.
ghost use Rattle.std.specs.Prelude.{◌≡◌, ◌<◌, ◌+◌, ◌-◌, ◌≤◌, ◌^◌};
ghost use Rattle.tm_graph.specs.Nodes.{bytes_of, entries_of, is_folder, with_links, with_entries};

use tm_tree::{Child, Entries, LeafRow, NodeBody, NodeRow};

/// The entries of a folder's node, by rising name; none of a file or link. It takes no memory.
pub fn children_of(row: &NodeRow) -> &[Child]
    ensures { result.now ≡ entries_of row.now }
{
    match &row.body {
        NodeBody::Folder { entries, .. } => entries.as_slice(),
        NodeBody::Leaf(_) => &[],
    }
}

pub fn is_folder(row: &NodeRow) -> bool
    ensures { result ≡ is_folder row.now }
{
    match &row.body {
        NodeBody::Folder { .. } => true,
        NodeBody::Leaf(_) => false,
    }
}

/// The bytes of a file, 0 of others.
pub fn bytes_of(row: &NodeRow) -> u64
    ensures { result ≡ bytes_of row.now }
{
    match &row.body {
        NodeBody::Leaf(LeafRow::File { length, .. }) => *length,
        _ => 0,
    }
}

/// One link more.
pub fn gain_link(row: &mut NodeRow)
    requires { row.old.links < 2 ^ 62 }
    ensures { row.new ≡ with_links row.old (row.old.links + 1) }
{
    row.links += 1;
}

/// So many links more.
pub fn gain_links(row: &mut NodeRow, count: u64)
    requires { row.old.links + count ≤ 2 ^ 62 }
    ensures { row.new ≡ with_links row.old (row.old.links + count) }
{
    row.links += count;
}

/// So many links fewer.
pub fn lose_links(row: &mut NodeRow, count: u64)
    requires { count ≤ row.old.links }
    ensures { row.new ≡ with_links row.old (row.old.links - count) }
{
    row.links -= count;
}

/// Gives a folder its entries.
pub fn set_entries(row: &mut NodeRow, entries: Entries)
    ensures { row.new ≡ with_entries row.old entries }
{
    if let NodeBody::Folder { entries: held, .. } = &mut row.body {
        *held = entries;
    }
}
