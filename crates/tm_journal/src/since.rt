//! What a journal answers about a mark.
use tm_tree::RowList;

/// What happened since a mark.
#[derive(Drop)]
pub enum Since {
    /// The rows above the mark's cursor.
    Rows(RowList),
    /// The mark is of another generation: what happened since is not known.
    Lost,
}
