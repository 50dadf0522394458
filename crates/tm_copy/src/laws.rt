//! What the definitions say together.
ghost use Rattle.tm_copy.specs.Copying.{NodesAreCopy};
ghost use Rattle.tm_copy.specs.Driving.{BackupIsBuilt, BaseGoesDown, EntryIsBuilt, FolderIsKept, FolderIsMade, LeafIsKept, LeafIsMade, LeafIsSame, NoneAreNew};
ghost use Rattle.tm_copy.specs.Listed.{ListsFolder, RowsStandIn};
ghost use Rattle.tm_copy.specs.Sharing.{SameByEntries};
ghost use Rattle.tm_copy.specs.Stamps.{AgreeingTell};

/// All at and beneath a path is as it was exactly where the item there is, and all at and beneath
/// each name in it.
pub fn same_by_entries()
    ensures { SameByEntries }
{}

/// Nodes that are the base's where nothing changed, and own ones elsewhere, make the labelled copy.
pub fn nodes_are_copy()
    ensures { NodesAreCopy }
{}

/// A listing has the folder's attributes and its rows.
pub fn lists_folder()
    ensures { ListsFolder }
{}

/// An item stands under the name of each row, and is of its kind.
pub fn rows_stand_in()
    ensures { RowsStandIn }
{}

/// The base's node at the root is its root, and at an entry the child of the folder's.
pub fn base_goes_down()
    ensures { BaseGoesDown }
{}

/// No nodes are new nodes.
pub fn none_are_new()
    ensures { NoneAreNew }
{}

/// A kept file or link is what the backup makes of the item.
pub fn leaf_is_kept()
    ensures { LeafIsKept }
{}

/// So is a new one, where none is kept.
pub fn leaf_is_made()
    ensures { LeafIsMade }
{}

/// A file or link that the base has at its path is as it was.
pub fn leaf_is_same()
    ensures { LeafIsSame }
{}

/// One entry more is built after the others.
pub fn entry_is_built()
    ensures { EntryIsBuilt }
{}

/// A kept folder is what the backup makes of the folder with all beneath it.
pub fn folder_is_kept()
    ensures { FolderIsKept }
{}

/// So is a new one, where none is kept.
pub fn folder_is_made()
    ensures { FolderIsMade }
{}

/// What is built from the root down is the labelled copy of the tree over the base's.
pub fn backup_is_built()
    ensures { BackupIsBuilt }
{}

/// Where items of the base and of the tree with one stamp are equal, stamps tell what is as it was.
pub fn agreeing_tell()
    ensures { AgreeingTell }
{}
