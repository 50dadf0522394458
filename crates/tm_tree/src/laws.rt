//! Laws of trees and of the labelled copy.
ghost use Rattle.tm_tree.specs.Copies.{CopyIsWhole, CopyOverSame, CopyOfPart};
ghost use Rattle.tm_tree.specs.TreeLaws.{TreeKept, NewIsTree, ViewIsTree, MovesItems};

/// A copy without its labels is the tree that was copied, whatever it was copied over.
pub fn copy_is_whole()
    ensures { CopyIsWhole }
{}

/// A copy over the same tree is that tree with its labels.
pub fn copy_over_same()
    ensures { CopyOverSame }
{}

/// What a copy has at a path and beneath it is the copy of what stands there.
pub fn copy_of_part()
    ensures { CopyOfPart }
{}

/// A change that nothing refuses keeps a tree a tree.
pub fn tree_is_kept()
    ensures { TreeKept }
{}

/// A new volume's tree is a tree.
pub fn new_is_tree()
    ensures { NewIsTree }
{}

/// The view of a tree is a tree.
pub fn view_is_tree()
    ensures { ViewIsTree }
{}

/// What stands where after a move.
pub fn moves_items()
    ensures { MovesItems }
{}
