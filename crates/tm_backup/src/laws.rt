//! What the definitions say together.
ghost use Rattle.tm_backup.specs.Laws.{FoldersInOrder, TakenIs, TakenTells};

/// The folders at and beneath a path, in path order, are the folder there, and then those at and
/// beneath each folder in it, by name.
pub fn folders_in_order()
    ensures { FoldersInOrder }
{}

/// Of the tree as the walk takes it stamps tell what is as it was.
pub fn taken_tells()
    ensures { TakenTells }
{}

/// Where stamps tell what is as it was, the walk takes the tree as it is.
pub fn taken_is()
    ensures { TakenIs }
{}
