//! Laws of changes of numbered items, of what they weigh, and of a folder's entries.
ghost use Rattle.tm_items.specs.Listing.{ListsChildren};
ghost use Rattle.tm_items.specs.Computed.{WeighsAlike, CountsAlike};
ghost use Rattle.tm_items.specs.Changes.{PlaceReads, ReplaceReads, RemoveReads, MoveReads};

/// Items with a new one, in a folder that is dated, keep the rules, and read as the tree with it.
pub fn new_items_read()
    ensures { PlaceReads }
{}

/// Items with another one in the place of one keep the rules, and read as the tree with it.
pub fn replaced_items_read()
    ensures { ReplaceReads }
{}

/// Items without one in which nothing stands, whose folder is dated, keep the rules, and read as
/// the tree without it.
pub fn removed_items_read()
    ensures { RemoveReads }
{}

/// Items of which one stands in another place, with both folders dated, keep the rules, and read as
/// the tree with all that stood at and beneath it moved.
pub fn moved_items_read()
    ensures { MoveReads }
{}

/// By any weight of a name and an item, the items of a tree weigh together what the numbered items
/// weigh.
pub fn weights_are_alike()
    ensures { WeighsAlike }
{}

/// A tree has as many items as stand under numbers.
pub fn counts_are_alike()
    ensures { CountsAlike }
{}

/// The entries of a folder in the index are its children in the tree.
pub fn listings_are_children()
    ensures { ListsChildren }
{}
