//! What every crate above may rely on.
ghost use Rattle.tm_removal.specs.Removing.{RemovalsKeep};

/// Without several of its roots a store is left with the others, and the trees under these stay.
pub fn removals_keep()
    ensures { RemovalsKeep }
{}
