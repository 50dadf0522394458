//! Giving back the blocks of pages that a plan takes away.
ghost use Rattle.std.specs.Prelude.{◌≤◌, ◌+◌, ◌≡◌, ℕ, length, slice_index};
ghost use Rattle.tm_blockmap.specs.Marks.{AreMarks};
ghost use Rattle.tm_blockmap.specs.Counts.{times};
ghost use Rattle.tm_blockmap.specs.Gives.{Gives};
ghost use Rattle.tm_pages.specs.Paged.{blocks_of};
ghost use Rattle.tm_pages.specs.Runs.{AreInOrder, gone};

use crate::{Cut, Page};
use tm_blockmap::BlockMap;

/// Gives back the blocks of these pages.
fn give_pages(map: &mut BlockMap, pages: &[Page])
    requires used { (b : ℕ) → times b (blocks_of pages.now) ≤ slice_index map.old b }
    requires are_marks { AreMarks map.old }
    ensures { Gives (blocks_of pages.now) map.old map.new }
{
    for page in pages {
        map.give(page.block);
    }
}

/// Gives back the blocks of the old pages that the cuts of a plan take away, once nothing names them
/// any more. It takes no memory.
pub fn give_gone(map: &mut BlockMap, old: &[Page], cuts: &[Cut])
    requires order { AreInOrder (length old.now) 0 cuts.now }
    requires used { (b : ℕ) → times b (blocks_of (gone old.now cuts.now)) ≤ slice_index map.old b }
    requires are_marks { AreMarks map.old }
    ensures { Gives (blocks_of (gone old.now cuts.now)) map.old map.new }
{
    for cut in cuts {
        give_pages(map, &old[cut.from..cut.to]);
    }
}
