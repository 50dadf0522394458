//! What everyone who counts blocks may rely on.
ghost use Rattle.tm_blockmap.specs.Laws.{CountIsAtMostSum, CountIsSum};

/// Blocks that are marked as often as they stand in a list are as many as the marks: so the free
/// blocks are those of the image less those that somebody owns.
pub fn marks_count_blocks()
    ensures equal { CountIsSum }
    ensures most { CountIsAtMostSum }
{}
