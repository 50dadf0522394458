//! What every reader of chains and blobs may rely on.
ghost use Rattle.tm_chain.specs.Laws.{ChainOrBreak, FilledIsHeld, OneBreak, OneChain, PartOfHeld};

/// At a block of an image at most one chain of a length begins, or else at most one block is the
/// first that breaks a rule: the answer of [`crate::read_chain`] is the only one.
pub fn chains_are_one()
    ensures chain { OneChain }
    ensures either { ChainOrBreak }
    ensures place { OneBreak }
{}

/// Blocks that bytes fill hold these bytes, and a part of what is held is held: what
/// [`crate::write_blob`] wrote is what [`crate::read_blob`] reads.
pub fn filled_blocks_hold()
    ensures filled { FilledIsHeld }
    ensures part { PartOfHeld }
{}
