//! Laws of paths and of moments.
ghost use Rattle.tm_base.specs.Days.{MomentTextsDiffer};
ghost use Rattle.tm_base.specs.PathLaws.{PrefixIsFront, AncestorIsLess};

/// A path is a prefix of another exactly where the other begins with its names.
pub fn prefix_is_front()
    ensures { PrefixIsFront }
{}

/// A path is less than each path beneath it.
pub fn ancestor_is_less()
    ensures { AncestorIsLess }
{}

/// Two moments have two texts, so that a moment is read back from the text that it prints.
pub fn moment_texts_differ()
    ensures { MomentTextsDiffer }
{}
