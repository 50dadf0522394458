//! Laws of the texts of replies.
ghost use Rattle.tm_reply.specs.ReplyLaws.{EachTextClosesOnce, TextsSplitInOneWay, ReplyIsSome, WordsDecode};

/// A reply's text is whole lines, of which the last is `ok` or begins with the word `refused`, and
/// no other does.
pub fn each_text_closes_once()
    ensures { EachTextClosesOnce }
{}

/// A sequence of texts splits into replies in one way: no text is the beginning of another that
/// could be mistaken for it.
pub fn texts_split_in_one_way()
    ensures { TextsSplitInOneWay }
{}

/// A reply's text is not empty.
pub fn reply_is_some()
    ensures { ReplyIsSome }
{}

/// A printed word decodes to the bytes that it stands for.
pub fn words_decode()
    ensures { WordsDecode }
{}
