//! What everyone who reckons with pages may rely on.
ghost use Rattle.tm_pages.specs.Laws.{CountIsReckoned, DirectoryOrBreak, OneBreak, OneDirectory, PlacesAreReckoned, PlanHoldsText, ReckonedRises, TextIsShort, TextStays};

/// A paged text has no more pages than are reckoned for its length, and no more bytes than as many
/// pages hold; its pages and directory have no more blocks than are reckoned; and a longer text is
/// reckoned at no fewer.
pub fn paged_texts_are_short()
    ensures count { CountIsReckoned }
    ensures short { TextIsShort }
    ensures places { PlacesAreReckoned }
    ensures rises { ReckonedRises }
{}

/// What the pages of a plan hold once [`crate::write_pages`] has written the new ones: the text that
/// the old pages held, with the new texts of the runs.
pub fn plans_hold_text()
    ensures stays { TextStays }
    ensures holds { PlanHoldsText }
{}

/// A directory text is that of one list of pages at most, or else one place at most is the first
/// that breaks a rule: the answer of [`crate::read_pages`] is the only one.
pub fn directories_are_one()
    ensures directory { OneDirectory }
    ensures either { DirectoryOrBreak }
    ensures place { OneBreak }
{}
