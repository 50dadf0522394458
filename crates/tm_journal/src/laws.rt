//! What the rows of a journal cover, and that an image may keep them (`docs/DEFINITIONS.md`, "The journal").
ghost use Rattle.tm_journal.specs.Keepable.{TouchesStayKeepable, DropStaysKeepable, LaterStaysKeepable, KeepableAreAboveZero};
ghost use Rattle.tm_journal.specs.Cover.{TouchStaysCovered, TouchesStayCovered, DropCoversAll};

/// What the rows above a cursor covered before a touch they cover after it, and what it touches.
pub fn touch_stays_covered()
    ensures { TouchStaysCovered }
{}

/// What the rows above a cursor covered before the touches of a line they cover after them, and
/// what these touch.
pub fn touches_stay_covered()
    ensures { TouchesStayCovered }
{}

/// After a drop the rows above each earlier id cover all.
pub fn drop_covers_all()
    ensures { DropCoversAll }
{}

/// Where an image may keep the rows before the touches of a line, it may keep those after them.
pub fn touches_stay_keepable()
    ensures { TouchesStayKeepable }
{}

/// An image may keep what a drop leaves.
pub fn drop_stays_keepable()
    ensures { DropStaysKeepable }
{}

/// An image may keep the rows also where the volume's next number has grown.
pub fn later_stays_keepable()
    ensures { LaterStaysKeepable }
{}

/// Of rows that an image may keep all are above the id 0.
pub fn keepable_are_above_zero()
    ensures { KeepableAreAboveZero }
{}
