//! Laws of numbered items and of their index.
ghost use Rattle.tm_items.specs.Placings.{OneTree};
ghost use Rattle.tm_items.specs.Computed.{SoundReads};
ghost use Rattle.tm_items.specs.Laws.{
  WayStarts,
  WayStands,
  WayGoesOn,
  WayMisses,
  WayIsBlocked,
  WayEnds,
  WalkFinds,
  IndexHas,
  IndexLeads,
  OwnPlace,
  NothingIn,
  NothingInLeaf,
  IndexPlaces,
  IndexRemoves,
  IndexMoves,
  IndexReplaces,
  IndexDates,
  SetIsUndone,
  LoadStarts,
  LoadSkips,
  LoadTakes,
  LoadEnds,
  RootBreaks,
  FolderBreaks,
  DepthBreaks,
  NameBreaks,
  PlaceBreaks,
  AllTaken,
  FewNumbers,
};

/// Items read as at most one tree.
pub fn items_read_as_one_tree()
    ensures { OneTree }
{}

/// Sound items read as a tree, the one that is computed from them.
pub fn sound_items_read()
    ensures { SoundReads }
{}

/// The steps of a walk down a path by the index, and where each walk ends.
pub fn index_walks()
    ensures starts { WayStarts }
    ensures stands { WayStands }
    ensures goes_on { WayGoesOn }
    ensures misses { WayMisses }
    ensures blocked { WayIsBlocked }
    ensures ends { WayEnds }
    ensures finds { WalkFinds }
{}

/// What the index tells of paths, and which items have nothing in them.
pub fn index_tells()
    ensures has { IndexHas }
    ensures leads { IndexLeads }
    ensures place { OwnPlace }
    ensures empty { NothingIn }
    ensures leaf { NothingInLeaf }
{}

/// The index after each change of the items.
pub fn index_follows()
    ensures places { IndexPlaces }
    ensures removes { IndexRemoves }
    ensures moves { IndexMoves }
    ensures replaces { IndexReplaces }
    ensures dates { IndexDates }
    ensures undone { SetIsUndone }
{}

/// Items that are read by rising number, and pass each test, are sound and stand in the index.
pub fn items_load()
    ensures starts { LoadStarts }
    ensures skips { LoadSkips }
    ensures takes { LoadTakes }
    ensures ends { LoadEnds }
{}

/// An item that fails a test breaks a rule.
pub fn failed_tests_break_rules()
    ensures root { RootBreaks }
    ensures folder { FolderBreaks }
    ensures depth { DepthBreaks }
    ensures name { NameBreaks }
    ensures place { PlaceBreaks }
{}

/// How many items there are: as many as the numbers from 1 on, where all those are taken, and no
/// more, where no others are.
pub fn numbers_count()
    ensures taken { AllTaken }
    ensures few { FewNumbers }
{}
