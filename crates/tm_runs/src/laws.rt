//! What whoever plans the pages of changed records may rely on.
ghost use Rattle.tm_runs.specs.Touched.{TouchedHasByte, UntouchedIsFar};
ghost use Rattle.tm_runs.specs.Changes.{ChangesByKey, HoldersRise, KeysAreNumbers, RunsChangeTheText, RunsFitPages};

/// The runs that [`crate::runs_of`] finds are such as [`tm_pages::plan_pages`] asks for, and the
/// pages that none of them touches keep their holders.
pub fn runs_fit_pages()
    ensures fit { RunsFitPages }
    ensures rise { HoldersRise }
{}

/// The text that these runs make of the one that the pages hold is that of the changed records.
pub fn runs_change_the_text()
    ensures { RunsChangeTheText }
{}

/// Records that are put and removed, one after another, at some keys differ at these alone; and
/// records with keys of 64 bits are numbered so.
pub fn changes_are_by_key()
    ensures changes { ChangesByKey }
    ensures numbers { KeysAreNumbers }
{}

/// A page that is neither touched nor next to a touched one is far from all runs that
/// [`crate::runs_of`] finds, so that it stays at its block; and a page is touched only where it has a
/// byte of a record that goes or changes, or the last byte before a new one.
pub fn untouched_pages_are_far()
    ensures far { UntouchedIsFar }
    ensures byte { TouchedHasByte }
{}
