//! The test of one path.
ghost use Rattle.std.specs.Prelude.{◌≡◌, ◌+◌, length};
ghost use Rattle.std.specs.List.{list_any};
ghost use Rattle.tm_base.specs.Paths.{is_prefix};
ghost use Rattle.tm_exclude.specs.Exclusions.{is_excluded};

use tm_base::Path;
use tm_tree::PathList;

/// Whether a prefix of a path, the root and the path itself counted, is a fixed path or is marked.
///
/// `marked` has a mark for each prefix, from the root's on. It takes no memory.
pub fn is_excluded(fixed: &PathList, marked: &[bool], path: &Path) -> bool
    requires marks { length marked.now ≡ length path.now + 1 }
    ensures { result ≡ is_excluded fixed.now marked.now path.now }
{
    is_under_fixed(fixed, path) || has_mark(marked)
}

fn is_under_fixed(fixed: &PathList, path: &Path) -> bool
    ensures { result ≡ list_any (λ over. is_prefix over path.now) fixed.now }
{
    let paths = fixed.as_slice();
    paths.iter().any(|over| over.is_prefix_of(path))
}

fn has_mark(marked: &[bool]) -> bool
    ensures { result ≡ list_any (λ mark. mark) marked.now }
{
    marked.iter().any(|mark| *mark)
}
