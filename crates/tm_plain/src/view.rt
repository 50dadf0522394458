// The tree without its exclusions.
ghost use Rattle.std.specs.Prelude.{◌≡◌, IfOk};
ghost use Rattle.tm_tree.specs.Views.{hides, hidden_paths, is_hidden, view};

use crate::tree::Tree;
use std::alloc::AllocError;
use std::collections::{BTreeMap, BTreeSet};
use tm_base::Path;
use tm_tree::{Item, PathList};

/// Paths that are fixed as excluded.
pub trait FixedPaths {
    ghost use Rattle.std.specs.Prelude.{◌≡◌, List};
    ghost use Rattle.tm_base.specs.Paths.{Names};
    ghost use Rattle.tm_tree.specs.Contents.{is_fixed};

    /// The paths.
    ghost paths: { Self → List Names };

    /// Whether a path is one of them. It takes no memory.
    fn has(&self, path: &Path) -> bool
        ensures { result ≡ is_fixed (paths self.now) path.now };
}

impl FixedPaths for BTreeSet<Path> {
    ghost paths = { λ set. set.keys };

    fn has(&self, path: &Path) -> bool {
        self.contains(path)
    }
}

impl FixedPaths for PathList {
    ghost paths = { λ list. list };

    fn has(&self, path: &Path) -> bool {
        let paths = self.as_slice();
        paths.iter().any(|fixed| path.cmp(fixed).is_eq())
    }
}

impl Tree {
    /// The tree without the items that are excluded, by an attribute or by their path, and without
    /// all that is beneath them.
    pub fn view<F: FixedPaths>(&self, fixed: &F) -> Result<Tree, AllocError>
        ensures { IfOk result (λ tree. tree ≡ view (F.paths fixed.now) self.now) }
    {
        let hidden = self.hidden(fixed)?;
        let mut items = BTreeMap::new(self.alloc());
        for (path, item) in self.items() {
            if !is_hidden(&hidden, path) {
                items.insert(path.clone()?, item.clone()?)?;
            }
        }
        Ok(Tree::of(self.alloc(), items))
    }

    fn hidden<F: FixedPaths>(&self, fixed: &F) -> Result<Vec<Path>, AllocError>
        ensures { IfOk result (λ paths. paths.items ≡ hidden_paths (F.paths fixed.now) self.now) }
    {
        let mut hidden = Vec::new(self.alloc());
        for (path, item) in self.items() {
            if hides(fixed, path, item) {
                hidden.push(path.clone()?)?;
            }
        }
        Ok(hidden)
    }
}

fn hides<F: FixedPaths>(fixed: &F, path: &Path, item: &Item) -> bool
    ensures { result ≡ hides (F.paths fixed.now) path.now item.now }
{
    !path.is_root() && (item.is_excluded() || fixed.has(path))
}

fn is_hidden(hidden: &[Path], path: &Path) -> bool
    ensures { result ≡ is_hidden hidden.now path.now }
{
    hidden.iter().any(|over| over.is_prefix_of(path))
}
