//! Labelled trees: what snapshots hold.
ghost use Rattle.std.specs.Prelude.{◌≡◌, [], ◌∷◌, IfOk, MatchOption, map};
ghost use Rattle.tm_plain.specs.Entries.{named};
ghost use Rattle.tm_tree.specs.Copies.{bare, copy, copied_label, is_same_at, label_or};
ghost use Rattle.std.specs.Option.{option_copied};
ghost use Rattle.tm_plain.specs.Runs.{run_beneath};
ghost use Rattle.tm_tree.specs.Listings.{listing, entries_of};
ghost use Rattle.tm_tree.specs.Trees.{at};
ghost use Rattle.tm_tree.specs.Walks.{walk, Finds};

use crate::items::{self, Entry};
use crate::tree::Tree;
use std::alloc::{AllocError, Global};
use std::collections::BTreeMap;
use std::collections::btree_map::Range;
use std::marker::Model;
use tm_base::{LineFault, Path};
use tm_tree::{Item, Labelled, Listing};

/// Items by path, each with the number of the backup that first copied it.
///
/// Seen as the list of (path, labelled item) by rising path.
#[derive(Drop)]
pub struct LabelledTree {
    alloc: Global,
    items: BTreeMap<Path, Labelled>,
}

impl Model for LabelledTree {
    ghost use Rattle.tm_tree.specs.Copies.{LabelledTree};

    ghost Value = { LabelledTree };

    ghost view = { λ t. t.items.entries };
}

impl LabelledTree {
    /// A tree without items, over which everything is copied anew. It takes no memory.
    pub fn new(alloc: Global) -> LabelledTree
        ensures { result ≡ [] }
    {
        LabelledTree {
            alloc,
            items: BTreeMap::new(alloc),
        }
    }

    /// What stands at a path, with its label; none where nothing does. It takes no memory.
    pub fn get(&self, path: &Path) -> Option<&Labelled>
        ensures { option_copied result ≡ at self.now path.now }
    {
        self.items.get(path)
    }

    /// The item that the walk down a path comes to, as [`Tree::find`].
    pub fn find(&self, path: &Path) -> Result<&Item, LineFault>
        ensures { Finds (walk (bare self.now) path.now) result }
    {
        items::find(&self.items, path)
    }

    /// The folder at a path: its attributes and what it holds by rising name; none where no folder
    /// stands there.
    pub fn list(&self, path: &Path) -> Result<Option<Listing>, AllocError>
        ensures { IfOk result (λ found. found ≡ listing (bare self.now) path.now) }
    {
        items::list(self.alloc, &self.items, path)
    }

    /// The entries of the folder at a path, by rising name; none where no folder stands there.
    pub fn entries(&self, path: &Path) -> Result<Vec<Entry<'_>>, AllocError>
        ensures { IfOk result (λ found. map named found.items ≡ entries_of (bare self.now) path.now) }
    {
        items::entries(self.alloc, &self.items, path)
    }

    /// The copy of a tree by the backup with this number over this tree: an item with all beneath it
    /// keeps its label where all of that is the same here, and else has this number.
    pub fn copy(&self, label: u64, now: &Tree) -> Result<LabelledTree, AllocError>
        ensures { IfOk result (λ tree. tree ≡ copy label self.now now.now) }
    {
        let mut items = BTreeMap::new(self.alloc);
        for (path, item) in now.items() {
            let label = self.copied_label(label, now, path);
            let item = item.clone()?;
            items.insert(path.clone()?, Labelled { label, item })?;
        }
        Ok(LabelledTree {
            alloc: self.alloc,
            items,
        })
    }

    fn copied_label(&self, label: u64, now: &Tree, path: &Path) -> u64
        ensures { result ≡ copied_label label self.now now.now path.now }
    {
        if self.is_same_at(now, path) {
            self.label_or(path, label)
        } else {
            label
        }
    }

    fn label_or(&self, path: &Path, label: u64) -> u64
        ensures { result ≡ label_or (at self.now path.now) label }
    {
        match self.items.get(path) {
            Some(labelled) => labelled.label,
            None => label,
        }
    }

    // Whether all at a path and beneath it is here as it is in `now`.
    fn is_same_at(&self, now: &Tree, path: &Path) -> bool
        ensures { result ≡ is_same_at self.now now.now path.now }
    {
        let mut olds = self.items.range(path..);
        let mut news = now.items().range(path..);
        while let Some((at, item)) = next_beneath(&mut news, path) {
            let Some((old_at, old)) = next_beneath(&mut olds, path) else {
                return false;
            };
            if *old_at != *at || !old.item.is_same(item) {
                return false;
            }
        }
        next_beneath(&mut olds, path).is_none()
    }
}

// The next of the rows from a path on, if it stands there or beneath; after these come all others.
fn next_beneath<'a, V>(rows: &mut Range<'a, Path, V>, path: &Path) -> Option<(&'a Path, &'a V)>
    ensures { MatchOption result (run_beneath path.now rows.old ≡ [])
        (λ row. run_beneath path.now rows.old ≡ (row.0.now, row.1.now) ∷ run_beneath path.now rows.new) }
{
    let (at, value) = rows.next()?;
    if path.is_prefix_of(at) {
        Some((at, value))
    } else {
        None
    }
}
