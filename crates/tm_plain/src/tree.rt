//! The tree of a volume.
ghost use Rattle.std.specs.Prelude.{◌≡◌, false, length, count_by, IfOk, OnOk, OnErr, map};
ghost use Rattle.std.specs.Option.{option_copied};
ghost use Rattle.tm_tree.specs.Changes.{is_too_deep};
ghost use Rattle.tm_tree.specs.Items.{is_folder, stamped, with_attrs};
ghost use Rattle.tm_plain.specs.Entries.{named};
ghost use Rattle.tm_tree.specs.Listings.{listing, entries_of};
ghost use Rattle.tm_tree.specs.Trees.{item_at, put, without, change_at, touch, folder_at, children, moved, new_tree};
ghost use Rattle.tm_tree.specs.Walks.{walk, way, way_to, Finds};

use crate::items::{self, Entry};
use crate::paths::{is_child, rekeyed};
use std::alloc::{AllocError, Global};
use std::collections::BTreeMap;
use std::marker::Model;
use tm_base::{LineFault, Moment, Path, Refused};
use tm_tree::{Attrs, Item, Listing, Way};

/// The items of a volume by path.
///
/// Seen as the list of (path, item) by rising path.
#[derive(Drop)]
pub struct Tree {
    alloc: Global,
    items: BTreeMap<Path, Item>,
}

impl Model for Tree {
    ghost use Rattle.tm_tree.specs.Listings.{listing};
    ghost use Rattle.tm_tree.specs.Trees.{Tree};

    ghost Value = { Tree };

    ghost view = { λ t. t.items.entries };
}

fn way_to(item: &Item) -> Way
    ensures { result ≡ way_to item.now }
{
    match item {
        Item::Folder { .. } => Way::AtFolder,
        Item::File { .. } => Way::AtFile,
        Item::Link { .. } => Way::AtLink,
    }
}

impl Tree {
    /// The tree of a root alone.
    pub fn new(alloc: Global, root: Item) -> Result<Tree, AllocError>
        ensures { IfOk result (λ tree. tree ≡ new_tree root) }
    {
        let mut items = BTreeMap::new(alloc);
        items.insert(Path::root(alloc), root)?;
        Ok(Tree { alloc, items })
    }

    /// A tree of these items. It takes no memory.
    pub fn of(alloc: Global, items: BTreeMap<Path, Item>) -> Tree
        ensures { result ≡ items.entries }
    {
        Tree { alloc, items }
    }

    pub(crate) fn alloc(&self) -> Global {
        self.alloc
    }

    pub(crate) fn items(&self) -> &BTreeMap<Path, Item>
        ensures { result.now.entries ≡ self.now }
    {
        &self.items
    }

    /// How many items there are, the root counted. It takes no memory.
    pub fn len(&self) -> usize
        ensures { result ≡ length self.now }
    {
        self.items.len()
    }

    /// What stands at a path; none where nothing does. It takes no memory.
    pub fn get(&self, path: &Path) -> Option<&Item>
        ensures { option_copied result ≡ item_at self.now path.now }
    {
        self.items.get(path)
    }

    /// Whether a folder stands at a path. It takes no memory.
    pub fn has_folder(&self, path: &Path) -> bool
        ensures { result ≡ folder_at self.now path.now }
    {
        match self.items.get(path) {
            Some(item) => item.is_folder(),
            None => false,
        }
    }

    /// The item that the walk down a path comes to; [`Refused::NotFound`] where a folder lacks the
    /// next name, and [`Refused::NotFolder`] where the walk goes through a file or link.
    pub fn find(&self, path: &Path) -> Result<&Item, LineFault>
        ensures { Finds (walk self.now path.now) result }
    {
        items::find(&self.items, path)
    }

    /// The folder at a path: its attributes and what it holds by rising name; none where no folder
    /// stands there.
    pub fn list(&self, path: &Path) -> Result<Option<Listing>, AllocError>
        ensures { IfOk result (λ found. found ≡ listing self.now path.now) }
    {
        items::list(self.alloc, &self.items, path)
    }

    /// The entries of the folder at a path, by rising name; none where no folder stands there.
    pub fn entries(&self, path: &Path) -> Result<Vec<Entry<'_>>, AllocError>
        ensures { IfOk result (λ found. map named found.items ≡ entries_of self.now path.now) }
    {
        items::entries(self.alloc, &self.items, path)
    }

    /// Where the walk down a path ends.
    pub fn way(&self, path: &Path) -> Result<Way, AllocError>
        ensures { IfOk result (λ end. end ≡ way self.now path.now) }
    {
        match self.find(path) {
            Ok(item) => Ok(way_to(item)),
            Err(LineFault::Refused(Refused::NotFound)) => Ok(Way::Nowhere),
            Err(LineFault::Refused(_)) => Ok(Way::Blocked),
            Err(LineFault::Fault(_)) => Err(AllocError),
            Err(LineFault::Memory) => Err(AllocError),
        }
    }

    /// How many entries the folder at a path has. It takes no memory.
    pub fn children(&self, path: &Path) -> usize
        ensures { result ≡ length (children self.now path.now) }
    {
        self.items
            .iter()
            .filter(|(at, _)| is_child(path, at))
            .count()
    }

    /// How many folders there are, the root counted. It takes no memory.
    pub fn folders(&self) -> usize
        ensures { result ≡ count_by (λ row. is_folder row.1) self.now }
    {
        self.items
            .iter()
            .filter(|(_, item)| item.is_folder())
            .count()
    }

    /// Whether something at `from` or beneath would stand under more than 64 names at `to`. It takes
    /// no memory.
    pub fn is_too_deep(&self, from: &Path, to: &Path) -> bool
        ensures { result ≡ is_too_deep self.now from.now to.now }
    {
        let above = from.names().len();
        self.items
            .iter()
            .filter(|(at, _)| from.is_prefix_of(at))
            .any(|(at, _)| to.names().len() + at.names().len().saturating_sub(above) > 64)
    }

    /// Puts an item at a path, in place of one that stands there; where memory is refused, the tree
    /// stays as it was.
    pub fn put(&mut self, path: Path, item: Item) -> Result<(), AllocError>
        ensures ok { OnOk result (self.new ≡ put self.old path item) }
        ensures err { OnErr result (self.new ≡ self.old) }
    {
        self.items.insert(path, item)?;
        Ok(())
    }

    /// Removes what stands at a path, and nothing beneath it. It takes no memory.
    pub fn remove(&mut self, path: &Path)
        ensures { self.new ≡ without self.old path.now }
    {
        let _ = self.items.remove(path);
    }

    /// Dates the folder at a path, if one stands there. It takes no memory.
    pub fn touch(&mut self, path: &Path, moment: Moment)
        ensures { self.new ≡ touch self.old path.now moment }
    {
        if let Some(item) = self.items.get_mut(path) {
            item.date(moment);
        }
    }

    /// Gives the item at a path, if one stands there, other attributes, and a file or link this stamp.
    /// It takes no memory.
    pub fn change(&mut self, path: &Path, attrs: Attrs, stamp: u64)
        ensures { self.new ≡ change_at (λ e. stamped stamp (with_attrs attrs e)) self.old path.now }
    {
        if let Some(item) = self.items.get_mut(path) {
            item.change(attrs, stamp);
        }
    }

    /// Moves what stands at a path, with all beneath it, to another; where memory is refused, the
    /// tree stays as it was.
    pub fn move_all(&mut self, from: &Path, to: &Path) -> Result<(), AllocError>
        requires { is_too_deep self.old from.now to.now ≡ false }
        ensures ok { OnOk result (self.new ≡ moved self.old from.now to.now) }
        ensures err { OnErr result (self.new ≡ self.old) }
    {
        self.items = self.moved(from, to)?;
        Ok(())
    }

    fn moved(&self, from: &Path, to: &Path) -> Result<BTreeMap<Path, Item>, AllocError>
        requires { is_too_deep self.now from.now to.now ≡ false }
        ensures { IfOk result (λ items. items.entries ≡ moved self.now from.now to.now) }
    {
        let mut items = BTreeMap::new(self.alloc);
        for (path, item) in &self.items {
            items.insert(rekeyed(path, from, to)?, item.clone()?)?;
        }
        Ok(items)
    }
}
