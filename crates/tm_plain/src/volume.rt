//! The plain volume.
ghost use Rattle.std.specs.Prelude.{◌≡◌, ◌+◌, ◌^◌, ◌≤◌, None, IfOk, OnOk, OnErr, unwrap_or, map};
ghost use Rattle.tm_plain.specs.Entries.{named};
ghost use Rattle.tm_tree.specs.Changes.{ids_spent, own_tests, tests, tree_after, fixed_after};
ghost use Rattle.tm_tree.specs.Listings.{listing, entries_of};
ghost use Rattle.tm_tree.specs.Making.{MakesChange};
ghost use Rattle.tm_tree.specs.Refusing.{first_refused};
ghost use Rattle.tm_tree.specs.States.{new_volume};
ghost use Rattle.tm_tree.specs.Touches.{numbers, touches};
ghost use Rattle.tm_tree.specs.Views.{view};
ghost use Rattle.tm_tree.specs.Walks.{walk, Finds};

use crate::items::Entry;
use crate::refusals::{refuses_fix, refuses_unfix};
use crate::tree::Tree;
use std::alloc::{AllocError, Global};
use std::collections::BTreeSet;
use std::marker::Model;
use tm_base::{LineFault, Moment, Name, Path, Refused};
use tm_tree::{Change, Item, Listing, Touches, fill_bytes};

/// Past this number none is drawn.
const LAST_NUMBER: u128 = 1 << 62;

/// A volume: its name and id, how many rows its journal keeps, its generation, its tree, the paths
/// that are fixed as excluded, and the number that is drawn next.
///
/// Seen as the volume's state.
#[derive(Drop)]
pub struct Volume {
    name: Name,
    id: u128,
    capacity: u32,
    generation: u64,
    tree: Tree,
    fixed: BTreeSet<Path>,
    next: u64,
}

impl Model for Volume {
    ghost use Rattle.tm_tree.specs.States.{VolumeState};

    ghost Value = { VolumeState };

    ghost view = { λ v. record {
      name = v.name;
      id = v.id;
      capacity = v.capacity;
      generation = v.generation;
      contents = record { tree = v.tree; fixed = v.fixed.keys; next = v.next };
    } };
}

impl Volume {
    /// A new volume: a root alone, dated; its numbers begin at 1.
    pub fn blank(
        alloc: Global,
        name: &Name,
        id: u128,
        events: u32,
        moment: Moment,
    ) -> Result<Volume, AllocError>
        ensures { IfOk result (λ volume. volume ≡ new_volume name.now id events moment) }
    {
        Ok(Volume {
            name: name.clone()?,
            id,
            capacity: events,
            generation: 1,
            tree: Tree::new(alloc, Item::new_folder(alloc, moment))?,
            fixed: BTreeSet::new(alloc),
            next: 1,
        })
    }

    /// Its name. It takes no memory.
    pub fn name(&self) -> &Name
        ensures { result.now ≡ self.now.name }
    {
        &self.name
    }

    /// Its id. It takes no memory.
    pub fn id(&self) -> u128
        ensures { result ≡ self.now.id }
    {
        self.id
    }

    /// How many rows its journal keeps. It takes no memory.
    pub fn capacity(&self) -> u32
        ensures { result ≡ self.now.capacity }
    {
        self.capacity
    }

    /// Its generation. It takes no memory.
    pub fn generation(&self) -> u64
        ensures { result ≡ self.now.generation }
    {
        self.generation
    }

    /// The number that is drawn next. It takes no memory.
    pub fn next(&self) -> u64
        ensures { result ≡ self.now.contents.next }
    {
        self.next
    }

    /// The paths that are fixed as excluded, by rising path. It takes no memory.
    pub fn fixed(&self) -> &BTreeSet<Path>
        ensures { result.now.keys ≡ self.now.contents.fixed }
    {
        &self.fixed
    }

    /// The item that the walk down a path comes to; [`Refused::NotFound`] where a folder lacks the
    /// next name, and [`Refused::NotFolder`] where the walk goes through a file or link.
    pub fn find(&self, path: &Path) -> Result<&Item, LineFault>
        ensures { Finds (walk self.now.contents.tree path.now) result }
    {
        self.tree.find(path)
    }

    /// The folder at a path: its attributes and what it holds by rising name; none where no folder
    /// stands there.
    pub fn list(&self, path: &Path) -> Result<Option<Listing>, AllocError>
        ensures { IfOk result (λ found. found ≡ listing self.now.contents.tree path.now) }
    {
        self.tree.list(path)
    }

    /// The entries of the folder at a path, by rising name; none where no folder stands there.
    pub fn entries(&self, path: &Path) -> Result<Vec<Entry<'_>>, AllocError>
        ensures { IfOk result (λ found. map named found.items ≡ entries_of self.now.contents.tree path.now) }
    {
        self.tree.entries(path)
    }

    /// The tree without its exclusions.
    pub fn view(&self) -> Result<Tree, AllocError>
        ensures { IfOk result (λ tree.
            tree ≡ view self.now.contents.fixed self.now.contents.tree) }
    {
        self.tree.view(&self.fixed)
    }

    /// Makes a change, and tells its touches in the order in which they draw numbers, which come
    /// after those of its stamps; or refuses it for the first reason (`docs/SCRIPT.md`,
    /// "Refusals"). Where it is refused or memory is, the volume stays as it was.
    pub fn change(&mut self, change: &Change, moment: Option<Moment>) -> Result<Touches, LineFault>
        ensures { MakesChange self.old change.now moment self.new result }
    {
        let made_at = moment;
        let touches = self.touches(change)?;
        let count = self.numbers(change, &touches);
        if let Some(why) = self.refusal(change, moment, count)? {
            return Err(LineFault::Refused(why));
        }
        self.make(change, made_at)?;
        self.draw(count);
        Ok(touches)
    }

    fn touches(&self, change: &Change) -> Result<Touches, AllocError>
        ensures { IfOk result (λ touched. touched ≡ touches self.now.contents.tree change.now) }
    {
        self.tree.touches(change)
    }

    fn numbers(&self, change: &Change, touched: &Touches) -> u64
        requires { touched.now ≡ touches self.now.contents.tree change.now }
        ensures { result ≡ numbers self.now.contents.tree change.now }
    {
        self.tree.numbers(change, touched)
    }

    fn draw(&mut self, count: u64)
        requires { self.old.contents.next + count ≤ 2 ^ 62 }
        ensures { self.new ≡ record self.old {
          contents = record self.old.contents { next = self.old.contents.next + count };
        } }
    {
        self.next += count;
    }

    // Why a change that draws so many numbers is not made.
    fn refusal(
        &self,
        change: &Change,
        moment: Option<Moment>,
        count: u64,
    ) -> Result<Option<Refused>, AllocError>
        requires { count ≡ numbers self.now.contents.tree change.now }
        ensures { IfOk result (λ why.
            why ≡ first_refused (tests self.now.contents change.now moment)) }
    {
        let why = self.own_refusal(change, moment)?;
        Ok(why.or(self.spends_ids(count)))
    }

    fn spends_ids(&self, count: u64) -> Option<Refused>
        ensures { result ≡ first_refused (ids_spent self.now.contents count) }
    {
        if u128::from(self.next) + u128::from(count) > LAST_NUMBER {
            Some(Refused::IdsSpent)
        } else {
            None
        }
    }

    fn own_refusal(
        &self,
        change: &Change,
        moment: Option<Moment>,
    ) -> Result<Option<Refused>, AllocError>
        ensures { IfOk result (λ why.
            why ≡ first_refused (own_tests self.now.contents change.now moment)) }
    {
        let tree = &self.tree;
        match change {
            Change::Mkdir { path } => tree.refuses_place(path, moment),
            Change::Write { path, bytes } => {
                tree.refuses_file(path, bytes.as_slice().len() as u64, moment)
            }
            Change::Append { path, bytes } => {
                let length = tree.length_at(path).checked_add(bytes.as_slice().len());
                // more than 64 bits can count is more than memory holds
                tree.refuses_file(path, length.ok_or(AllocError)? as u64, moment)
            }
            Change::Fill { path, length, .. } => tree.refuses_file(path, *length, moment),
            Change::Rm { path } => tree.refuses_rm(path, moment),
            Change::Rmdir { path } => tree.refuses_rmdir(path, moment),
            Change::Mv { path, to } => tree.refuses_mv(path, to, moment),
            Change::Ln { path, .. } => tree.refuses_place(path, moment),
            Change::Chmod { path, .. } => tree.refuses_item(path),
            Change::Chown { path, .. } => tree.refuses_item(path),
            Change::Setx { path, name, .. } => tree.refuses_setx(path, name),
            Change::Rmx { path, name } => tree.refuses_rmx(path, name),
            Change::Fix { path } => Ok(refuses_fix(&self.fixed, path)),
            Change::Unfix { path } => Ok(refuses_unfix(&self.fixed, path)),
        }
    }

    // The tree and the fixed paths after a change that nothing refuses.
    fn make(&mut self, change: &Change, moment: Option<Moment>) -> Result<(), AllocError>
        requires { first_refused (tests self.old.contents change.now moment) ≡ None }
        ensures ok { OnOk result (self.new ≡ record self.old {
          contents = record self.old.contents {
            tree = tree_after self.old.contents.tree self.old.contents.next (unwrap_or moment 0) change.now;
            fixed = fixed_after self.old.contents.fixed change.now;
          };
        }) }
        ensures err { OnErr result (self.new ≡ self.old) }
    {
        let stamp = self.next;
        let tree = &mut self.tree;
        let alloc = tree.alloc();
        match change {
            Change::Mkdir { path } => {
                let moment = moment.unwrap();
                tree.place(path, moment, Item::new_folder(alloc, moment))
            }
            Change::Write { path, bytes } => {
                tree.write(path, moment.unwrap(), stamp, bytes.clone()?)
            }
            Change::Append { path, bytes } => {
                let bytes = tree.appended(path, bytes)?;
                tree.write(path, moment.unwrap(), stamp, bytes)
            }
            Change::Fill { path, length, seed } => {
                let bytes = fill_bytes(alloc, *length, *seed)?;
                tree.write(path, moment.unwrap(), stamp, bytes)
            }
            Change::Rm { path } => tree.take_away(path, moment.unwrap()),
            Change::Rmdir { path } => tree.take_away(path, moment.unwrap()),
            Change::Mv { path, to } => tree.move_to(path, to, moment.unwrap()),
            Change::Ln { path, target } => {
                let moment = moment.unwrap();
                let link = Item::new_link(alloc, moment, stamp, target.clone()?);
                tree.place(path, moment, link)
            }
            Change::Chmod { path, mode } => tree.set_mode(path, stamp, *mode),
            Change::Chown { path, uid, gid } => tree.set_owners(path, stamp, *uid, *gid),
            Change::Setx { path, name, value } => tree.set_extra(path, stamp, name, value),
            Change::Rmx { path, name } => tree.remove_extra(path, stamp, name),
            Change::Fix { path } => {
                self.fixed.insert(path.clone()?)?;
                Ok(())
            }
            Change::Unfix { path } => {
                self.fixed.remove(path);
                Ok(())
            }
        }
    }
}
