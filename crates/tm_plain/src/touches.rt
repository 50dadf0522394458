// The touches of a change, and how many numbers it draws.
ghost use Rattle.std.specs.Prelude.{◌≡◌, ◌++◌, ◌≤◌, IfOk};
ghost use Rattle.tm_base.specs.Paths.{parent_of};
ghost use Rattle.tm_tree.specs.Touches.{plain, scan, attr_touches, extra_touches, touches, stamps, attr_stamps, numbers};
ghost use Rattle.tm_tree.specs.declared.change.Change.TheVariants.{Mv};

use crate::paths::parent;
use crate::tree::Tree;
use std::alloc::AllocError;
use tm_base::{Name, Path};
use tm_tree::{Change, Touch, Touches, is_exclusion};

// The folder alone.
fn plain(path: Path) -> Touch
    ensures { result ≡ record { path = path; flags = 0 } }
{
    Touch { path, flags: 0 }
}

// The folder and all beneath it (MustScanSubDirs).
fn scan(path: Path) -> Touch
    ensures { result ≡ record { path = path; flags = 1 } }
{
    Touch { path, flags: 1 }
}

impl Tree {
    // The touches of a change, in the order in which they draw numbers.
    pub(crate) fn touches(&self, change: &Change) -> Result<Touches, AllocError>
        ensures { IfOk result (λ touched. touched ≡ touches self.now change.now) }
    {
        match change {
            Change::Mkdir { path } => self.touch_made(path),
            Change::Write { path, .. } => self.touch_entry(path),
            Change::Append { path, .. } => self.touch_entry(path),
            Change::Fill { path, .. } => self.touch_entry(path),
            Change::Rm { path } => self.touch_entry(path),
            Change::Rmdir { path } => self.touch_entry(path),
            Change::Mv { path, to } => self.touch_moved(path, to),
            Change::Ln { path, .. } => self.touch_entry(path),
            Change::Chmod { path, .. } => self.touch_attrs(path),
            Change::Chown { path, .. } => self.touch_attrs(path),
            Change::Setx { path, name, .. } => self.touch_extra(path, name),
            Change::Rmx { path, name } => self.touch_extra(path, name),
            Change::Fix { path } => self.touch_made(path),
            Change::Unfix { path } => self.touch_made(path),
        }
    }

    // How many numbers a change with these touches draws.
    pub(crate) fn numbers(&self, change: &Change, touched: &Touches) -> u64
        requires { touched.now ≡ touches self.now change.now }
        ensures { result ≡ numbers self.now change.now }
    {
        self.stamps(change) + touched.as_slice().len() as u64
    }

    // How many stamps a change draws.
    fn stamps(&self, change: &Change) -> u64
        ensures value { result ≡ stamps self.now change.now }
        ensures few { result ≤ 1 }
    {
        match change {
            Change::Write { .. } => 1,
            Change::Append { .. } => 1,
            Change::Fill { .. } => 1,
            Change::Ln { .. } => 1,
            Change::Chmod { path, .. } => self.attr_stamps(path),
            Change::Chown { path, .. } => self.attr_stamps(path),
            Change::Setx { path, .. } => self.attr_stamps(path),
            Change::Rmx { path, .. } => self.attr_stamps(path),
            Change::Mkdir { .. } => 0,
            Change::Rm { .. } => 0,
            Change::Rmdir { .. } => 0,
            Change::Mv { .. } => 0,
            Change::Fix { .. } => 0,
            Change::Unfix { .. } => 0,
        }
    }

    fn attr_stamps(&self, path: &Path) -> u64
        ensures value { result ≡ attr_stamps self.now path.now }
        ensures few { result ≤ 1 }
    {
        if self.has_folder(path) { 0 } else { 1 }
    }

    // The folder that holds an item.
    fn touch_entry(&self, path: &Path) -> Result<Touches, AllocError>
        ensures { IfOk result (λ touched. touched ≡ plain (parent_of path.now)) }
    {
        let list = vec![in self.alloc(); plain(parent(path)?)]?;
        Ok(Touches::of(list))
    }

    // The folder that holds a path, and all at the path.
    fn touch_made(&self, path: &Path) -> Result<Touches, AllocError>
        ensures { IfOk result (λ touched. touched ≡ plain (parent_of path.now) ++ scan path.now) }
    {
        let list = vec![in self.alloc(); plain(parent(path)?), scan(path.clone()?)]?;
        Ok(Touches::of(list))
    }

    // The folders of a move.
    fn touch_moved(&self, from: &Path, to: &Path) -> Result<Touches, AllocError>
        ensures { IfOk result (λ touched. touched ≡ touches self.now (Mv from.now to.now)) }
    {
        let mut list = vec![in self.alloc(); plain(parent(from)?), plain(parent(to)?)]?;
        if self.has_folder(from) {
            list.push(scan(to.clone()?))?;
        }
        Ok(Touches::of(list))
    }

    // Of other attributes.
    fn touch_attrs(&self, path: &Path) -> Result<Touches, AllocError>
        ensures { IfOk result (λ touched. touched ≡ attr_touches self.now path.now) }
    {
        if !self.has_folder(path) {
            return self.touch_entry(path);
        }
        let list = vec![in self.alloc(); plain(path.clone()?)]?;
        Ok(Touches::of(list))
    }

    // Of an extra attribute.
    fn touch_extra(&self, path: &Path, name: &Name) -> Result<Touches, AllocError>
        ensures { IfOk result (λ touched. touched ≡ extra_touches self.now path.now name.now) }
    {
        if !is_exclusion(name) {
            self.touch_attrs(path)
        } else if self.has_folder(path) {
            self.touch_made(path)
        } else {
            self.touch_entry(path)
        }
    }
}
