//! What a change touches.
ghost use Rattle.std.specs.Prelude.{◌≡◌, ◌++◌, ℕ, [], List, IfOk, if◌then◌else◌};
ghost use Rattle.tm_base.specs.Paths.{parent_of, same_name};
ghost use Rattle.tm_tree.specs.Items.{exclusion};
ghost use Rattle.tm_tree.specs.Touches.{plain, scan, touches};
ghost use Rattle.tm_tree.specs.Trees.{folder_at};
ghost use Rattle.tm_volume.specs.Seen.{tree_on};

use crate::destination::parent;
use std::alloc::{AllocError, Global};
use tm_base::{Name, Path};
use tm_tree::{Change, Touch, Touches, is_exclusion};
use tm_volume::Volume;

/// The folder alone.
fn plain(path: Path) -> Touch
    ensures { result ≡ record { path = path; flags = 0 } }
{
    Touch { path, flags: 0 }
}

/// The folder and all beneath it.
fn scan(path: Path) -> Touch
    ensures { result ≡ record { path = path; flags = 1 } }
{
    Touch { path, flags: 1 }
}

/// The folder that holds a path.
fn touch_entry(alloc: Global, path: &Path) -> Result<Touches, AllocError>
    ensures { IfOk result (λ touched. touched ≡ plain (parent_of path.now)) }
{
    let list = vec![in alloc; plain(parent(path)?)]?;
    Ok(Touches::of(list))
}

/// The folder that holds a path, and all at the path.
fn touch_all(alloc: Global, path: &Path) -> Result<Touches, AllocError>
    ensures { IfOk result (λ touched. touched ≡ plain (parent_of path.now) ++ scan path.now) }
{
    let list = vec![in alloc; plain(parent(path)?), scan(path.clone()?)]?;
    Ok(Touches::of(list))
}

/// The folders of a move, of a folder or not.
fn touch_moved(alloc: Global, from: &Path, to: &Path, folder: bool) -> Result<Touches, AllocError>
    ensures { IfOk result (λ touched. touched ≡ plain (parent_of from.now) ++ plain (parent_of to.now) ++ (if folder then scan to.now else [])) }
{
    let mut list = vec![in alloc; plain(parent(from)?), plain(parent(to)?)]?;
    if folder {
        list.push(scan(to.clone()?))?;
    }
    Ok(Touches::of(list))
}

/// The touches of other attributes of an item that is a folder or isn't.
fn touch_attrs(alloc: Global, path: &Path, folder: bool) -> Result<Touches, AllocError>
    ensures { IfOk result (λ touched. touched ≡ (if folder then plain path.now else plain (parent_of path.now))) }
{
    if folder {
        let list = vec![in alloc; plain(path.clone()?)]?;
        Ok(Touches::of(list))
    } else {
        touch_entry(alloc, path)
    }
}

/// The touches of an extra attribute of an item that is a folder or isn't.
fn touch_extra(alloc: Global, path: &Path, name: &Name, folder: bool) -> Result<Touches, AllocError>
    ensures { IfOk result (λ touched. touched ≡ (if same_name name.now exclusion
        then (if folder then plain (parent_of path.now) ++ scan path.now else plain (parent_of path.now))
        else (if folder then plain path.now else plain (parent_of path.now)))) }
{
    if !is_exclusion(name) {
        touch_attrs(alloc, path, folder)
    } else if folder {
        touch_all(alloc, path)
    } else {
        touch_entry(alloc, path)
    }
}

/// Whether a folder stands at a path. It takes no memory.
pub(crate) fn has_folder(volume: &Volume, path: &Path) -> bool
    ensures { (bytes : ℕ → List ℕ) → result ≡ folder_at (tree_on volume.now bytes) path.now }
{
    volume.rules();
    match volume.number_at(path) {
        Ok(number) => volume.is_folder(number),
        Err(_) => false,
    }
}

/// What a change touches, in the order in which it draws numbers.
pub(crate) fn touched_by(volume: &Volume, change: &Change) -> Result<Touches, AllocError>
    ensures { IfOk result (λ touched. (bytes : ℕ → List ℕ) → touched ≡ touches (tree_on volume.now bytes) change.now) }
{
    let alloc = volume.alloc();
    match change {
        Change::Mkdir { path } | Change::Fix { path } | Change::Unfix { path } => {
            touch_all(alloc, path)
        }
        Change::Write { path, .. }
        | Change::Append { path, .. }
        | Change::Fill { path, .. }
        | Change::Rm { path }
        | Change::Rmdir { path }
        | Change::Ln { path, .. } => touch_entry(alloc, path),
        Change::Mv { path, to } => touch_moved(alloc, path, to, has_folder(volume, path)),
        Change::Chmod { path, .. } | Change::Chown { path, .. } => {
            touch_attrs(alloc, path, has_folder(volume, path))
        }
        Change::Setx { path, name, .. } | Change::Rmx { path, name } => {
            touch_extra(alloc, path, name, has_folder(volume, path))
        }
    }
}
