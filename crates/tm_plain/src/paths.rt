// The folder that holds an item, and paths of what is moved.
ghost use Rattle.std.specs.Prelude.{◌≡◌, ◌≤◌, ◌+◌, ◌-◌, true, false, length, IfOk, MatchOption};
ghost use Rattle.tm_base.specs.Limits.{max_names};
ghost use Rattle.tm_base.specs.Paths.{is_prefix, parent_of};
ghost use Rattle.tm_tree.specs.Trees.{is_child, last_of, rekey};

use std::alloc::AllocError;
use tm_base::{Name, Path};

// The path of the folder that holds what stands here; the root's own path for the root.
pub(crate) fn parent(path: &Path) -> Result<Path, AllocError>
    ensures { IfOk result (λ parent. parent ≡ parent_of path.now) }
{
    path.first(path.names().len().saturating_sub(1))
}

// The name of the item at `path`, if that is an entry of the folder.
pub(crate) fn entry_name<'a>(folder: &Path, path: &'a Path) -> Option<&'a Name>
    ensures { MatchOption result (is_child folder.now path.now ≡ false)
        (λ name. (is_child folder.now path.now ≡ true) × (name.now ≡ last_of path.now)) }
{
    let (name, parent) = path.names().split_last()?;
    if parent == folder.names() {
        Some(name)
    } else {
        None
    }
}

// Whether `path` is that of an entry of the folder.
pub(crate) fn is_child(folder: &Path, path: &Path) -> bool
    ensures { result ≡ is_child folder.now path.now }
{
    entry_name(folder, path).is_some()
}

// The path, where what stands at `from` and beneath is moved to `to`.
pub(crate) fn rekeyed(path: &Path, from: &Path, to: &Path) -> Result<Path, AllocError>
    requires { is_prefix from.now path.now ≡ true → length to.now + (length path.now - length from.now) ≤ max_names }
    ensures { IfOk result (λ moved. moved ≡ rekey from.now to.now path.now) }
{
    if !from.is_prefix_of(path) {
        return path.clone();
    }
    let mut moved = to.clone()?;
    for name in &path.names()[from.names().len()..] {
        moved.push(name.clone()?)?;
    }
    Ok(moved)
}
