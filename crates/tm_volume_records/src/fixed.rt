//! The paths that are excluded from the backups of a volume.
ghost use Rattle.std.specs.Prelude.{◌≡◌, ◌≤◌, ◌+◌, false, List, [], IfOk, if◌then◌else◌, length, All};
ghost use Rattle.tm_base.specs.IsName.{IsName};
ghost use Rattle.tm_base.specs.Paths.{is_root};
ghost use Rattle.tm_nodes.specs.Answers.{IfBad, Tells};
ghost use Rattle.tm_nodes.specs.Paths.{paths_text, ArePaths};
ghost use Rattle.tm_nodes.specs.Records.{paths_of};
ghost use Rattle.tm_nodes.specs.Spelled.{IsSpelled, IsUnspelled};
ghost use Rattle.tm_tree.specs.Contents.{is_fixed, with_fixed, without_fixed};
ghost use Rattle.tm_base.specs.Limits.{max_fixed};

use std::alloc::{AllocError, Global};
use std::marker::Model;
use tm_base::{Name, Path};
use tm_nodes::{NodeError, paths_data, read_paths};
use tm_tree::PathList;
use tm_world::Bytes;

/// Fixed paths: at most 256 by rising path, none of them the root. Seen as their list.
#[derive(Drop)]
pub struct FixedPaths {
    list: PathList,
}

impl Model for FixedPaths {
    ghost use Rattle.std.specs.Prelude.{List, ℕ};
    ghost use Rattle.tm_nodes.specs.Paths.{ArePaths};

    ghost Value = { List (List (List ℕ)) };

    ghost view = { λ paths. paths.list };

    ghost invariant = { λ paths. ArePaths paths.list };
}

/// The rules that the names of a path keep. It takes no memory.
fn are_names(names: &[Name])
    ensures { All IsName names.now }
{
    for name in names {
        let _ = name.as_bytes();
    }
}

impl FixedPaths {
    /// None. It takes no memory.
    pub fn none(alloc: Global) -> FixedPaths
        ensures { result ≡ [] }
    {
        FixedPaths {
            list: PathList::of(Vec::new(alloc)),
        }
    }

    /// The paths that are these data (`docs/FORMATS.md`, "Records of a volume");
    /// [`NodeError::BadNode`] with the key 1 exactly where the data are none.
    pub fn read(alloc: Global, data: &[u8]) -> Result<FixedPaths, NodeError>
        ensures paths { IfOk result (IsSpelled paths_text ArePaths «data».now) }
        ensures bad { IfBad result (λ k. (k ≡ 1) × IsUnspelled paths_text ArePaths «data».now) }
        ensures told { Tells 1 result (paths_of «data».now) }
    {
        Ok(FixedPaths {
            list: read_paths(alloc, data)?,
        })
    }

    /// Their data; only want of memory can refuse it.
    pub fn to_data(&self, alloc: Global) -> Result<Bytes, AllocError>
        ensures { IfOk result (λ bytes. bytes ≡ paths_text self.now) }
    {
        match paths_data(alloc, &self.list) {
            Ok(bytes) => Ok(bytes),
            Err(_) => Err(AllocError),
        }
    }

    /// Their list, by rising path. It takes no memory.
    pub fn list(&self) -> &PathList
        ensures list { result.now ≡ self.now }
        ensures rules { ArePaths self.now }
    {
        &self.list
    }

    /// Whether a path is one of them. It takes no memory.
    pub fn has(&self, path: &Path) -> bool
        ensures { result ≡ is_fixed self.now path.now }
    {
        let paths = self.list.as_slice();
        paths.iter().any(|fixed| path.cmp(fixed).is_eq())
    }

    /// The paths with this one, which isn't the root; they are at most 256.
    pub fn with(&self, alloc: Global, path: &Path) -> Result<FixedPaths, AllocError>
        requires below { is_root path.now ≡ false }
        requires few { (if is_fixed self.now path.now then length self.now else length self.now + 1) ≤ max_fixed }
        ensures { IfOk result (λ paths. paths ≡ with_fixed self.now path.now) }
    {
        // The names of a path come with the rules that they keep.
        are_names(path.names());
        let mut list = self.list().as_slice().to_vec(alloc)?;
        match list.binary_search(path) {
            Ok(_) => (),
            Err(place) => list.insert(place, path.clone()?)?,
        }
        Ok(FixedPaths {
            list: PathList::of(list),
        })
    }

    /// The paths without this one.
    pub fn without(&self, alloc: Global, path: &Path) -> Result<FixedPaths, AllocError>
        ensures { IfOk result (λ paths. paths ≡ without_fixed self.now path.now) }
    {
        let mut list = self.list().as_slice().to_vec(alloc)?;
        match list.binary_search(path) {
            Ok(place) => drop(list.remove(place)),
            Err(_) => (),
        }
        Ok(FixedPaths {
            list: PathList::of(list),
        })
    }
}
