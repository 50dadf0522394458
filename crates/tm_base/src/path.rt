//! The path of an item, from the root of its volume down.
ghost use Rattle.std.specs.Prelude.{◌≡◌, ℕ, ◌<◌, ◌≤◌, ◌↔◌, ◌++◌, ◌∷◌, [], List, length, nat_eq, take, IsTrue, IfOk, IsErrOf, OnOk, OnErr, IsOk, MatchOption, true, false};
ghost use Rattle.std.proofs.Common.{rules};
ghost use Rattle.std.specs.Cmp.{partial_order_from_own_ties};
ghost use Rattle.std.specs.Cmp.Rules.{comparing, hashing};
ghost use Rattle.std.specs.Cmp.Lexicographic.{slice_cmp, pointwise};
ghost use Rattle.std.specs.Ordering.{nat_cmp, as_partial_cmp};
ghost use Rattle.tm_base.specs.Limits.{max_names};
ghost use Rattle.tm_base.specs.Paths.{Names, path_cmp, path_ties, same_path, is_prefix, is_root, parent_of};

use crate::limits::MAX_NAMES;
use crate::name::Name;
use std::alloc::{AllocError, AllocFailed, Global};
use std::cmp::Ordering;
use std::marker::Model;
use thiserror::Error;

/// Why a path was not made.
#[derive(Clone, Copy, Debug, PartialEq, Eq, Error)]
pub enum PathError {
    /// The path would have more than 64 names.
    #[error("more than 64 names")]
    TooDeep,
    /// Memory was refused.
    #[error("out of memory")]
    Memory,
}

impl From<AllocError> for PathError {
    ghost use Rattle.tm_base.specs.declared.path.PathError.TheVariants.{Memory};

    ghost from_gives = { λ _ error. error ≡ Memory };

    fn from(_error: AllocError) -> PathError {
        PathError::Memory
    }
}

impl<T: Drop> From<AllocFailed<T>> for PathError {
    ghost use Rattle.tm_base.specs.declared.path.PathError.TheVariants.{Memory};

    ghost from_gives = { λ _ error. error ≡ Memory };

    fn from(_error: AllocFailed<T>) -> PathError {
        PathError::Memory
    }
}

/// A path of at most 64 names; the root has none.
///
/// Seen as the list of its names. Paths are ordered as lists of names, so that an ancestor comes
/// before what stands beneath it.
#[derive(Drop)]
pub struct Path {
    names: Vec<Name>,
}

impl Model for Path {
    ghost use Rattle.std.specs.Prelude.{List, ℕ, ◌≤◌, length};
    ghost use Rattle.tm_base.specs.Limits.{max_names};

    ghost Value = { List (List ℕ) };

    ghost view = { λ p. p.names.items };

    ghost invariant = { λ p. length p.names.items ≤ max_names };
}

impl Path {
    /// The path of the root. It takes no memory.
    pub fn root(alloc: Global) -> Path
        ensures { result ≡ [] }
    {
        Path {
            names: Vec::new(alloc),
        }
    }

    /// The names, from the root down. It takes no memory.
    pub fn names(&self) -> &[Name]
        ensures names { result.now ≡ self.now }
        ensures short { length self.now ≤ max_names }
    {
        self.names.as_slice()
    }

    /// Whether this is the root. It takes no memory.
    pub fn is_root(&self) -> bool
        ensures { result ≡ is_root self.now }
    {
        self.names.len() == 0
    }

    /// Whether no name fits below. It takes no memory.
    pub fn is_full(&self) -> bool
        ensures { IsTrue result ↔ (max_names ≤ length self.now) }
    {
        self.names.len() >= MAX_NAMES
    }

    /// The path of its first `count` names; only want of memory can refuse it.
    pub fn first(&self, count: usize) -> Result<Path, AllocError>
        requires { count ≤ length self.now }
        ensures { IfOk result (λ path. path ≡ take count self.now) }
    {
        let mut names = Vec::new(*self.names.allocator());
        for name in &self.names[..count] {
            names.push(name.clone()?)?;
        }
        Ok(Path { names })
    }

    /// The path of the entry `name` in the folder here; [`PathError::TooDeep`] exactly at 64 names.
    pub fn child(&self, name: &Name) -> Result<Path, PathError>
        ensures deep { IsErrOf result PathError.TooDeep ↔ (max_names ≤ length self.now) }
        ensures value { IfOk result (λ path. path ≡ self.now ++ name.now ∷ []) }
    {
        if self.is_full() {
            return Err(PathError::TooDeep);
        }
        let mut path = self.clone()?;
        path.names.push(name.clone()?)?;
        Ok(path)
    }

    /// Goes down by a name; where memory is refused, the path stays as it was.
    pub fn push(&mut self, name: Name) -> Result<(), AllocError>
        requires { length self.old < max_names }
        ensures ok { OnOk result (self.new ≡ self.old ++ name ∷ []) }
        ensures err { OnErr result (self.new ≡ self.old) }
    {
        self.names.push(name)?;
        Ok(())
    }

    /// The path of the folder that holds what stands here; none exactly for the root.
    pub fn parent(&self) -> Result<Option<Path>, AllocError>
        ensures { IfOk result (λ parent. MatchOption parent (is_root self.now ≡ true)
            (λ parent. (is_root self.now ≡ false) × (parent ≡ parent_of self.now))) }
    {
        match self.names.len() {
            0 => Ok(None),
            count => Ok(Some(self.first(count - 1)?)),
        }
    }

    /// Whether what stands at `other` stands here or beneath. It takes no memory.
    pub fn is_prefix_of(&self, other: &Path) -> bool
        ensures { result ≡ is_prefix self.now other.now }
    {
        other.names.starts_with(&self.names)
    }
}

impl Clone for Path {
    ghost is_clone = { λ path copy. copy ≡ path };

    fn clone(&self) -> Result<Path, AllocError> {
        self.first(self.names.len())
    }
}

impl PartialEq for Path {
    ghost eq = { same_path };

    ghost laws = { Prim.search (comparing, rules) };

    fn eq(&self, other: &Path) -> bool {
        self.names() == other.names()
    }
}

impl Eq for Path {
    ghost laws = { Prim.search (comparing, rules) };
}

impl Ord for Path {
    ghost cmp = { path_cmp };

    ghost total = { Prim.search (comparing, rules) };

    ghost matches_partial_cmp = { Prim.search (comparing, rules) };

    ghost matches_eq = { path_ties };

    fn cmp(&self, other: &Path) -> Ordering {
        self.names().cmp(other.names())
    }
}

impl PartialOrd for Path {
    ghost partial_cmp = { as_partial_cmp path_cmp };

    ghost laws = { partial_order_from_own_ties (Prim.search (comparing, rules)) path_ties };

    fn partial_cmp(&self, other: &Path) -> Option<Ordering> {
        Some(self.cmp(other))
    }
}
