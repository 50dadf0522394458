//! The name of an item, of a volume or of a machine.
ghost use Rattle.std.specs.Prelude.{◌≡◌, ◌≢◌, ℕ, ◌≤◌, ◌↔◌, List, length, nat_eq, IfOk, IsTrue, OnOk, IsErrOf, All, IsUtf8, codes};
ghost use Rattle.tm_base.specs.IsName.{IsName};
ghost use Rattle.std.proofs.Common.{rules};
ghost use Rattle.std.specs.Cmp.{partial_order_from_own_ties};
ghost use Rattle.std.specs.Cmp.Rules.{comparing, hashing};
ghost use Rattle.std.specs.Cmp.Lexicographic.{slice_cmp, pointwise};
ghost use Rattle.std.specs.Ordering.{nat_cmp, as_partial_cmp};

use crate::limits::MAX_NAME_BYTES;
use std::alloc::{AllocError, Global};
use std::cmp::Ordering;
use std::marker::Model;
use thiserror::Error;

/// Why bytes did not become a name.
#[derive(Clone, Copy, Debug, PartialEq, Eq, Error)]
pub enum NameError {
    /// The bytes are no name.
    #[error("not a name")]
    BadName,
    /// Memory was refused.
    #[error("out of memory")]
    Memory,
}

impl From<AllocError> for NameError {
    ghost use Rattle.tm_base.specs.declared.name.NameError.TheVariants.{Memory};

    ghost from_gives = { λ _ error. error ≡ Memory };

    fn from(_error: AllocError) -> NameError {
        NameError::Memory
    }
}

/// A name: 1 to 255 bytes of UTF-8 without `/` and NUL, other than `.` and `..`.
///
/// Seen as its bytes. Names are ordered by their bytes.
#[derive(Drop)]
pub struct Name {
    bytes: Vec<u8>,
}

impl Model for Name {
    ghost use Rattle.std.specs.Prelude.{List, ℕ};
    ghost use Rattle.tm_base.specs.IsName.{IsName};

    ghost Value = { List ℕ };

    ghost view = { λ n. n.bytes.items };

    ghost invariant = { λ n. ∥ IsName n.bytes.items ∥₁ };
}

fn is_name(bytes: &[u8]) -> bool
    ensures { IsTrue result ↔ IsName bytes.now }
{
    !bytes.is_empty()
        && bytes.len() <= MAX_NAME_BYTES
        && str::from_utf8(bytes).is_ok()
        && bytes.iter().all(|b| *b != b'/' && *b != 0)
        && bytes != b".".as_slice()
        && bytes != b"..".as_slice()
}

impl Name {
    /// The name that these bytes are; [`NameError::BadName`] exactly where they are none.
    pub fn read(alloc: Global, bytes: &[u8]) -> Result<Name, NameError>
        ensures bad { IsErrOf result NameError.BadName ↔ (IsName bytes.now → ⊥) }
        ensures value { IfOk result (λ name. name ≡ bytes.now) }
        ensures name { OnOk result (IsName bytes.now) }
    {
        if !is_name(bytes) {
            return Err(NameError::BadName);
        }
        Ok(Name {
            bytes: bytes.to_vec(alloc)?,
        })
    }

    /// The bytes of the name. It takes no memory.
    pub fn as_bytes(&self) -> &[u8]
        ensures value { result.now ≡ self.now }
        ensures name { ∥ IsName self.now ∥₁ }
    {
        self.bytes.as_slice()
    }
}

impl Clone for Name {
    ghost is_clone = { λ name copy. copy ≡ name };

    fn clone(&self) -> Result<Name, AllocError> {
        Ok(Name {
            bytes: self.bytes.to_vec(*self.bytes.allocator())?,
        })
    }
}

impl PartialEq for Name {
    ghost eq = { pointwise nat_eq };

    ghost laws = { Prim.search (comparing, rules) };

    fn eq(&self, other: &Name) -> bool {
        self.as_bytes() == other.as_bytes()
    }
}

impl Eq for Name {
    ghost laws = { Prim.search (comparing, rules) };
}

impl Ord for Name {
    ghost cmp = { slice_cmp nat_cmp };

    ghost total = { Prim.search (comparing, rules) };

    ghost matches_partial_cmp = { Prim.search (comparing, rules) };

    ghost matches_eq = { Prim.search (comparing, rules) };

    fn cmp(&self, other: &Name) -> Ordering {
        self.as_bytes().cmp(other.as_bytes())
    }
}

impl PartialOrd for Name {
    ghost partial_cmp = { as_partial_cmp (slice_cmp nat_cmp) };

    ghost laws = { partial_order_from_own_ties (Prim.search (comparing, rules))
        (Prim.search (comparing, rules)) };

    fn partial_cmp(&self, other: &Name) -> Option<Ordering> {
        Some(self.cmp(other))
    }
}
