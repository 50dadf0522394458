//! The attributes of an item.
ghost use Rattle.std.specs.Prelude.{◌≡◌, ◌↔◌, ◌≤◌, ◌<◌, ℕ, [], IsTrue, IfOk, OnOk, OnErr, is_some, length};
ghost use Rattle.std.specs.List.{list_any};
ghost use Rattle.std.specs.Map.{keys_of};
ghost use Rattle.std.specs.Option.{option_copied};
ghost use Rattle.tm_tree.specs.Extras.{value_of, with_extra, without_extra};
ghost use Rattle.tm_base.specs.Paths.{same_name};
ghost use Rattle.tm_tree.specs.Items.{exclusion, new_attrs, same_attrs, same_extras};

use std::alloc::{AllocError, Global};
use std::collections::BTreeMap;
use std::marker::Model;
use tm_base::{Moment, Name};
use tm_world::Bytes;

// The name of the attribute that excludes an item from backups.
const EXCLUSION: &[u8] = b"com.apple.metadata:com_apple_backup_excludeItem";

/// Whether this names the attribute that excludes an item from backups. It takes no memory.
pub fn is_exclusion(name: &Name) -> bool
    ensures { result ≡ same_name name.now exclusion }
{
    name.as_bytes() == EXCLUSION
}

fn has_exclusion(values: &BTreeMap<Name, Bytes>) -> bool
    ensures { result ≡ list_any (λ name. same_name name exclusion) (keys_of values.now.entries) }
{
    values.keys().any(|name| is_exclusion(name))
}

/// The extra attributes of an item: a value of bytes by name.
///
/// Seen as the list of (name, value) by rising name.
#[derive(Drop)]
pub struct Extras {
    values: BTreeMap<Name, Bytes>,
}

impl Model for Extras {
    ghost use Rattle.std.specs.Prelude.{List, ℕ};

    ghost Value = { List (List ℕ × List ℕ) };

    ghost view = { λ e. e.values.entries };
}

impl Extras {
    /// No extras. It takes no memory.
    pub fn new(alloc: Global) -> Extras
        ensures { result ≡ [] }
    {
        Extras {
            values: BTreeMap::new(alloc),
        }
    }

    /// How many there are. It takes no memory.
    pub fn len(&self) -> usize
        ensures { result ≡ length self.now }
    {
        self.values.len()
    }

    /// Whether there are none. It takes no memory.
    pub fn is_empty(&self) -> bool
        ensures { IsTrue result ↔ (length self.now ≡ 0) }
    {
        self.values.len() == 0
    }

    /// The value under a name; none exactly where the name isn't there. It takes no memory.
    pub fn get(&self, name: &Name) -> Option<&Bytes>
        ensures { option_copied result ≡ value_of name.now self.now }
    {
        self.values.get(name)
    }

    /// Whether the exclusion attribute is among them. It takes no memory.
    pub fn has_exclusion(&self) -> bool
        ensures { result ≡ is_some (value_of exclusion self.now) }
    {
        has_exclusion(&self.values)
    }

    /// Sets the value under a name; where memory is refused, the extras stay as they were.
    pub fn put(&mut self, name: Name, value: Bytes) -> Result<(), AllocError>
        ensures ok { OnOk result (self.new ≡ with_extra name value self.old) }
        ensures err { OnErr result (self.new ≡ self.old) }
    {
        self.values.insert(name, value)?;
        Ok(())
    }

    /// Removes what stands under a name, if anything does. It takes no memory.
    pub fn remove(&mut self, name: &Name)
        ensures { self.new ≡ without_extra name.now self.old }
    {
        let _ = self.values.remove(name);
    }

    /// Whether the other extras have the same names and values. It takes no memory.
    pub fn is_same(&self, other: &Extras) -> bool
        ensures { result ≡ same_extras self.now other.now }
    {
        let mut others = other.values.iter();
        for (name, value) in &self.values {
            let Some((other_name, other_value)) = others.next() else {
                return false;
            };
            if *name != *other_name || value.as_slice() != other_value.as_slice() {
                return false;
            }
        }
        others.next().is_none()
    }

    /// The extras by rising name. It takes no memory.
    pub fn values(&self) -> &BTreeMap<Name, Bytes>
        ensures { result.now.entries ≡ self.now }
    {
        &self.values
    }
}

impl Clone for Extras {
    ghost is_clone = { λ extras copy. copy ≡ extras };

    fn clone(&self) -> Result<Extras, AllocError> {
        Ok(Extras {
            values: self.values.clone()?,
        })
    }
}

/// The attributes that every item has.
#[derive(Drop)]
pub struct Attrs {
    /// Permission bits, at most 0o7777.
    pub mode: u16,
    /// The owning user.
    pub uid: u32,
    /// The owning group.
    pub gid: u32,
    /// When the contents last changed; of a folder, when an entry was made, removed or moved.
    pub modified: Moment,
    /// At most 16, each value of at most 4,096 bytes.
    pub extra: Extras,
}

impl Attrs {
    /// The attributes of a new item: user 501, group 20 and no extras. It takes no memory.
    pub fn new(alloc: Global, mode: u16, moment: Moment) -> Attrs
        ensures { result ≡ new_attrs mode moment }
    {
        Attrs {
            mode,
            uid: 501,
            gid: 20,
            modified: moment,
            extra: Extras::new(alloc),
        }
    }

    /// Whether all of them are the same. It takes no memory.
    pub fn is_same(&self, other: &Attrs) -> bool
        ensures { result ≡ same_attrs self.now other.now }
    {
        self.mode == other.mode
            && self.uid == other.uid
            && self.gid == other.gid
            && self.modified == other.modified
            && self.extra.is_same(&other.extra)
    }
}

impl Clone for Attrs {
    ghost is_clone = { λ attrs copy. copy ≡ attrs };

    fn clone(&self) -> Result<Attrs, AllocError> {
        Ok(Attrs {
            mode: self.mode,
            uid: self.uid,
            gid: self.gid,
            modified: self.modified,
            extra: self.extra.clone()?,
        })
    }
}
