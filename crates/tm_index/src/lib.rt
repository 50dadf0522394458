//! The number of the item at each place: in a folder, by name.
#![tactic(auto)]

mod names;

ghost use Rattle.std.specs.Prelude.{◌≡◌, ℕ, true, false, Some, None, [], List, IsSome, IfSome, IfNone, OnOk, OnErr};
ghost use Rattle.tm_items.specs.Index.{SetsAt};
ghost use Rattle.tm_items.specs.Listing.{AreEntries};
ghost use Rattle.tm_items.specs.Places.{at_name};
ghost use Rattle.tm_index.specs.Folders.{numbers_in};

use crate::names::{insert_number, remove_number};
use std::alloc::{AllocError, Global};
use std::collections::BTreeMap;
use std::marker::Model;
use tm_base::Name;

/// The numbers of a volume's items by folder and name. A look-up takes no memory.
///
/// Seen as the list of each folder's numbers by rising name, by rising number of the folder.
#[derive(Drop)]
pub struct Index {
    alloc: Global,
    folders: BTreeMap<u64, BTreeMap<Name, u64>>,
}

impl Model for Index {
    ghost use Rattle.std.specs.Prelude.{map};
    ghost use Rattle.tm_index.specs.Folders.{Folders};

    ghost Value = { Folders };

    ghost view = { λ a. map (λ row. (row.0, row.1.entries)) a.folders.entries };
}

impl Index {
    /// An index without numbers. It takes no memory.
    pub fn new(alloc: Global) -> Index
        ensures { result ≡ [] }
    {
        Index {
            alloc,
            folders: BTreeMap::new(alloc),
        }
    }

    /// The number at a name in a folder, if one is there. It takes no memory.
    pub fn get(&self, parent: u64, name: &Name) -> Option<u64>
        ensures { result ≡ numbers_in self.now (at_name parent name.now) }
    {
        match self.folders.get(&parent) {
            Some(named) => named.get(name).copied(),
            None => None,
        }
    }

    /// Sets the number at a name in a folder, in place of the one that is there. Where memory is
    /// refused, the index is as before.
    pub fn insert(&mut self, parent: u64, name: Name, number: u64) -> Result<(), AllocError>
        ensures ok { OnOk result (SetsAt (at_name parent name) (Some number) (numbers_in self.old) (numbers_in self.new)) }
        ensures err { OnErr result (self.new ≡ self.old) }
    {
        insert_number(self.alloc, &mut self.folders, parent, name, number)
    }

    /// Takes the number at a name in a folder out, if one is there. It takes no memory.
    pub fn remove(&mut self, parent: u64, name: &Name)
        ensures { SetsAt (at_name parent name.now) None (numbers_in self.old) (numbers_in self.new) }
    {
        remove_number(&mut self.folders, parent, name);
    }

    /// The numbers of a folder by rising name; none only where no name of the folder has a number.
    /// It takes no memory.
    pub fn folder(&self, parent: u64) -> Option<&BTreeMap<Name, u64>>
        ensures entries { IfSome result (λ named. AreEntries (numbers_in self.now) parent named.now.entries) }
        ensures none { IfNone result (AreEntries (numbers_in self.now) parent []) }
    {
        match self.folders.get(&parent) {
            Some(named) => {
                // A map's length comes with the order of its keys.
                let _ = named.len();
                Some(named)
            }
            None => None,
        }
    }

    /// Whether no name of a folder has a number. It takes no memory.
    pub fn is_empty(&self, parent: u64) -> bool
        ensures empty { result ≡ true → (name : List ℕ) → numbers_in self.now (at_name parent name) ≡ None }
        ensures not_empty { result ≡ false → (name : List ℕ) × IsSome (numbers_in self.now (at_name parent name)) }
    {
        match self.folders.get(&parent) {
            Some(named) => named.is_empty(),
            None => true,
        }
    }
}

#[cfg(test)]
mod tests;
