//! The plain store and its snapshots.
ghost use Rattle.std.specs.Prelude.{◌≡◌, ◌^◌, ◌<◌, ◌==◌, find, IfOk, OnOk, OnErr};
ghost use Rattle.std.specs.Option.{option_copied};
ghost use Rattle.tm_tree.specs.Copies.{copy};
ghost use Rattle.tm_tree.specs.Lookups.{snapshot_at, snapshot_under};
ghost use Rattle.tm_plain.specs.Backups.{seen_source, snapshot_of, completed};
ghost use Rattle.tm_tree.specs.States.{base, latest, new_store};

use crate::labelled::LabelledTree;
use crate::tree::Tree;
use std::alloc::{AllocError, Global};
use std::marker::Model;
use tm_base::{Moment, Name};

/// What one backup kept: when it was started, of which volume, how far that volume's journal had
/// come, and the labelled copy.
///
/// Seen as the snapshot's state.
#[derive(Drop)]
pub struct Snapshot {
    date: Moment,
    volume: Name,
    id: u128,
    generation: u64,
    cursor: u64,
    tree: LabelledTree,
}

impl Model for Snapshot {
    ghost use Rattle.tm_tree.specs.States.{Snapshot};

    ghost Value = { Snapshot };

    ghost view = { λ s. record {
      date = s.date;
      volume = s.volume;
      id = s.id;
      generation = s.generation;
      cursor = s.cursor;
      tree = s.tree;
    } };
}

impl Snapshot {
    /// When the backup was started. It takes no memory.
    pub fn date(&self) -> Moment
        ensures { result ≡ self.now.date }
    {
        self.date
    }

    /// The name of the volume. It takes no memory.
    pub fn volume(&self) -> &Name
        ensures { result.now ≡ self.now.volume }
    {
        &self.volume
    }

    /// The id of the volume. It takes no memory.
    pub fn id(&self) -> u128
        ensures { result ≡ self.now.id }
    {
        self.id
    }

    /// The generation of the volume's journal. It takes no memory.
    pub fn generation(&self) -> u64
        ensures { result ≡ self.now.generation }
    {
        self.generation
    }

    /// The last number that the volume had drawn. It takes no memory.
    pub fn cursor(&self) -> u64
        ensures { result ≡ self.now.cursor }
    {
        self.cursor
    }

    /// The labelled copy of the volume's view. It takes no memory.
    pub fn tree(&self) -> &LabelledTree
        ensures { result.now ≡ self.now.tree }
    {
        &self.tree
    }
}

/// What a backup takes of a volume.
#[derive(Clone, Copy)]
pub struct Source<'a> {
    /// The volume's name.
    pub name: &'a Name,
    /// Its id.
    pub id: u128,
    /// The generation of its journal.
    pub generation: u64,
    /// The number that it draws next.
    pub next: u64,
    /// Its tree without the exclusions.
    pub view: &'a Tree,
}

/// A store: the machine's name, the number of the next backup, and the snapshots by rising date.
///
/// Seen as the store's state.
#[derive(Drop)]
pub struct Store {
    alloc: Global,
    machine: Name,
    number: u64,
    snapshots: Vec<Snapshot>,
}

impl Model for Store {
    ghost use Rattle.tm_tree.specs.States.{StoreState};

    ghost Value = { StoreState };

    ghost view = { λ s. record {
      machine = s.machine;
      number = s.number;
      snapshots = s.snapshots.items;
    } };
}

impl Store {
    /// A new store without snapshots; its backups are numbered from 1.
    pub fn new(alloc: Global, machine: &Name) -> Result<Store, AllocError>
        ensures { IfOk result (λ store. store ≡ new_store machine.now) }
    {
        Ok(Store {
            alloc,
            machine: machine.clone()?,
            number: 1,
            snapshots: Vec::new(alloc),
        })
    }

    /// The machine's name. It takes no memory.
    pub fn machine(&self) -> &Name
        ensures { result.now ≡ self.now.machine }
    {
        &self.machine
    }

    /// The number of the next backup. It takes no memory.
    pub fn number(&self) -> u64
        ensures { result ≡ self.now.number }
    {
        self.number
    }

    /// The snapshots by rising date. It takes no memory.
    pub fn snapshots(&self) -> &[Snapshot]
        ensures { result.now ≡ self.now.snapshots }
    {
        self.snapshots.as_slice()
    }

    /// The last snapshot, if there is one. It takes no memory.
    pub fn latest(&self) -> Option<&Snapshot>
        ensures { option_copied result ≡ latest self.now }
    {
        self.snapshots.last()
    }

    /// The snapshot under the machine's name with this date, or the last one where no date is given;
    /// none where there is none, or where that isn't the machine's name. It takes no memory.
    pub fn snapshot_at(&self, machine: &Name, at: Option<Moment>) -> Option<&Snapshot>
        ensures { option_copied result ≡ snapshot_at self.now machine.now at }
    {
        if *machine != self.machine {
            return None;
        }
        match at {
            None => self.latest(),
            Some(date) => dated(&self.snapshots, date),
        }
    }

    /// The same, and none where that snapshot is of a volume of another name. It takes no memory.
    pub fn snapshot_under(
        &self,
        machine: &Name,
        at: Option<Moment>,
        volume: &Name,
    ) -> Option<&Snapshot>
        ensures { option_copied result ≡ snapshot_under self.now machine.now at volume.now }
    {
        let snapshot = self.snapshot_at(machine, at)?;
        if *volume == snapshot.volume {
            Some(snapshot)
        } else {
            None
        }
    }

    /// Finishes a backup of a volume that was started at `date`: a new snapshot has the labelled copy
    /// of the view, over the last snapshot's tree if that is of this volume, and else over none.
    /// Where memory is refused, the store stays as it was.
    ///
    /// A caller asks first whether a number is left, which is refused as
    /// [`Refused::IdsSpent`](tm_base::Refused::IdsSpent).
    pub fn complete(&mut self, source: &Source<'_>, date: Moment) -> Result<(), AllocError>
        requires { self.old.number < 2 ^ 40 }
        ensures ok { OnOk result (self.new ≡ completed self.old (seen_source source.now) date) }
        ensures err { OnErr result (self.new ≡ self.old) }
    {
        let snapshot = self.snapshot_of(source, date)?;
        self.snapshots.push(snapshot)?;
        self.number += 1;
        Ok(())
    }

    fn snapshot_of(&self, source: &Source<'_>, date: Moment) -> Result<Snapshot, AllocError>
        ensures { IfOk result (λ snapshot. snapshot ≡ snapshot_of self.now (seen_source source.now) date) }
    {
        Ok(Snapshot {
            date,
            volume: source.name.clone()?,
            id: source.id,
            generation: source.generation,
            cursor: source.next.saturating_sub(1),
            tree: self.copied(source)?,
        })
    }

    fn copied(&self, source: &Source<'_>) -> Result<LabelledTree, AllocError>
        ensures { IfOk result (λ tree. tree ≡ copy self.now.number (base self.now source.now.id) source.now.view.now) }
    {
        let none = LabelledTree::new(self.alloc);
        let base = match self.latest() {
            Some(snapshot) if snapshot.id == source.id => &snapshot.tree,
            _ => &none,
        };
        base.copy(self.number, source.view)
    }
}

// The first snapshot with this date.
fn dated(snapshots: &[Snapshot], date: Moment) -> Option<&Snapshot>
    ensures { option_copied result ≡ find (λ s. s.date == date) snapshots.now }
{
    snapshots.iter().find(|snapshot| snapshot.date == date)
}
