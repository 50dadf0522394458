//! A store in memory.
ghost use Rattle.std.specs.Prelude.{◌≡◌, length, sum_by};
ghost use Rattle.std.specs.Map.{values_of};
ghost use Rattle.tm_identity.specs.Stored.{node_length};
ghost use Rattle.tm_image.specs.Room.{free_of};
ghost use Rattle.tm_store_records.specs.Held.{IsWhole};

use std::alloc::Global;
use std::marker::Model;
use tm_base::{Moment, Name};
use tm_graph::Graph;
use tm_image::Image;
use tm_nodes::spellings_are_found;
use tm_store_records::SnapshotList;

/// A store: the machine's name, the snapshots with the nodes that they share, the date of the
/// backup that runs, and the number of the next backup, on an image.
///
/// Seen as a record of these, of the image, of the date that the image's tag has, and of the blocks
/// of the staged blobs.
#[derive(Drop)]
pub struct Store {
    pub(crate) alloc: Global,
    pub(crate) image: Image,
    pub(crate) graph: Graph,
    pub(crate) machine: Name,
    pub(crate) snapshots: SnapshotList,
    /// The date of the backup that runs.
    pub(crate) running: Option<Moment>,
    /// The date that the tag has. After loading none runs, whatever the tag has.
    pub(crate) stored: Option<Moment>,
    pub(crate) number: u64,
    /// The blocks of the blobs that are staged.
    pub(crate) staged: Vec<u32>,
}

impl Model for Store {
    ghost use Rattle.tm_store_records.specs.Held.{Held};

    ghost Value = { Held };

    ghost view = { λ a. record {
      image = a.image;
      nodes = a.graph;
      machine = a.machine;
      snapshots = a.snapshots;
      running = a.running;
      stored = a.stored;
      number = a.number;
      staged = a.staged.items;
    } };
}

/// What a store holds, in numbers.
#[derive(Clone, Copy, Debug, PartialEq, Eq)]
pub struct Df {
    /// The blocks of the image.
    pub blocks: u64,
    /// The free blocks: neither the gate's, nor the table's, nor of data, nor staged.
    pub free: u64,
    /// The nodes.
    pub nodes: u64,
    /// The bytes of all files, each counted once.
    pub stored: u64,
    /// The snapshots.
    pub snapshots: u64,
}

impl Store {
    /// The nodes of all snapshots. It takes no memory.
    pub fn graph(&self) -> &Graph
        ensures { result.now ≡ self.now.nodes }
    {
        &self.graph
    }

    /// The machine's name. It takes no memory.
    pub fn machine(&self) -> &Name
        ensures { result.now ≡ self.now.machine }
    {
        &self.machine
    }

    /// The number of the next backup. It takes no memory.
    pub fn number(&self) -> u64
        ensures { result ≡ self.now.number }
    {
        self.number
    }

    /// The snapshots by rising date. It takes no memory.
    pub fn snapshots(&self) -> &SnapshotList
        ensures { result.now ≡ self.now.snapshots }
    {
        &self.snapshots
    }

    /// The date of the backup that runs, if one does. It takes no memory.
    pub fn running(&self) -> Option<Moment>
        ensures { result ≡ self.now.running }
    {
        self.running
    }

    /// What it holds, in numbers. It looks at every node, and takes no memory.
    pub fn df(&self) -> Df
        requires { IsWhole self.now }
        ensures blocks { result.blocks ≡ length self.now.image.used }
        ensures free { result.free ≡ free_of self.now.image }
        ensures nodes { result.nodes ≡ length self.now.nodes }
        ensures stored { result.stored ≡ sum_by node_length (values_of self.now.nodes) }
        ensures snapshots { result.snapshots ≡ length self.now.snapshots }
    {
        spellings_are_found();
        Df {
            blocks: u64::from(self.image.total()),
            free: u64::from(self.image.free()),
            nodes: self.graph.len() as u64,
            stored: self.graph.stored_bytes(),
            snapshots: self.snapshots.as_slice().len() as u64,
        }
    }
}
