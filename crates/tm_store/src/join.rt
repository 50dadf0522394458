//! What a backup built, in memory before its commit.
ghost use Rattle.std.specs.Prelude.{◌≡◌, ◌==◌, ◌<◌, ◌≤◌, ◌^◌, not, filter, IfOk, OnOk, length};
ghost use Rattle.std.specs.List.{list_any};
ghost use Rattle.tm_base.specs.Limits.{max_nodes};
ghost use Rattle.tm_graph.specs.declared.built.Built.{Built as What};
ghost use Rattle.tm_graph.specs.Nodes.{IsGraph, greatest, root_links};
ghost use Rattle.tm_graph.specs.Growing.{MayGrow, grown};
ghost use Rattle.tm_store_records.specs.declared.snapshot.Snapshot.{Snapshot as Row};
ghost use Rattle.tm_store_records.specs.Held.{Held};
ghost use Rattle.tm_snapshot.specs.Puts.{all_puts, built_blocks};
ghost use Rattle.tm_snapshot.specs.Completing.{count_after};
ghost use Rattle.tm_snapshot.specs.Growth.{HaveRecords, MayJoin};
ghost use Rattle.tm_store.specs.Joining.{joined};

use crate::Store;
use std::alloc::AllocError;
use tm_graph::{Built, growth_is_undone};
use tm_records::Put;
use tm_snapshot::{all_records, leftover};
use tm_store_records::Snapshot;
use tm_tree::NodeId;

/// What a commit of a finished backup takes: the records that it puts, and the staged blocks that
/// stand in none of them.
#[derive(Drop)]
pub(crate) struct Joined {
    pub(crate) put: Vec<Put>,
    pub(crate) left: Vec<u32>,
}

impl Store {
    /// How many nodes there are with these.
    pub(crate) fn count_with(&self, built: &Built) -> u64
        requires { length self.now.nodes ≤ max_nodes }
        ensures { result ≡ count_after self.now built.now }
    {
        self.graph.len() as u64 + built.nodes.as_slice().len() as u64
    }

    /// Adds what was built to the graph, and its snapshot to the others. Where memory is refused, the
    /// store is not to be used again.
    pub(crate) fn join(&mut self, built: Built, snapshot: Snapshot) -> Result<Joined, AllocError>
        requires may { MayGrow self.old.nodes built.nodes built.root }
        requires records { HaveRecords (grown self.old.nodes built.nodes built.root) built.root built.blobs }
        requires root { snapshot.root ≡ built.root }
        requires number { snapshot.number < 2 ^ 62 }
        ensures joined { OnOk result (self.new ≡ joined self.old built snapshot) }
        ensures put { IfOk result (λ taken. taken.put.items ≡ all_puts (grown self.old.nodes built.nodes built.root) (greatest self.old.nodes) (length built.nodes) built.blobs snapshot) }
        ensures left { IfOk result (λ taken. taken.left.items ≡ filter (λ b. not (list_any (λ x. x == b) (built_blocks built.blobs))) self.old.staged) }
    {
        let Built { root, nodes, blobs } = built;
        let last = self.graph.greatest();
        let count = nodes.as_slice().len() as u64;
        let left = leftover(self.alloc, &self.staged, blobs.as_slice())?;
        self.graph.grow(nodes, root)?;
        let put = match all_records(self.alloc, &self.graph, last, count, blobs, &snapshot) {
            Ok(put) => put,
            Err(_) => return Err(AllocError),
        };
        self.snapshots.push(snapshot)?;
        Ok(Joined { put, left })
    }

    /// Takes back what was joined with this root: the store is as it was. Where memory is refused, it
    /// is not to be used again.
    pub(crate) fn part(&mut self, root: NodeId) -> Result<(), AllocError>
        requires { 0 < root_links self.old.nodes root }
        ensures { (h : Held) (built : What) (s : Row) → MayJoin h built → IsGraph h.nodes → root ≡ built.root → self.old ≡ joined h built s → OnOk result (self.new ≡ h) }
    {
        growth_is_undone();
        self.snapshots.take_last();
        self.graph.unlink_root(root)?;
        Ok(())
    }
}
