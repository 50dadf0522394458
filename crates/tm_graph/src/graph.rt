//! The graph of the nodes.
ghost use Rattle.std.specs.Prelude.{◌≡◌, ◌↔◌, ℕ, ◌<◌, ◌+◌, ◌-◌, ◌≤◌, ◌^◌, IfOk, OnOk, OnErr, IsTrue, IfNone, IfSome, is_some, length, true, None, Some, []};
ghost use Rattle.std.specs.Option.{option_copied, option_map};
ghost use Rattle.tm_graph.specs.Nodes.{IsGraph, MayHold, added, greatest, linked, links_of, node, root_links, stored_in};
ghost use Rattle.tm_graph.specs.Losing.{IsGone, after_loss};
ghost use Rattle.tm_graph.specs.Growing.{MayGrow, grown};
ghost use Rattle.tm_graph.specs.Unlinking.{AreLost, HaveRootLinks, after_losses};

use crate::built::{Gone, NodeRows, RootLosses};
use crate::gains::{add_folder_to, gain, put};
use crate::grow::grow;
use crate::holds::may_hold;
use crate::losses::{apply, collect};
use crate::roots::{links_of, named};
use crate::row::bytes_of;
use std::alloc::{AllocError, Global};
use std::collections::BTreeMap;
use std::marker::Model;
use tm_tree::{Attrs, Entries, LeafRow, NodeBody, NodeId, NodeRow};

/// Shared nodes, each with its links: how many entries and roots name it.
///
/// Seen as the list of its nodes by rising number. Each entry's node is there, below the entry's
/// folder, and has at least as many links as entries that name it; the rest are its root links.
/// Numbers and links are at most 2^62.
#[derive(Drop)]
pub struct Graph {
    nodes: BTreeMap<u64, NodeRow>,
    alloc: Global,
}

impl Model for Graph {
    ghost use Rattle.tm_graph.specs.Nodes.{Nodes, IsGraph};

    ghost Value = { Nodes };

    ghost view = { λ a. a.nodes.entries };

    ghost invariant = { λ a. IsGraph a.nodes.entries };
}

impl Graph {
    /// A graph without nodes. It takes no memory.
    pub fn new(alloc: Global) -> Graph
        ensures { result ≡ [] }
    {
        Graph {
            nodes: BTreeMap::new(alloc),
            alloc,
        }
    }

    /// The graph of these nodes; only want of memory can refuse it.
    pub fn from_nodes(alloc: Global, nodes: NodeRows) -> Result<Graph, AllocError>
        requires { IsGraph nodes }
        ensures { IfOk result (λ graph. graph ≡ nodes) }
    {
        let mut by_number = BTreeMap::new(alloc);
        for (number, row) in nodes.into_list() {
            put(&mut by_number, number.0, row)?;
        }
        Ok(Graph {
            nodes: by_number,
            alloc,
        })
    }

    /// How many nodes there are. It takes no memory.
    pub fn len(&self) -> usize
        ensures count { result ≡ length self.now }
        ensures graph { IsGraph self.now }
    {
        self.nodes.len()
    }

    /// Whether there is none. It takes no memory.
    pub fn is_empty(&self) -> bool
        ensures { IsTrue result ↔ (length self.now ≡ 0) }
    {
        self.nodes.len() == 0
    }

    /// The bytes of all files, each counted once. It takes no memory.
    pub fn stored_bytes(&self) -> u64
        requires { stored_in self.now < 2 ^ 64 }
        ensures { result ≡ stored_in self.now }
    {
        let mut stored = 0;
        for row in self.nodes.values() {
            stored += bytes_of(row);
        }
        stored
    }

    /// The node of a number; none exactly where there is none. It takes no memory.
    pub fn node(&self, number: NodeId) -> Option<&NodeRow>
        ensures found { option_copied result ≡ node self.now number }
        ensures graph { IsGraph self.now }
    {
        self.nodes.get(&number.0)
    }

    /// How many root links a node has, 0 where it isn't there: its links less the entries that name it.
    /// It looks at every entry, and takes no memory.
    pub fn root_links(&self, number: NodeId) -> u64
        ensures { result ≡ root_links self.now number }
    {
        links_of(&self.nodes, number.0) - named(&self.nodes, number.0)
    }

    /// The greatest number in use, 0 in an empty graph. It takes no memory.
    pub fn greatest(&self) -> u64
        ensures number { result ≡ greatest self.now }
        ensures above { (q : ℕ) → is_some (node self.now q) ≡ true → q ≤ result }
    {
        match self.nodes.last_key_value() {
            Some((number, _)) => *number,
            None => 0,
        }
    }

    /// The node with the least number that isn't below `least`. It takes no memory.
    pub fn node_from(&self, least: u64) -> Option<NodeId>
        ensures none { IfNone result ((q : ℕ) → least ≤ q → node self.now q ≡ None) }
        ensures there { IfSome result (λ number. is_some (node self.now number) ≡ true) }
        ensures from { IfSome result (λ number. least ≤ number) }
        ensures first { IfSome result (λ number. (q : ℕ) → least ≤ q → q < number
            → node self.now q ≡ None) }
    {
        match self.nodes.range(least..).next() {
            Some((number, _)) => Some(NodeId(*number)),
            None => None,
        }
    }

    /// Adds a file or link after the greatest number, with no links yet, and gives its number. Where
    /// memory is refused, the graph stays as it was.
    pub fn add_file(&mut self, label: u64, row: LeafRow) -> Result<NodeId, AllocError>
        requires { greatest self.old < 2 ^ 62 }
        ensures number { IfOk result (λ number. number ≡ greatest self.old + 1) }
        ensures ok { OnOk result (self.new ≡ added self.old label (NodeBody.Leaf row)) }
        ensures err { OnErr result (self.new ≡ self.old) }
    {
        let number = self.greatest() + 1;
        let row = NodeRow {
            label,
            links: 0,
            body: NodeBody::Leaf(row),
        };
        put(&mut self.nodes, number, row)?;
        Ok(NodeId(number))
    }

    /// Whether a new folder may have these entries: names rise, and each entry's node is there and may
    /// have so many links more. Only want of memory can refuse the answer.
    pub fn may_hold(&self, entries: &Entries) -> Result<bool, AllocError>
        ensures { IfOk result (λ may. IsTrue may ↔ MayHold self.now entries.now) }
    {
        may_hold(self.alloc, &self.nodes, entries.as_slice())
    }

    /// Adds a folder after the greatest number, with no links yet, and gives its number; each entry
    /// is a link more of its node. Where memory is refused, the graph stays as it was.
    pub fn add_folder(
        &mut self,
        label: u64,
        attrs: Attrs,
        entries: Entries,
    ) -> Result<NodeId, AllocError>
        requires low { greatest self.old < 2 ^ 62 }
        requires entries { MayHold self.old entries }
        ensures number { IfOk result (λ number. number ≡ greatest self.old + 1) }
        ensures ok { OnOk result (self.new ≡ added self.old label (NodeBody.Folder attrs entries)) }
        ensures err { OnErr result (self.new ≡ self.old) }
    {
        let number = self.greatest() + 1;
        add_folder_to(self.alloc, &mut self.nodes, number, label, attrs, entries)?;
        Ok(NodeId(number))
    }

    /// A root link more of a node. It takes no memory.
    pub fn link_root(&mut self, number: NodeId)
        requires there { is_some (node self.old number) ≡ true }
        requires few { links_of self.old number < 2 ^ 62 }
        ensures linked { self.new ≡ linked self.old number }
        ensures root { root_links self.new number ≡ root_links self.old number + 1 }
    {
        gain(&mut self.nodes, number.0);
    }

    /// Adds nodes that are numbered one by one after the greatest, and a root link of one of all; each
    /// node has a link more for each new entry that names it. Where memory is refused, the graph stays
    /// as it was.
    pub fn grow(&mut self, new: NodeRows, root: NodeId) -> Result<(), AllocError>
        requires { MayGrow self.old new root }
        ensures ok { OnOk result (self.new ≡ grown self.old new root) }
        ensures err { OnErr result (self.new ≡ self.old) }
    {
        grow(self.alloc, &mut self.nodes, new.into_list(), root.0)
    }

    /// A root link fewer of a node. The nodes that then have no links go, downwards, and are given;
    /// where memory is refused, the graph stays as it was.
    pub fn unlink_root(&mut self, root: NodeId) -> Result<Gone, AllocError>
        requires { 0 < root_links self.old root }
        ensures gone { IfOk result (λ gone. IsGone self.old root gone) }
        ensures left { IfOk result (λ gone. self.new ≡ after_loss self.old root gone) }
        ensures err { OnErr result (self.new ≡ self.old) }
    {
        let losses = collect(self.alloc, &self.nodes, &[root])?;
        apply(&mut self.nodes, losses.counts);
        Ok(Gone::of(losses.gone))
    }

    /// Root links fewer of these nodes, one each time that a node is listed. The nodes that then have
    /// no links go, downwards; they are given, and so are those that are left with fewer links. Its
    /// cost is in these and their entries. Where memory is refused, the graph stays as it was.
    pub fn unlink_roots(&mut self, roots: &[NodeId]) -> Result<RootLosses, AllocError>
        requires { HaveRootLinks self.old roots.now }
        ensures lost { IfOk result (λ lost. AreLost self.old roots.now lost.gone lost.thinned) }
        ensures left { IfOk result (λ lost. self.new ≡ after_losses self.old roots.now lost.gone) }
        ensures err { OnErr result (self.new ≡ self.old) }
    {
        let losses = collect(self.alloc, &self.nodes, roots)?;
        apply(&mut self.nodes, losses.counts);
        Ok(RootLosses {
            gone: Gone::of(losses.gone),
            thinned: Gone::of(losses.thinned),
        })
    }
}
