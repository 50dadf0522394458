//! New nodes of a backup.
ghost use Rattle.std.specs.Prelude.{None, ◌≡◌, ◌+◌, ◌++◌, ◌∷◌, [], ◌<◌, ◌≤◌, ◌^◌, IfOk, OnOk, OnErr, length};
ghost use Rattle.tm_graph.specs.Nodes.{greatest, new_node};
ghost use Rattle.tm_copy.specs.Keeping.{kept_folder, kept_link};
ghost use Rattle.tm_copy.specs.Making.{Adds, IsMaking, begun, file_length, next_number, with_file, with_node};

use crate::keeping::{kept_folder, kept_link};
use std::alloc::{AllocError, Global};
use std::marker::Model;
use tm_graph::{Built, Graph, NodeBlobs, NodeRows};
use tm_tree::{Attrs, Entries, LeafRow, NodeBody, NodeId, NodeRow};
use tm_world::{Blob, Bytes};

/// The new nodes of a backup, of one label and numbered one by one after the greatest in use, and
/// the blobs of the files among them.
#[derive(Drop)]
pub struct Builder {
    label: u64,
    first: u64,
    nodes: Vec<(NodeId, NodeRow)>,
    blobs: Vec<(NodeId, Blob)>,
}

impl Model for Builder {
    ghost use Rattle.tm_copy.specs.Making.{Making, IsMaking};

    ghost Value = { Making };

    ghost view = { λ a. record {
      label = a.label;
      first = a.first;
      nodes = a.nodes.items;
      blobs = a.blobs.items;
    } };

    ghost invariant = { λ a. IsMaking (record {
      label = a.label;
      first = a.first;
      nodes = a.nodes.items;
      blobs = a.blobs.items;
    }) };
}

impl Builder {
    /// No nodes yet, of this label, after the nodes of the graph. It takes no memory.
    pub fn new(alloc: Global, graph: &Graph, label: u64) -> Builder
        ensures { result ≡ begun label (greatest graph.now + 1) }
    {
        // This shows that the nodes are a graph.
        let _ = graph.len();
        Builder {
            label,
            first: graph.greatest() + 1,
            nodes: Vec::new(alloc),
            blobs: Vec::new(alloc),
        }
    }

    /// A new file with its blob, as long as the blob, and its number. Where memory is refused, all
    /// stays as it was.
    pub fn file(&mut self, attrs: Attrs, stamp: u64, blob: Blob) -> Result<NodeId, AllocError>
        ensures number { IfOk result (λ number. number ≡ next_number self.old) }
        ensures ok { OnOk result (self.new ≡ with_file self.old attrs stamp blob) }
        ensures err { OnErr result (self.new ≡ self.old) }
    {
        let number = self.next();
        let length = blob.length;
        let body = NodeBody::Leaf(LeafRow::File {
            attrs,
            stamp,
            length,
        });
        let row = new_row(self.label, body);
        push_file(&mut self.nodes, &mut self.blobs, number, row, blob)?;
        Ok(number)
    }

    /// The base's link, where it has this stamp, else a new one; and its number. Where memory is
    /// refused, all stays as it was.
    pub fn link(
        &mut self,
        graph: &Graph,
        base: Option<NodeId>,
        attrs: Attrs,
        stamp: u64,
        target: Bytes,
    ) -> Result<NodeId, AllocError>
        ensures ok { IfOk result (λ number. Adds (kept_link graph.now base stamp) self.old
            (NodeBody.Leaf (LeafRow.Link attrs stamp target)) self.new number) }
        ensures err { OnErr result (self.new ≡ self.old) }
    {
        match kept_link(graph, base, stamp) {
            Some(number) => Ok(number),
            None => self.node(NodeBody::Leaf(LeafRow::Link {
                attrs,
                stamp,
                target,
            })),
        }
    }

    /// The base's folder, where it has these attributes and entries, else a new one; and its number.
    /// Where memory is refused, all stays as it was.
    pub fn folder(
        &mut self,
        graph: &Graph,
        base: Option<NodeId>,
        attrs: Attrs,
        entries: Entries,
    ) -> Result<NodeId, AllocError>
        ensures ok { IfOk result (λ number. Adds (kept_folder graph.now base attrs entries) self.old
            (NodeBody.Folder attrs entries) self.new number) }
        ensures err { OnErr result (self.new ≡ self.old) }
    {
        match kept_folder(graph, base, &attrs, &entries) {
            Some(number) => Ok(number),
            None => self.node(NodeBody::Folder { attrs, entries }),
        }
    }

    /// What the backup adds, with this root. It takes no memory.
    pub fn finish(self, root: NodeId) -> Built
        ensures root { result.root ≡ root }
        ensures nodes { result.nodes ≡ self.nodes }
        ensures blobs { result.blobs ≡ self.blobs }
        ensures making { IsMaking self }
        ensures fits { next_number self < 2 ^ 64 }
    {
        // This shows that the numbers fit.
        let _ = self.next();
        Built {
            root,
            nodes: NodeRows::of(self.nodes),
            blobs: NodeBlobs::of(self.blobs),
        }
    }

    fn next(&self) -> NodeId
        ensures number { result ≡ next_number self.now }
        ensures fits { next_number self.now < 2 ^ 64 }
    {
        NodeId(self.first + self.nodes.len() as u64)
    }

    fn node(&mut self, body: NodeBody) -> Result<NodeId, AllocError>
        requires { file_length body ≡ None }
        ensures number { IfOk result (λ number. number ≡ next_number self.old) }
        ensures ok { OnOk result (self.new ≡ with_node self.old body) }
        ensures err { OnErr result (self.new ≡ self.old) }
    {
        let number = self.next();
        let row = new_row(self.label, body);
        push_node(&mut self.nodes, number, row)?;
        Ok(number)
    }
}

fn new_row(label: u64, body: NodeBody) -> NodeRow
    ensures { result ≡ new_node label body }
{
    NodeRow {
        label,
        links: 0,
        body,
    }
}

fn push_node(
    nodes: &mut Vec<(NodeId, NodeRow)>,
    number: NodeId,
    row: NodeRow,
) -> Result<(), AllocError>
    ensures ok { OnOk result (nodes.new.items ≡ nodes.old.items ++ (number, row) ∷ []) }
    ensures err { OnErr result (nodes.new.items ≡ nodes.old.items) }
{
    nodes.push((number, row))?;
    Ok(())
}

fn push_file(
    nodes: &mut Vec<(NodeId, NodeRow)>,
    blobs: &mut Vec<(NodeId, Blob)>,
    number: NodeId,
    row: NodeRow,
    blob: Blob,
) -> Result<(), AllocError>
    ensures nodes { OnOk result (nodes.new.items ≡ nodes.old.items ++ (number, row) ∷ []) }
    ensures blobs { OnOk result (blobs.new.items ≡ blobs.old.items ++ (number, blob) ∷ []) }
    ensures nodes_err { OnErr result (nodes.new.items ≡ nodes.old.items) }
    ensures blobs_err { OnErr result (blobs.new.items ≡ blobs.old.items) }
{
    blobs.push((number, blob))?;
    match push_node(nodes, number, row) {
        Ok(()) => Ok(()),
        Err(refused) => {
            let _ = blobs.pop();
            Err(refused)
        }
    }
}
