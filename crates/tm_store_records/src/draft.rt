//! What records stand for, before it is known whether they keep the rules.
ghost use Rattle.std.specs.Prelude.{◌≡◌, ◌+◌, ◌-◌, ◌<◌, ◌≤◌, ◌^◌, ◌++◌, ◌&&◌, ◌==◌, ℕ, [], ◌∷◌, Some, None, true, is_some, not, nat_lt, find, IfOk, OnOk, IfSome, if◌then◌else◌};
ghost use Rattle.std.specs.Option.{option_map, option_to_list};
ghost use Rattle.std.specs.Map.{keys_of};
ghost use Rattle.tm_records.specs.Records.{at};
ghost use Rattle.tm_nodes.specs.Records.{machine_of, snapshot_of, node_of};
ghost use Rattle.tm_store_records.specs.Heads.{RecordHead, heads_of, head_at};
ghost use Rattle.tm_store_records.specs.Found.{numbered_snapshot, snapshot_in, node_in, machine_in, snapshots_in, nodes_in};
ghost use Rattle.tm_store_records.specs.Rules.{most_of, reads_node, is_record};
ghost use Rattle.tm_store_records.specs.Drafts.{IsUnread, noted};

use crate::snapshot::Snapshot;
use std::alloc::{AllocError, Global};
use tm_base::Name;
use tm_base::limits::MAX_FILE_BYTES;
use tm_image::Image;
use tm_nodes::{NodeError, read_machine, read_node, read_snapshot};
use tm_tree::{LeafRow, NodeBody, NodeId, NodeRow};

/// The key of a machine's name.
pub const MACHINE_KEY: u64 = 1;

/// The key of the snapshot 0, which there isn't.
pub const SNAPSHOT_KEY: u64 = 1 << 40;

/// The key of the node 0, which there isn't.
pub const NODE_KEY: u64 = 1 << 62;

/// What records stand for: snapshots and nodes by rising number.
#[derive(Drop)]
pub(crate) struct Draft {
    pub(crate) machine: Option<Name>,
    pub(crate) snapshots: Vec<Snapshot>,
    pub(crate) nodes: Vec<(NodeId, NodeRow)>,
    /// The least key whose record is none of a store's.
    pub(crate) unread: Option<u64>,
}

fn machine_name(alloc: Global, meta: &[u8]) -> Result<Option<Name>, AllocError>
    ensures { IfOk result (λ name. name ≡ machine_of meta.now) }
{
    match read_machine(alloc, meta) {
        Ok(name) => Ok(Some(name)),
        Err(NodeError::BadNode(_)) => Ok(None),
        Err(NodeError::Memory) => Err(AllocError),
    }
}

fn snapshot_row(alloc: Global, key: u64, meta: &[u8]) -> Result<Option<Snapshot>, AllocError>
    requires { 2 ^ 40 ≤ key }
    ensures { IfOk result (λ snapshot. snapshot ≡ option_map (numbered_snapshot (key - 2 ^ 40)) (snapshot_of meta.now)) }
{
    match read_snapshot(alloc, key, meta) {
        Ok(row) => Ok(Some(Snapshot {
            number: key - SNAPSHOT_KEY,
            date: row.date,
            volume: row.volume,
            id: row.id,
            mark: row.mark,
            root: row.root,
        })),
        Err(NodeError::BadNode(_)) => Ok(None),
        Err(NodeError::Memory) => Err(AllocError),
    }
}

fn node_row(alloc: Global, key: u64, meta: &[u8], size: u64) -> Result<Option<NodeRow>, AllocError>
    ensures { IfOk result (λ row. row ≡ node_of meta.now size) }
{
    match read_node(alloc, key, meta, size) {
        Ok(row) => Ok(Some(row)),
        Err(NodeError::BadNode(_)) => Ok(None),
        Err(NodeError::Memory) => Err(AllocError),
    }
}

/// The most bytes of data that a node's record may have.
fn most_of(row: &NodeRow) -> u64
    ensures { result ≡ most_of row.now.body }
{
    match &row.body {
        NodeBody::Leaf(LeafRow::File { .. }) => MAX_FILE_BYTES,
        _ => 0,
    }
}

impl Draft {
    /// Takes the record of a snapshot up, and tells whether it is one.
    fn take_snapshot(
        &mut self,
        alloc: Global,
        key: u64,
        meta: &[u8],
        size: u64,
    ) -> Result<bool, AllocError>
        requires { 2 ^ 40 ≤ key }
        ensures snapshots { OnOk result (self.new.snapshots.items ≡ self.old.snapshots.items ++ option_to_list (option_map (numbered_snapshot (key - 2 ^ 40)) (snapshot_of meta.now))) }
        ensures good { IfOk result (λ good. good ≡ (is_some (snapshot_of meta.now) && (size == 0))) }
        ensures nodes { self.new.nodes.items ≡ self.old.nodes.items }
        ensures machine { self.new.machine ≡ self.old.machine }
        ensures unread { self.new.unread ≡ self.old.unread }
    {
        match snapshot_row(alloc, key, meta)? {
            Some(snapshot) => {
                self.snapshots.push(snapshot)?;
                Ok(size == 0)
            }
            None => Ok(false),
        }
    }

    /// Takes the record of a node up, and tells whether it is one and has no more data than it may.
    fn take_node(
        &mut self,
        alloc: Global,
        key: u64,
        meta: &[u8],
        size: u64,
    ) -> Result<bool, AllocError>
        requires { 2 ^ 62 ≤ key }
        ensures nodes { OnOk result (self.new.nodes.items ≡ self.old.nodes.items ++ option_to_list (option_map (λ row. (key - 2 ^ 62, row)) (node_of meta.now size))) }
        ensures good { IfOk result (λ good. good ≡ reads_node (record { meta = meta.now; size = size })) }
        ensures snapshots { self.new.snapshots.items ≡ self.old.snapshots.items }
        ensures machine { self.new.machine ≡ self.old.machine }
        ensures unread { self.new.unread ≡ self.old.unread }
    {
        match node_row(alloc, key, meta, size)? {
            Some(row) => {
                let good = size <= most_of(&row);
                self.nodes.push((NodeId(key - NODE_KEY), row))?;
                Ok(good)
            }
            None => Ok(false),
        }
    }

    /// Takes a record up, and tells whether it is one of a store's sections.
    fn take_record(
        &mut self,
        alloc: Global,
        key: u64,
        meta: &[u8],
        size: u64,
    ) -> Result<bool, AllocError>
        requires { key ≡ 1 → self.old.machine ≡ machine_of meta.now }
        ensures snapshots { OnOk result (self.new.snapshots.items ≡ self.old.snapshots.items ++ option_to_list (snapshot_in (key, record { meta = meta.now; size = size }))) }
        ensures nodes { OnOk result (self.new.nodes.items ≡ self.old.nodes.items ++ option_to_list (node_in (key, record { meta = meta.now; size = size }))) }
        ensures good { IfOk result (λ good. good ≡ is_record key (record { meta = meta.now; size = size })) }
        ensures machine { self.new.machine ≡ self.old.machine }
        ensures unread { self.new.unread ≡ self.old.unread }
    {
        if key == MACHINE_KEY {
            Ok(self.machine.is_some() && size == 0)
        } else if key < SNAPSHOT_KEY {
            Ok(false)
        } else if key < NODE_KEY {
            self.take_snapshot(alloc, key, meta, size)
        } else {
            self.take_node(alloc, key, meta, size)
        }
    }

    /// Takes the record at a key of an image up.
    fn read_at(&mut self, alloc: Global, image: &Image, key: u64) -> Result<(), AllocError>
        requires machine { self.old.machine ≡ machine_in (heads_of image.now.records) }
        requires there { is_some (at key image.now.records) ≡ true }
        ensures snapshots { OnOk result (IfSome (head_at key (heads_of image.now.records)) (λ head. self.new.snapshots.items ≡ self.old.snapshots.items ++ option_to_list (snapshot_in (key, head)))) }
        ensures nodes { OnOk result (IfSome (head_at key (heads_of image.now.records)) (λ head. self.new.nodes.items ≡ self.old.nodes.items ++ option_to_list (node_in (key, head)))) }
        ensures unread { OnOk result (IfSome (head_at key (heads_of image.now.records)) (λ head. self.new.unread ≡ noted self.old.unread key (is_record key head))) }
        ensures machine { self.new.machine ≡ self.old.machine }
    {
        let Some(size) = image.length(key) else {
            return Ok(());
        };
        let Some(meta) = image.meta(key) else {
            return Ok(());
        };
        let good = self.take_record(alloc, key, meta, size)?;
        self.note(key, good);
        Ok(())
    }

    /// Notes a key whose record is none of a store's, if none was noted before.
    fn note(&mut self, key: u64, good: bool)
        ensures unread { self.new.unread ≡ noted self.old.unread key good }
        ensures snapshots { self.new.snapshots.items ≡ self.old.snapshots.items }
        ensures nodes { self.new.nodes.items ≡ self.old.nodes.items }
        ensures machine { self.new.machine ≡ self.old.machine }
    {
        if !good && self.unread.is_none() {
            self.unread = Some(key);
        }
    }
}

/// The name of the machine, if the record at its key has one.
fn machine_of_image(alloc: Global, image: &Image) -> Result<Option<Name>, AllocError>
    ensures { IfOk result (λ name. name ≡ machine_in (heads_of image.now.records)) }
{
    match image.meta(MACHINE_KEY) {
        Some(meta) => machine_name(alloc, meta),
        None => Ok(None),
    }
}

/// The least key above a key, if there is one.
fn key_after(image: &Image, key: u64) -> Option<u64>
    ensures { result ≡ find (λ k. nat_lt key k) (keys_of image.now.records) }
{
    // This shows that the image is sound.
    let _ = image.total();
    match key.checked_add(1) {
        Some(least) => image.key_from(least),
        None => None,
    }
}

/// What the records of an image stand for.
pub(crate) fn read_draft(alloc: Global, image: &Image) -> Result<Draft, AllocError>
    ensures machine { IfOk result (λ draft. draft.machine ≡ machine_in (heads_of image.now.records)) }
    ensures snapshots { IfOk result (λ draft. draft.snapshots.items ≡ snapshots_in (heads_of image.now.records)) }
    ensures nodes { IfOk result (λ draft. draft.nodes.items ≡ nodes_in (heads_of image.now.records)) }
    ensures unread { IfOk result (λ draft. IsUnread (heads_of image.now.records) draft.unread) }
{
    let mut draft = Draft {
        machine: machine_of_image(alloc, image)?,
        snapshots: Vec::new(alloc),
        nodes: Vec::new(alloc),
        unread: None,
    };
    // This shows that the image is sound.
    let _ = image.total();
    let mut next = image.key_from(0);
    while let Some(key) = next {
        draft.read_at(alloc, image, key)?;
        next = key_after(image, key);
    }
    Ok(draft)
}
