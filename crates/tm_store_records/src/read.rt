//! What the records of a store say, where they keep the rules.
ghost use Rattle.std.specs.Prelude.{◌≡◌, ◌≤◌, ◌^◌, Some, None, true, is_some, if◌then◌else◌, IfOk};
ghost use Rattle.tm_graph.specs.Nodes.{IsGraph};
ghost use Rattle.tm_store_records.specs.Heads.{RecordHeads, heads_of};
ghost use Rattle.tm_store_records.specs.Found.{machine_in, snapshots_in, nodes_in, roots_of};
ghost use Rattle.tm_store_records.specs.Rules.{IsGoodKey, IsGoodStore, IsLeastBadKey};
ghost use Rattle.tm_store_records.specs.Drafts.{lesser, IsOrdered, DraftTells, IsLeastFailing, SnapshotsAreGoodAt, NodesAreGoodAt, IfBadStore};

use crate::draft::{Draft, MACHINE_KEY, NODE_KEY, SNAPSHOT_KEY, read_draft};
use crate::node_rules::first_bad_node;
use crate::snapshot::SnapshotList;
use crate::snapshot_rules::first_bad_snapshot;
use std::alloc::{AllocError, Global};
use tm_base::Name;
use tm_graph::{Graph, NodeRows};
use tm_image::{Image, LoadError};
use tm_nodes::spellings_are_found;
use tm_world::Cause;

/// What was read of the records of a store.
#[derive(Drop)]
pub struct Contents {
    /// The machine's name.
    pub machine: Name,
    /// The snapshots, by rising number.
    pub snapshots: SnapshotList,
    /// The nodes beneath them.
    pub nodes: Graph,
}

/// Why the records of a store are not read.
#[derive(Clone, Copy, Debug, PartialEq, Eq)]
pub enum StoreError {
    /// The record of this key is the first that breaks a rule.
    Bad(u64),
    /// Memory was refused.
    Memory,
}

impl From<AllocError> for StoreError {
    ghost use Rattle.std.specs.Prelude.{◌≡◌};
    ghost use Rattle.tm_store_records.specs.declared.read.StoreError.TheVariants.{Memory};

    ghost from_gives = { λ _ error. error ≡ Memory };

    fn from(_error: AllocError) -> StoreError {
        StoreError::Memory
    }
}

impl From<StoreError> for LoadError {
    ghost use Rattle.std.specs.Prelude.{◌≡◌};
    ghost use Rattle.tm_store_records.specs.Drafts.{load_error};

    ghost from_gives = { λ why error. error ≡ load_error why };

    fn from(why: StoreError) -> LoadError {
        match why {
            StoreError::Bad(key) => LoadError::Bad {
                cause: Cause::Record,
                place: key,
            },
            StoreError::Memory => LoadError::Memory,
        }
    }
}

/// The lesser of two keys, if there is any.
fn lesser(first: Option<u64>, second: Option<u64>) -> Option<u64>
    ensures { result ≡ lesser first second }
{
    match first {
        None => second,
        Some(key) => match second {
            Some(other) if other < key => Some(other),
            _ => Some(key),
        },
    }
}

/// The records of an image are in order, whether or not they keep the rules. It does nothing.
fn records_are_ordered(image: &Image)
    ensures { IsOrdered (snapshots_in (heads_of image.now.records)) (nodes_in (heads_of image.now.records)) }
{
    // This shows that the image is sound.
    let _ = image.total();
    spellings_are_found();
}

/// The key of the machine's name, if no name was read there.
fn bad_machine(machine: &Option<Name>) -> Option<u64>
    ensures { result ≡ (if is_some machine.now then None else Some 1) }
{
    match machine {
        Some(_) => None,
        None => Some(MACHINE_KEY),
    }
}

/// The key of the first snapshot that breaks a rule, if one does.
fn bad_snapshot(draft: &Draft, number: u64) -> Option<u64>
    requires { IsOrdered draft.now.snapshots.items draft.now.nodes.items }
    ensures { IsLeastFailing (SnapshotsAreGoodAt draft.now.nodes.items draft.now.snapshots.items number) result }
{
    match first_bad_snapshot(&draft.nodes, &draft.snapshots, number) {
        Some(place) => Some(SNAPSHOT_KEY + draft.snapshots[place].number),
        None => None,
    }
}

/// The key of the first node that breaks a rule, if one does.
fn bad_node(alloc: Global, draft: &Draft, number: u64) -> Result<Option<u64>, AllocError>
    requires number { number ≤ 2 ^ 40 }
    requires ordered { IsOrdered draft.now.snapshots.items draft.now.nodes.items }
    ensures { IfOk result (IsLeastFailing (NodesAreGoodAt draft.now.nodes.items (roots_of draft.now.snapshots.items) number)) }
{
    match first_bad_node(alloc, &draft.nodes, &draft.snapshots, number)? {
        Some(place) => {
            let (id, _row) = &draft.nodes[place];
            Ok(Some(NODE_KEY + id.0))
        }
        None => Ok(None),
    }
}

/// The least key that breaks a rule, if one does.
fn first_bad_key(alloc: Global, draft: &Draft, number: u64) -> Result<Option<u64>, AllocError>
    requires number { number ≤ 2 ^ 40 }
    requires ordered { IsOrdered draft.now.snapshots.items draft.now.nodes.items }
    ensures { (heads : RecordHeads) → DraftTells draft.now heads → IfOk result (IsLeastFailing (IsGoodKey heads number)) }
{
    let machine = bad_machine(&draft.machine);
    let snapshot = bad_snapshot(draft, number);
    let node = bad_node(alloc, draft, number)?;
    Ok(lesser(lesser(machine, draft.unread), lesser(snapshot, node)))
}

/// What a draft says that has a machine's name, and whose nodes are a graph.
fn contents_of(alloc: Global, draft: Draft) -> Result<Contents, AllocError>
    requires machine { is_some draft.machine ≡ true }
    requires graph { IsGraph draft.nodes.items }
    ensures machine { IfOk result (λ c. draft.machine ≡ Some c.machine) }
    ensures snapshots { IfOk result (λ c. c.snapshots ≡ draft.snapshots.items) }
    ensures nodes { IfOk result (λ c. c.nodes ≡ draft.nodes.items) }
{
    let Draft {
        machine,
        snapshots,
        nodes,
        unread: _,
    } = draft;
    Ok(Contents {
        machine: machine.unwrap(),
        snapshots: SnapshotList::of(snapshots),
        nodes: Graph::from_nodes(alloc, NodeRows::of(nodes))?,
    })
}

/// What the records of an image say, where the number of the next backup is this. `Bad` tells the
/// least key that breaks a rule (`docs/FORMATS.md`, "What is bad").
pub fn read_store(alloc: Global, image: &Image, number: u64) -> Result<Contents, StoreError>
    requires number { number ≤ 2 ^ 40 }
    ensures machine { IfOk result (λ c. machine_in (heads_of image.now.records) ≡ Some c.machine) }
    ensures snapshots { IfOk result (λ c. c.snapshots ≡ snapshots_in (heads_of image.now.records)) }
    ensures nodes { IfOk result (λ c. c.nodes ≡ nodes_in (heads_of image.now.records)) }
    ensures good { IfOk result (λ _. IsGoodStore (heads_of image.now.records) number) }
    ensures bad { IfBadStore result (IsLeastBadKey (heads_of image.now.records) number) }
{
    records_are_ordered(image);
    let draft = read_draft(alloc, image)?;
    match first_bad_key(alloc, &draft, number)? {
        Some(key) => Err(StoreError::Bad(key)),
        None => Ok(contents_of(alloc, draft)?),
    }
}
