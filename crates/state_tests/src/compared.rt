//! A volume and a store that are opened anew for each line, beside the plain machine.
use crate::reloaded::{change, new_volume, stand};
use std::alloc::Global;
use std::collections::BTreeSet;
use std::test::Fail;
use tm_base::{Moment, Name, Path};
use tm_graph::{Graph, children_of};
use tm_memworld::MemWorld;
use tm_plain::{LabelledTree, Snapshot as PlainSnapshot, Source, Store as PlainStore, Volume};
use tm_reply::{Reply, ReplyRow, ReplyRows, print};
use tm_run::Status;
use tm_run_testing::{FORMAT_BOTH, read_store, read_volume, run_next};
use tm_store::{Snapshot, Store};
use tm_testing::pair;
use tm_tree::{Item, LeafRow, NodeBody, NodeId, NodeRow};

/// The line of a backup.
const BACKUP: &str = "tmutil startbackup --block";

/// The hour of a line, and the line.
const LINES: [(&str, &str); 16] = [
    ("2009-03-02-090000", "mkdir /a"),
    ("2009-03-02-090000", "write /a/f one"),
    ("2009-03-02-090000", "fill /g 5000 250"),
    ("2009-03-02-090000", "ln /l a/f"),
    ("2009-03-02-090000", BACKUP),
    ("2009-03-02-100000", "write /a/f three"),
    ("2009-03-02-100000", BACKUP),
    ("2009-03-02-110000", "chmod /a 700"),
    ("2009-03-02-110000", BACKUP),
    ("2009-03-02-120000", "mv /g /a/h"),
    ("2009-03-02-120000", BACKUP),
    ("2009-03-02-130000", BACKUP),
    ("2009-03-02-140000", "rm /l"),
    ("2009-03-02-140000", "setx /a/f color red"),
    ("2009-03-02-140000", "append /a/h x"),
    ("2009-03-02-140000", BACKUP),
];

/// No snapshot here has so many items.
const MOST_PLACES: u64 = 100;

/// An identity beside the identity, or for a root the snapshot, that holds it: its label, its path,
/// and the label or number of the other.
type Tie = (u64, Path, u64);

/// The nodes of a store by the places where they stand, and what holds what.
#[derive(Drop)]
struct Seen {
    places: Vec<(Path, NodeId)>,
    ties: BTreeSet<Tie>,
}

impl Seen {
    /// Of no snapshot.
    fn new(alloc: Global) -> Seen {
        Seen {
            places: Vec::new(alloc),
            ties: BTreeSet::new(alloc),
        }
    }
}

/// Finishes a backup in the plain store.
fn back_up(
    store: &mut PlainStore,
    volume: &Volume,
    generation: u64,
    date: Moment,
) -> Result<bool, Fail> {
    if store.number() >= 1 << 40 {
        return Ok(false);
    }
    let view = volume.view()?;
    let source = Source {
        name: volume.name(),
        id: volume.id(),
        generation,
        next: volume.next(),
        view: &view,
    };
    store.complete(&source, date)?;
    Ok(true)
}

/// Whether a node is an item, without its contents and what is beneath it.
fn is_node_of(row: &NodeRow, item: &Item) -> bool {
    match (&row.body, item) {
        (NodeBody::Folder { attrs, .. }, Item::Folder { attrs: other }) => attrs.is_same(other),
        (
            NodeBody::Leaf(
                LeafRow::File {
                    attrs,
                    stamp,
                    length,
                },
            ),
            Item::File {
                attrs: other,
                stamp: last,
                bytes,
            },
        ) => { attrs.is_same(other) && *stamp == *last && *length == bytes.as_slice().len() as u64 }
        (
            NodeBody::Leaf(
                LeafRow::Link {
                    attrs,
                    stamp,
                    target,
                },
            ),
            Item::Link {
                attrs: other,
                stamp: last,
                target: there,
            },
        ) => { attrs.is_same(other) && *stamp == *last && target.as_slice() == there.as_slice() }
        _ => false,
    }
}

/// Whether the node at a path is what the plain tree has there, with its label and as many entries.
fn is_same_at(tree: &LabelledTree, path: &Path, row: &NodeRow) -> Result<bool, Fail> {
    let Some(labelled) = tree.get(path) else {
        return Ok(false);
    };
    let entries = tree.entries(path)?;
    Ok(
        labelled.label == row.label
            && is_node_of(row, &labelled.item)
            && children_of(row).len() == entries.len(),
    )
}

/// Walks a snapshot down from its root: false where a node isn't what the plain tree has there.
fn walk(
    alloc: Global,
    seen: &mut Seen,
    graph: &Graph,
    snapshot: &Snapshot,
    tree: &LabelledTree,
) -> Result<bool, Fail> {
    let mut left = Vec::new(alloc);
    left.push((Path::root(alloc), snapshot.root, snapshot.number))?;
    for _ in 0..MOST_PLACES {
        let Some((path, number, holder)) = left.pop() else {
            return Ok(true);
        };
        let Some(row) = graph.node(number) else {
            return Ok(false);
        };
        if !is_same_at(tree, &path, row)? {
            return Ok(false);
        }
        for child in children_of(row) {
            left.push((path.child(&child.name)?, child.node, row.label))?;
        }
        seen.ties.insert((row.label, path.clone()?, holder))?;
        seen.places.push((path, number))?;
    }
    Ok(false)
}

/// Whether a snapshot is the plain one, but for its tree.
fn is_same(snapshot: &Snapshot, plain: &PlainSnapshot) -> bool {
    snapshot.date == plain.date()
        && snapshot.volume == *plain.volume()
        && snapshot.id == plain.id()
        && snapshot.mark.generation == plain.generation()
        && snapshot.mark.cursor == plain.cursor()
}

/// How many ties a label and a path have.
fn ties_of(seen: &Seen, label: u64, path: &Path) -> u64 {
    let mut count = 0u64;
    for (other, place, _holder) in &seen.ties {
        if *other == label && place.cmp(path).is_eq() {
            count = count.saturating_add(1);
        }
    }
    count
}

/// Whether each node has as many links as ties, and no node stands for what another stands for: there
/// are as many nodes as labels with paths.
fn links_are_exact(alloc: Global, seen: &Seen, graph: &Graph) -> Result<bool, Fail> {
    let mut identities = BTreeSet::new(alloc);
    for (path, number) in &seen.places {
        let Some(row) = graph.node(*number) else {
            return Ok(false);
        };
        if row.links != ties_of(seen, row.label, path) {
            return Ok(false);
        }
        identities.insert((row.label, path.clone()?))?;
    }
    Ok(identities.len() == graph.len())
}

/// Whether a store is the plain one; the contents of its files aside.
fn is_plain(alloc: Global, store: &Store, plain: &PlainStore) -> Result<bool, Fail> {
    let snapshots = store.snapshots().as_slice();
    if store.number() != plain.number()
        || store.machine() != plain.machine()
        || store.running().is_some()
        || snapshots.len() != plain.snapshots().len()
    {
        return Ok(false);
    }
    let mut seen = Seen::new(alloc);
    for (place, snapshot) in snapshots.iter().enumerate() {
        let Some(other) = plain.snapshots().get(place) else {
            return Ok(false);
        };
        if !is_same(snapshot, other) {
            return Ok(false);
        }
        if !walk(alloc, &mut seen, store.graph(), snapshot, other.tree())? {
            return Ok(false);
        }
    }
    links_are_exact(alloc, &seen, store.graph())
}

/// A path as a script has it; each of its names is a letter.
fn word_of(alloc: Global, path: &Path) -> Result<String, Fail> {
    let mut word = String::new(alloc);
    for name in path.names() {
        word.push_str("/")?;
        word.push_str(str::from_utf8(name.as_bytes())?)?;
    }
    Ok(word)
}

/// The lines that print all files and links of a snapshot, and what they must say.
fn contents(
    alloc: Global,
    store: &Store,
    snapshot: &Snapshot,
    tree: &LabelledTree,
) -> Result<(String, Vec<u8>), Fail> {
    let mut script = String::new(alloc);
    let mut says = Vec::new(alloc);
    let mut seen = Seen::new(alloc);
    walk(alloc, &mut seen, store.graph(), snapshot, tree)?;
    let date = snapshot.date.print(alloc)?;
    for (path, _number) in &seen.places {
        let row = match tree.find(path) {
            Ok(Item::File { bytes, .. }) => ReplyRow::Contents(bytes.clone()?),
            Ok(Item::Link { target, .. }) => ReplyRow::Target(target.clone()?),
            _ => continue,
        };
        let word = word_of(alloc, path)?;
        let line = format!(in alloc; "store cat /Backups.backupdb/Mac/{date}/HD{word}\n")?;
        script.push_str(&line)?;
        let mut rows = ReplyRows::new(alloc);
        rows.push(row)?;
        let reply = Reply {
            rows,
            refused: None,
        };
        says.extend_from_slice(print(alloc, &reply)?.as_slice())?;
    }
    Ok((script, says))
}

/// Whether a next run prints all contents of all snapshots as the plain store has them.
fn prints_all(
    alloc: Global,
    world: &mut MemWorld,
    store: &Store,
    plain: &PlainStore,
) -> Result<bool, Fail> {
    for (place, snapshot) in store.snapshots().as_slice().iter().enumerate() {
        let Some(other) = plain.snapshots().get(place) else {
            return Ok(false);
        };
        let (script, says) = contents(alloc, store, snapshot, other.tree())?;
        world.room(1000, 100, 100_000)?;
        run_next(alloc, world, &script)?;
        if !world.said().ends_with(&says) {
            return Ok(false);
        }
    }
    Ok(true)
}

/// A volume and a store as the plain machine keeps them.
#[derive(Drop)]
struct Plain {
    volume: Volume,
    store: PlainStore,
    /// The volume's generation.
    generation: u64,
}

/// The plain machine that [`FORMAT_BOTH`] leaves.
fn formatted(alloc: Global) -> Result<Plain, Fail> {
    let machine = Name::read(alloc, b"Mac").or(Err("a name"))?;
    Ok(Plain {
        volume: new_volume(alloc)?,
        store: PlainStore::new(alloc, &machine)?,
        generation: 1,
    })
}

/// Does a line in a run of its own, and in the plain machine. Whether both did it.
fn does(
    alloc: Global,
    world: &mut MemWorld,
    plain: &mut Plain,
    date: &str,
    line: &str,
) -> Result<bool, Fail> {
    let script = format!(in alloc; "at {date}\n{line}\n")?;
    let moment = Moment::read(date.as_bytes()).or(Err("a date"))?;
    if run_next(alloc, world, &script)? != Status::Done {
        return Ok(false);
    }
    // No run closes the volume, so each begins a generation.
    plain.generation = plain.generation.saturating_add(1);
    if line == BACKUP {
        back_up(&mut plain.store, &plain.volume, plain.generation, moment)
    } else {
        change(alloc, &mut plain.volume, line, moment)
    }
}

/// Whether the images read as the plain machine has it.
fn reads_as(alloc: Global, world: &mut MemWorld, plain: &Plain) -> Result<bool, Fail> {
    let read = read_volume(alloc, world).or(Err("reads"))?;
    if read.next != plain.volume.next() || !stand(&read.items, &plain.volume) {
        return Ok(false);
    }
    let store = read_store(alloc, world).or(Err("reads"))?;
    is_plain(alloc, &store, &plain.store)
}

#[test]
fn each_line_leaves_what_the_plain_machine_has(rt: HostRuntime) -> Result<(), Fail> {
    let alloc = rt.alloc();
    let mut world = pair(alloc, 64, 64)?;
    assert_eq!(rt; run_next(alloc, &mut world, FORMAT_BOTH)?, Status::Done);
    let mut plain = formatted(alloc)?;
    for (date, line) in LINES {
        let is_done = does(alloc, &mut world, &mut plain, date, line)?;
        assert!(rt; is_done, "{line} at {date}");
        let is_read = reads_as(alloc, &mut world, &plain)?;
        assert!(rt; is_read, "{line} at {date}");
    }
    let store = read_store(alloc, &mut world).or(Err("reads"))?;
    assert_eq!(rt; store.snapshots().as_slice().len(), 6);
    assert!(rt; prints_all(alloc, &mut world, &store, &plain.store)?);
    Ok(())
}
