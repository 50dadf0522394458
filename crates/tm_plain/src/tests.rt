//! What no clause says: that the calls succeed, and rows worked out by hand.
use crate::{LabelledTree, Source, Store, Tree, Volume};
use std::test::Fail;
use tm_base::{LineFault, Moment, Name, Path, Refused};
use tm_tree::{Attrs, Change, Item, Way};
use tm_world::Bytes;

fn path(rt: &HostRuntime, words: &[&str]) -> Result<Path, Fail> {
    let mut path = Path::root(rt.alloc());
    for word in words {
        path = path.child(&Name::read(rt.alloc(), word.as_bytes())?)?;
    }
    Ok(path)
}

fn bytes(rt: &HostRuntime, text: &str) -> Result<Bytes, Fail> {
    Ok(Bytes::of(text.as_bytes().to_vec(rt.alloc())?))
}

fn moment(seconds: u64) -> Result<Moment, Fail> {
    Ok(Moment::from_seconds(seconds).ok_or("a moment")?)
}

// A root with the folder `a`, in which the file `f` stands.
fn tree(rt: &HostRuntime) -> Result<Tree, Fail> {
    let alloc = rt.alloc();
    let mut tree = Tree::new(alloc, Item::new_folder(alloc, moment(1)?))?;
    tree.put(path(rt, &["a"])?, Item::new_folder(alloc, moment(2)?))?;
    let file = Item::new_file(alloc, moment(3)?, 4, bytes(rt, "hi")?);
    tree.put(path(rt, &["a", "f"])?, file)?;
    Ok(tree)
}

#[test]
fn items_are_counted(rt: HostRuntime) -> Result<(), Fail> {
    let tree = tree(&rt)?;
    assert_eq!(rt; tree.len(), 3);
    assert_eq!(rt; tree.folders(), 2);
    Ok(())
}

#[test]
fn items_are_found(rt: HostRuntime) -> Result<(), Fail> {
    let tree = tree(&rt)?;
    let a = path(&rt, &["a"])?;
    assert!(rt; tree.has_folder(&a));
    assert!(rt; tree.get(&a).is_some());
    assert_eq!(rt; tree.children(&a), 1);
    assert_eq!(rt; tree.way(&a)?, Way::AtFolder);
    assert!(rt; tree.find(&a)?.is_folder());
    Ok(())
}

#[test]
fn folders_are_listed(rt: HostRuntime) -> Result<(), Fail> {
    let tree = tree(&rt)?;
    let a = path(&rt, &["a"])?;
    assert!(rt; tree.list(&a)?.is_some());
    assert_eq!(rt; tree.entries(&a)?.len(), 1);
    Ok(())
}

#[test]
fn items_are_changed(rt: HostRuntime) -> Result<(), Fail> {
    let mut tree = tree(&rt)?;
    let a = path(&rt, &["a"])?;
    tree.change(&a, Attrs::new(rt.alloc(), 0o700, moment(5)?), 9);
    tree.touch(&a, moment(6)?);
    let attrs = tree.find(&a)?.attrs();
    assert_eq!(rt; attrs.mode, 0o700);
    assert_eq!(rt; attrs.modified, moment(6)?);
    Ok(())
}

#[test]
fn items_are_moved(rt: HostRuntime) -> Result<(), Fail> {
    let mut tree = tree(&rt)?;
    let (a, b) = (path(&rt, &["a"])?, path(&rt, &["b"])?);
    if !tree.is_too_deep(&a, &b) {
        tree.move_all(&a, &b)?;
    }
    assert!(rt; tree.get(&a).is_none());
    tree.remove(&b);
    assert_eq!(rt; tree.len(), 2);
    Ok(())
}

fn volume(rt: &HostRuntime) -> Result<Volume, Fail> {
    let name = Name::read(rt.alloc(), b"Home")?;
    Ok(Volume::blank(rt.alloc(), &name, 7, 100, moment(10)?)?)
}

// A line that fills a file in the root with the three bytes 250, 1 and 8.
fn fill(rt: &HostRuntime, name: &str) -> Result<Change, Fail> {
    Ok(Change::Fill {
        path: path(rt, &[name])?,
        length: 3,
        seed: 250,
    })
}

#[test]
fn a_volume_is_changed(rt: HostRuntime) -> Result<(), Fail> {
    let mut volume = volume(&rt)?;
    let touches = volume.change(&fill(&rt, "f")?, Some(moment(20)?))?;
    // One number is drawn for the stamp, and then one for the touch.
    assert_eq!(rt; touches.as_slice().len(), 1);
    assert_eq!(rt; volume.next(), 3);
    match volume.find(&path(&rt, &["f"])?)? {
        Item::File { stamp, bytes, .. } => {
            assert_eq!(rt; *stamp, 1);
            assert!(rt; bytes.as_slice() == [250, 1, 8].as_slice());
        }
        _ => return Err(Fail::from("a file")),
    }
    Ok(())
}

#[test]
fn a_line_is_refused(rt: HostRuntime) -> Result<(), Fail> {
    let mut volume = volume(&rt)?;
    let mkdir = Change::Mkdir {
        path: path(&rt, &[])?,
    };
    match volume.change(&mkdir, Some(moment(20)?)) {
        Err(LineFault::Refused(why)) => assert_eq!(rt; why, Refused::Exists),
        _ => return Err(Fail::from("refused")),
    }
    Ok(())
}

#[test]
fn a_volume_is_seen(rt: HostRuntime) -> Result<(), Fail> {
    let volume = volume(&rt)?;
    let root = path(&rt, &[])?;
    assert_eq!(rt; volume.view()?.len(), 1);
    assert_eq!(rt; volume.entries(&root)?.len(), 0);
    assert!(rt; volume.list(&root)?.is_some());
    Ok(())
}

#[test]
fn a_volume_has_a_head(rt: HostRuntime) -> Result<(), Fail> {
    let volume = volume(&rt)?;
    assert_eq!(rt; volume.fixed().len(), 0);
    assert!(rt; volume.name().as_bytes() == b"Home".as_slice());
    assert_eq!(rt; volume.id(), 7);
    assert_eq!(rt; volume.capacity(), 100);
    assert_eq!(rt; volume.generation(), 1);
    Ok(())
}

fn machine(rt: &HostRuntime) -> Result<Name, Fail> {
    Ok(Name::read(rt.alloc(), b"Mac")?)
}

// A backup of a volume as it is now.
fn back_up(store: &mut Store, volume: &Volume, date: Moment) -> Result<(), Fail> {
    let view = volume.view()?;
    let source = Source {
        name: volume.name(),
        id: volume.id(),
        generation: volume.generation(),
        next: volume.next(),
        view: &view,
    };
    if store.number() < 9 {
        store.complete(&source, date)?;
    }
    Ok(())
}

// A store with two backups: the second has the file `g` besides.
fn store(rt: &HostRuntime) -> Result<Store, Fail> {
    let mut volume = volume(rt)?;
    let mut store = Store::new(rt.alloc(), &machine(rt)?)?;
    volume.change(&fill(rt, "f")?, Some(moment(30)?))?;
    back_up(&mut store, &volume, moment(30)?)?;
    volume.change(&fill(rt, "g")?, Some(moment(40)?))?;
    back_up(&mut store, &volume, moment(40)?)?;
    Ok(store)
}

#[test]
fn backups_are_kept(rt: HostRuntime) -> Result<(), Fail> {
    let store = store(&rt)?;
    assert_eq!(rt; store.number(), 3);
    assert!(rt; *store.machine() == machine(&rt)?);
    assert_eq!(rt; store.snapshots().len(), 2);
    let first = store.snapshot_at(&machine(&rt)?, Some(moment(30)?));
    assert_eq!(rt; first.ok_or("a snapshot")?.cursor(), 2);
    Ok(())
}

#[test]
fn snapshots_are_found(rt: HostRuntime) -> Result<(), Fail> {
    let store = store(&rt)?;
    let last = store.latest().ok_or("a snapshot")?;
    assert_eq!(rt; last.date(), moment(40)?);
    assert_eq!(rt; last.id(), 7);
    assert_eq!(rt; last.generation(), 1);
    let found = store.snapshot_under(&machine(&rt)?, None, last.volume());
    assert!(rt; found.is_some());
    Ok(())
}

#[test]
fn unchanged_files_keep_their_labels(rt: HostRuntime) -> Result<(), Fail> {
    let store = store(&rt)?;
    let tree = store.latest().ok_or("a snapshot")?.tree();
    // The file of the first backup keeps its label; the root has changed.
    for (words, label) in [(["f"].as_slice(), 1), (&["g"], 2), (&[], 2)] {
        let labelled = tree.get(&path(&rt, words)?).ok_or("an item")?;
        assert_eq!(rt; labelled.label, label);
    }
    Ok(())
}

#[test]
fn snapshots_are_listed(rt: HostRuntime) -> Result<(), Fail> {
    let store = store(&rt)?;
    let tree = store.latest().ok_or("a snapshot")?.tree();
    let root = path(&rt, &[])?;
    assert!(rt; tree.find(&root)?.is_folder());
    assert_eq!(rt; tree.entries(&root)?.len(), 2);
    assert!(rt; tree.list(&root)?.is_some());
    assert!(rt; LabelledTree::new(rt.alloc()).get(&root).is_none());
    Ok(())
}
