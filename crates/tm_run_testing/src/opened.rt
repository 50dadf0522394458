//! What a volume and a store hold after a run, read from their images.
ghost use Rattle.std.specs.Prelude.{IfOk};
ghost use Rattle.tm_store_records.specs.Held.{IsWhole};

use std::alloc::{AllocError, Global};
use std::collections::BTreeMap;
use tm_base::{LineFault, Moment, Path};
use tm_image::LoadError;
use tm_store::{Df, Store};
use tm_testing::attach_stable;
use tm_text::{Line, parse};
use tm_tree::Item;
use tm_volume::Volume;
use tm_world::{Side, World};

/// The items of a volume, its generation, and its next number.
#[derive(Drop)]
pub struct VolumeItems {
    pub items: BTreeMap<Path, Item>,
    pub generation: u64,
    pub next: u64,
}

/// Why a volume was not read.
#[derive(Clone, Copy, Debug, PartialEq, Eq)]
pub enum ReadError {
    /// It could not be loaded.
    Load(LoadError),
    /// Its items could not be read.
    Items(LineFault),
}

/// What the volume that stands at `v` holds.
pub fn read_volume<W: World>(alloc: Global, world: &mut W) -> Result<VolumeItems, ReadError> {
    let Ok(blocks) = attach_stable(world, Side::Volume) else {
        return Err(ReadError::Load(LoadError::Fault));
    };
    match Volume::load(alloc, world, blocks) {
        Ok(volume) => match volume.items(world) {
            Ok(items) => {
                let info = volume.info();
                Ok(VolumeItems {
                    items,
                    generation: info.generation,
                    next: info.next,
                })
            }
            Err(why) => Err(ReadError::Items(why)),
        },
        Err(why) => Err(ReadError::Load(why)),
    }
}

/// Reads the store that stands at `s`.
pub fn read_store<W: World>(alloc: Global, world: &mut W) -> Result<Store, LoadError>
    ensures { IfOk result IsWhole }
{
    let Ok(blocks) = attach_stable(world, Side::Store) else {
        return Err(LoadError::Fault);
    };
    match Store::load(alloc, world, blocks) {
        Ok(store) => Ok(store),
        Err(why) => Err(why),
    }
}

/// What the store that stands at `s` holds, in numbers.
pub fn df<W: World>(alloc: Global, world: &mut W) -> Result<Df, LoadError> {
    match read_store(alloc, world) {
        Ok(store) => Ok(store.df()),
        Err(why) => Err(why),
    }
}

// The path that a word of a script stands for; the root where it stands for none.
fn path_of(alloc: Global, word: &str) -> Result<Path, AllocError> {
    let text = format!(in alloc; "ls {word}\n")?;
    let lines = parse(alloc, text.as_bytes()).or(Err(AllocError))?;
    match lines.as_slice().first() {
        Some(Line::Ls(path)) => path.clone(),
        _ => Ok(Path::root(alloc)),
    }
}

/// The label and the links of what stands at a path in the snapshot of a date, if something does.
pub fn stat(
    alloc: Global,
    store: &Store,
    date: &str,
    word: &str,
) -> Result<Option<(u64, u64)>, AllocError> {
    let path = path_of(alloc, word)?;
    let Ok(date) = Moment::read(date.as_bytes()) else {
        return Ok(None);
    };
    for snapshot in store.snapshots().as_slice() {
        if snapshot.date == date {
            let Ok(number) = store.graph().node_at(snapshot.root, &path) else {
                return Ok(None);
            };
            return Ok(store.graph().node(number).map(|row| (row.label, row.links)));
        }
    }
    Ok(None)
}
