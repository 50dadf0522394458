//! A reader for each list of words that follows a line's keywords.
ghost use Rattle.tm_text.specs.Pieces.{texts};
ghost use Rattle.tm_text.specs.Reads.{Reads};
ghost use Rattle.tm_text.specs.Shapes.{OneWord, TwoWords, ThreeWords, TwoAnd, MayBeLeftOut};
ghost use Rattle.tm_text.specs.Words.{IsNameWord, IsText, IsValue, IsNumber, IsEvents, IsSteps, IsMode, IsDate, IsId, IsPath, IsTarget, IsOwner, IsStorePath, IsStored, IsSnapshot, IsItem};

use crate::error::LineError;
use crate::place::{ItemAt, SnapshotAt, StorePath, Stored};
use crate::shapes::{first, only, pair, triple};
use crate::words::{
    date, events, id, item, mode, name, number, owner, path, snapshot, steps, store_path, stored,
    target, text, value,
};
use std::alloc::Global;
use tm_base::{Moment, Name, Path};
use tm_world::Bytes;

/// A date.
#[tactic(auto, unfolding(crate::specs::Shapes::OneWord))]
pub fn one_date(words: &[&[u8]]) -> Result<Moment, LineError>
    ensures { Reads (OneWord IsDate (texts words.now)) result }
{
    let Some(word) = only(words) else {
        return Err(LineError::Bad);
    };
    date(word)
}

/// A name.
#[tactic(auto, unfolding(crate::specs::Shapes::OneWord))]
pub fn one_name(alloc: Global, words: &[&[u8]]) -> Result<Name, LineError>
    ensures { Reads (OneWord IsNameWord (texts words.now)) result }
{
    let Some(word) = only(words) else {
        return Err(LineError::Bad);
    };
    name(alloc, word)
}

/// A path.
#[tactic(auto, unfolding(crate::specs::Shapes::OneWord))]
pub fn one_path(alloc: Global, words: &[&[u8]]) -> Result<Path, LineError>
    ensures { Reads (OneWord IsPath (texts words.now)) result }
{
    let Some(word) = only(words) else {
        return Err(LineError::Bad);
    };
    path(alloc, word)
}

/// A number.
#[tactic(auto, unfolding(crate::specs::Shapes::OneWord))]
pub fn one_number(words: &[&[u8]]) -> Result<u64, LineError>
    ensures { Reads (OneWord IsNumber (texts words.now)) result }
{
    let Some(word) = only(words) else {
        return Err(LineError::Bad);
    };
    number(word)
}

/// A number that is not 0.
#[tactic(auto, unfolding(crate::specs::Shapes::OneWord))]
pub fn one_count(words: &[&[u8]]) -> Result<u64, LineError>
    ensures { Reads (OneWord IsSteps (texts words.now)) result }
{
    let Some(word) = only(words) else {
        return Err(LineError::Bad);
    };
    steps(word)
}

/// A store path of any form.
#[tactic(auto, unfolding(crate::specs::Shapes::OneWord))]
pub fn one_store_path(alloc: Global, words: &[&[u8]]) -> Result<StorePath, LineError>
    ensures { Reads (OneWord IsStorePath (texts words.now)) result }
{
    let Some(word) = only(words) else {
        return Err(LineError::Bad);
    };
    store_path(alloc, word)
}

/// A store path of a snapshot or an item.
#[tactic(auto, unfolding(crate::specs::Shapes::OneWord))]
pub fn one_stored(alloc: Global, words: &[&[u8]]) -> Result<Stored, LineError>
    ensures { Reads (OneWord IsStored (texts words.now)) result }
{
    let Some(word) = only(words) else {
        return Err(LineError::Bad);
    };
    stored(alloc, word)
}

/// A store path of a snapshot.
#[tactic(auto, unfolding(crate::specs::Shapes::OneWord))]
pub fn one_snapshot(alloc: Global, words: &[&[u8]]) -> Result<SnapshotAt, LineError>
    ensures { Reads (OneWord IsSnapshot (texts words.now)) result }
{
    let Some(word) = only(words) else {
        return Err(LineError::Bad);
    };
    snapshot(alloc, word)
}

/// A store path of an item.
#[tactic(auto, unfolding(crate::specs::Shapes::OneWord))]
pub fn one_item(alloc: Global, words: &[&[u8]]) -> Result<ItemAt, LineError>
    ensures { Reads (OneWord IsItem (texts words.now)) result }
{
    let Some(word) = only(words) else {
        return Err(LineError::Bad);
    };
    item(alloc, word)
}

/// Two paths.
#[tactic(auto, unfolding(crate::specs::Shapes::TwoWords))]
pub fn two_paths(alloc: Global, words: &[&[u8]]) -> Result<(Path, Path), LineError>
    ensures { Reads (TwoWords IsPath IsPath (texts words.now)) result }
{
    let Some((first, second)) = pair(words) else {
        return Err(LineError::Bad);
    };
    let from = path(alloc, first)?;
    let to = path(alloc, second)?;
    Ok((from, to))
}

/// Two numbers.
#[tactic(auto, unfolding(crate::specs::Shapes::TwoWords))]
pub fn two_numbers(words: &[&[u8]]) -> Result<(u64, u64), LineError>
    ensures { Reads (TwoWords IsNumber IsNumber (texts words.now)) result }
{
    let Some((first, second)) = pair(words) else {
        return Err(LineError::Bad);
    };
    let seed = number(first)?;
    let count = number(second)?;
    Ok((seed, count))
}

/// A path and a text.
#[tactic(auto, unfolding(crate::specs::Shapes::TwoWords))]
pub fn path_and_text(alloc: Global, words: &[&[u8]]) -> Result<(Path, Bytes), LineError>
    ensures { Reads (TwoWords IsPath IsText (texts words.now)) result }
{
    let Some((first, second)) = pair(words) else {
        return Err(LineError::Bad);
    };
    let path = path(alloc, first)?;
    let text = text(alloc, second)?;
    Ok((path, text))
}

/// A path and a link's target.
#[tactic(auto, unfolding(crate::specs::Shapes::TwoWords))]
pub fn path_and_target(alloc: Global, words: &[&[u8]]) -> Result<(Path, Bytes), LineError>
    ensures { Reads (TwoWords IsPath IsTarget (texts words.now)) result }
{
    let Some((first, second)) = pair(words) else {
        return Err(LineError::Bad);
    };
    let path = path(alloc, first)?;
    let target = target(alloc, second)?;
    Ok((path, target))
}

/// A path and a mode.
#[tactic(auto, unfolding(crate::specs::Shapes::TwoWords))]
pub fn path_and_mode(alloc: Global, words: &[&[u8]]) -> Result<(Path, u16), LineError>
    ensures { Reads (TwoWords IsPath IsMode (texts words.now)) result }
{
    let Some((first, second)) = pair(words) else {
        return Err(LineError::Bad);
    };
    let path = path(alloc, first)?;
    let mode = mode(second)?;
    Ok((path, mode))
}

/// A path and a name.
#[tactic(auto, unfolding(crate::specs::Shapes::TwoWords))]
pub fn path_and_name(alloc: Global, words: &[&[u8]]) -> Result<(Path, Name), LineError>
    ensures { Reads (TwoWords IsPath IsNameWord (texts words.now)) result }
{
    let Some((first, second)) = pair(words) else {
        return Err(LineError::Bad);
    };
    let path = path(alloc, first)?;
    let name = name(alloc, second)?;
    Ok((path, name))
}

/// A store path of an item, and a path.
#[tactic(auto, unfolding(crate::specs::Shapes::TwoWords))]
pub fn item_and_path(alloc: Global, words: &[&[u8]]) -> Result<(ItemAt, Path), LineError>
    ensures { Reads (TwoWords IsItem IsPath (texts words.now)) result }
{
    let Some((first, second)) = pair(words) else {
        return Err(LineError::Bad);
    };
    let item = item(alloc, first)?;
    let to = path(alloc, second)?;
    Ok((item, to))
}

/// A path, a length and a seed.
#[tactic(auto, unfolding(crate::specs::Shapes::ThreeWords))]
pub fn path_and_numbers(alloc: Global, words: &[&[u8]]) -> Result<(Path, u64, u64), LineError>
    ensures { Reads (ThreeWords IsPath IsNumber IsNumber (texts words.now)) result }
{
    let Some((first, second, third)) = triple(words) else {
        return Err(LineError::Bad);
    };
    let path = path(alloc, first)?;
    let length = number(second)?;
    let seed = number(third)?;
    Ok((path, length, seed))
}

/// A path, an owner and a group.
#[tactic(auto, unfolding(crate::specs::Shapes::ThreeWords))]
pub fn path_and_owners(alloc: Global, words: &[&[u8]]) -> Result<(Path, u32, u32), LineError>
    ensures { Reads (ThreeWords IsPath IsOwner IsOwner (texts words.now)) result }
{
    let Some((first, second, third)) = triple(words) else {
        return Err(LineError::Bad);
    };
    let path = path(alloc, first)?;
    let uid = owner(second)?;
    let gid = owner(third)?;
    Ok((path, uid, gid))
}

/// A name, an id and a number of events.
#[tactic(auto, unfolding(crate::specs::Shapes::ThreeWords))]
pub fn name_id_and_events(alloc: Global, words: &[&[u8]]) -> Result<(Name, u128, u32), LineError>
    ensures { Reads (ThreeWords IsNameWord IsId IsEvents (texts words.now)) result }
{
    let Some((first, second, third)) = triple(words) else {
        return Err(LineError::Bad);
    };
    let name = name(alloc, first)?;
    let id = id(second)?;
    let events = events(third)?;
    Ok((name, id, events))
}

// A value, which is empty where it is left out.
#[tactic(auto, unfolding(crate::specs::Shapes::MayBeLeftOut))]
fn value_or_empty(alloc: Global, words: &[&[u8]]) -> Result<Bytes, LineError>
    ensures { Reads (MayBeLeftOut IsValue (texts words.now)) result }
{
    if words.is_empty() {
        return Ok(Bytes::of(Vec::new(alloc)));
    }
    let Some(word) = only(words) else {
        return Err(LineError::Bad);
    };
    Ok(value(alloc, word)?)
}

/// A path, a name and a value, which may be left out.
#[tactic(auto, unfolding(crate::specs::Shapes::TwoAnd))]
pub fn path_name_and_value(alloc: Global, words: &[&[u8]]) -> Result<(Path, Name, Bytes), LineError>
    ensures { Reads (TwoAnd IsPath IsNameWord (MayBeLeftOut IsValue) (texts words.now)) result }
{
    let Some((one, words)) = first(words) else {
        return Err(LineError::Bad);
    };
    let Some((two, words)) = first(words) else {
        return Err(LineError::Bad);
    };
    let path = path(alloc, one)?;
    let name = name(alloc, two)?;
    let value = value_or_empty(alloc, words)?;
    Ok((path, name, value))
}
