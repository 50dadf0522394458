//! A reader for each kind of word (`docs/SCRIPT.md`, "Words").
//!
//! Each answers what the word spells, or `Bad` exactly where it spells nothing.
ghost use Rattle.std.specs.Prelude.{◌≡◌, IfOk, IsTrue, ◌↔◌, ◌≤◌, length, ℕ, List, codes};
ghost use Rattle.percent_encoding.specs.Percent.{percent_decode};
ghost use Rattle.tm_base.specs.Limits.{max_names};
ghost use Rattle.tm_text.specs.Pieces.{texts, pieces};
ghost use Rattle.tm_text.specs.Reads.{Reads};
ghost use Rattle.tm_text.specs.Words.{IsNameWord, IsText, IsValue, IsNumber, IsEvents, IsSteps, IsMode, IsDate, IsId, AreNames, IsPath, IsWhich, IsTarget, IsOwner, IsItem, IsSnapshot, IsStored, IsStorePath, IsStorePathParts};

use crate::error::LineError;
use crate::pieces::split_at_byte;
use crate::place::{ItemAt, SnapshotAt, StorePath, Stored, Which};
use crate::shapes::first;
use std::alloc::{AllocError, Global};
use tm_base::limits::{MAX_EVENTS, MAX_NAMES, MAX_TARGET_BYTES, MAX_VALUE_BYTES};
use tm_base::{Moment, Name, NameError, Path};
use tm_world::Bytes;
use uuid::Uuid;

// The bytes of a word whose escapes are read.
fn decode(alloc: Global, word: &[u8]) -> Result<Vec<u8>, AllocError>
    ensures { IfOk result (λ bytes. bytes.items ≡ percent_decode word.now) }
{
    let mut bytes = Vec::new(alloc);
    percent_encoding::percent_decode(word).append_to(&mut bytes)?;
    Ok(bytes)
}

/// NAME, MACHINE.
#[tactic(auto, unfolding(crate::specs::Words::IsNameWord))]
pub fn name(alloc: Global, word: &[u8]) -> Result<Name, LineError>
    ensures { Reads (IsNameWord word.now) result }
{
    let bytes = decode(alloc, word)?;
    match Name::read(alloc, bytes.as_slice()) {
        Ok(name) => Ok(name),
        Err(NameError::BadName) => Err(LineError::Bad),
        Err(NameError::Memory) => Err(LineError::Memory),
    }
}

/// TEXT.
#[tactic(auto, unfolding(crate::specs::Words::IsText))]
pub fn text(alloc: Global, word: &[u8]) -> Result<Bytes, LineError>
    ensures { Reads (IsText word.now) result }
{
    Ok(Bytes::of(decode(alloc, word)?))
}

/// VALUE, where it is not left out.
#[tactic(auto, unfolding(crate::specs::Words::IsValue))]
pub fn value(alloc: Global, word: &[u8]) -> Result<Bytes, LineError>
    ensures { Reads (IsValue word.now) result }
{
    let bytes = decode(alloc, word)?;
    if bytes.len() > MAX_VALUE_BYTES {
        return Err(LineError::Bad);
    }
    Ok(Bytes::of(bytes))
}

/// TARGET.
#[tactic(auto, unfolding(crate::specs::Words::IsTarget))]
pub fn target(alloc: Global, word: &[u8]) -> Result<Bytes, LineError>
    ensures { Reads (IsTarget word.now) result }
{
    let bytes = decode(alloc, word)?;
    if bytes.is_empty() || bytes.len() > MAX_TARGET_BYTES {
        return Err(LineError::Bad);
    }
    if str::from_utf8(bytes.as_slice()).is_err() || !bytes.iter().all(|b| *b != 0) {
        return Err(LineError::Bad);
    }
    Ok(Bytes::of(bytes))
}

/// LENGTH, SEED, COUNT, N.
#[tactic(auto, unfolding(crate::specs::Words::IsNumber))]
pub fn number(word: &[u8]) -> Result<u64, LineError>
    ensures { Reads (IsNumber word.now) result }
{
    if word.len() > 20 || word.starts_with(b"+") {
        return Err(LineError::Bad);
    }
    match str::from_utf8(word) {
        Ok(text) => match text.parse::<u64>() {
            Ok(n) => Ok(n),
            Err(_) => Err(LineError::Bad),
        },
        Err(_) => Err(LineError::Bad),
    }
}

/// EVENTS.
#[tactic(auto, unfolding(crate::specs::Words::IsEvents, crate::specs::Words::IsNumber))]
pub fn events(word: &[u8]) -> Result<u32, LineError>
    ensures { Reads (IsEvents word.now) result }
{
    let n = number(word)?;
    if n < 1 || n > MAX_EVENTS {
        return Err(LineError::Bad);
    }
    Ok(n as u32)
}

/// N of `advance`.
#[tactic(auto, unfolding(crate::specs::Words::IsSteps, crate::specs::Words::IsNumber))]
pub fn steps(word: &[u8]) -> Result<u64, LineError>
    ensures { Reads (IsSteps word.now) result }
{
    let n = number(word)?;
    if n < 1 {
        return Err(LineError::Bad);
    }
    Ok(n)
}

/// UID, GID.
#[tactic(auto, unfolding(crate::specs::Words::IsOwner, crate::specs::Words::IsNumber))]
pub fn owner(word: &[u8]) -> Result<u32, LineError>
    ensures { Reads (IsOwner word.now) result }
{
    let n = number(word)?;
    if n > 0xffff_ffff {
        return Err(LineError::Bad);
    }
    Ok(n as u32)
}

/// MODE.
#[tactic(auto, unfolding(crate::specs::Words::IsMode))]
pub fn mode(word: &[u8]) -> Result<u16, LineError>
    ensures { Reads (IsMode word.now) result }
{
    if word.len() > 4 || word.starts_with(b"+") {
        return Err(LineError::Bad);
    }
    match str::from_utf8(word) {
        Ok(text) => match u16::from_str_radix(text, 8) {
            Ok(n) => Ok(n),
            Err(_) => Err(LineError::Bad),
        },
        Err(_) => Err(LineError::Bad),
    }
}

/// ID, in any of the four forms of `uuid`.
#[tactic(auto, unfolding(crate::specs::Words::IsId))]
pub fn id(word: &[u8]) -> Result<u128, LineError>
    ensures { Reads (IsId word.now) result }
{
    match Uuid::try_parse_ascii(word) {
        Ok(id) => Ok(id.as_u128()),
        Err(_) => Err(LineError::Bad),
    }
}

/// DATE.
#[tactic(auto, unfolding(crate::specs::Words::IsDate))]
pub fn date(word: &[u8]) -> Result<Moment, LineError>
    ensures { Reads (IsDate word.now) result }
{
    match Moment::read(word) {
        Ok(moment) => Ok(moment),
        Err(_) => Err(LineError::Bad),
    }
}

// The path whose names these parts spell.
fn names(alloc: Global, parts: &[&[u8]]) -> Result<Path, LineError>
    ensures { Reads (λ path. AreNames (texts parts.now) path × (length path ≤ max_names)) result }
{
    if parts.len() > MAX_NAMES {
        return Err(LineError::Bad);
    }
    let mut path = Path::root(alloc);
    for part in parts {
        path.push(name(alloc, part)?)?;
    }
    Ok(path)
}

/// P, Q.
#[tactic(auto, unfolding(crate::specs::Words::IsPath))]
pub fn path(alloc: Global, word: &[u8]) -> Result<Path, LineError>
    ensures { Reads (IsPath word.now) result }
{
    if !word.starts_with(b"/") {
        return Err(LineError::Bad);
    }
    let parts = split_at_byte(alloc, word, b'/')?;
    names(alloc, parts.as_slice())
}

// A date, or `Latest`.
#[tactic(auto, unfolding(crate::specs::Words::IsWhich))]
fn which(word: &[u8]) -> Result<Which, LineError>
    ensures { Reads (IsWhich word.now) result }
{
    if word == b"Latest".as_slice() {
        return Ok(Which::Latest);
    }
    Ok(Which::At(date(word)?))
}

// The place of a store path whose parts after the first are these.
#[tactic(auto, unfolding(crate::specs::Words::IsStorePathParts))]
fn store_path_parts(alloc: Global, parts: &[&[u8]]) -> Result<StorePath, LineError>
    ensures { Reads (IsStorePathParts (texts parts.now)) result }
{
    let Some((machine, parts)) = first(parts) else {
        return Ok(StorePath::Top);
    };
    let machine = name(alloc, machine)?;
    let Some((at, parts)) = first(parts) else {
        return Ok(StorePath::Machine(machine));
    };
    let at = which(at)?;
    let Some((volume, parts)) = first(parts) else {
        return Ok(StorePath::Snapshot(SnapshotAt { machine, at }));
    };
    let volume = name(alloc, volume)?;
    let path = names(alloc, parts)?;
    let snapshot = SnapshotAt { machine, at };
    Ok(StorePath::Item(ItemAt {
        snapshot,
        volume,
        path,
    }))
}

/// SP of any form.
#[tactic(auto, unfolding(crate::specs::Words::IsStorePath))]
pub fn store_path(alloc: Global, word: &[u8]) -> Result<StorePath, LineError>
    ensures { Reads (IsStorePath word.now) result }
{
    if !word.starts_with(b"/") {
        return Err(LineError::Bad);
    }
    let parts = split_at_byte(alloc, word, b'/')?;
    let Some((top, below)) = first(parts.as_slice()) else {
        return Err(LineError::Bad);
    };
    let top = decode(alloc, top)?;
    if top.as_slice() != b"Backups.backupdb".as_slice() {
        return Err(LineError::Bad);
    }
    store_path_parts(alloc, below)
}

/// SP of an item.
#[tactic(auto, unfolding(crate::specs::Words::IsItem))]
pub fn item(alloc: Global, word: &[u8]) -> Result<ItemAt, LineError>
    ensures { Reads (IsItem word.now) result }
{
    match store_path(alloc, word)? {
        StorePath::Item(item) => Ok(item),
        _ => Err(LineError::Bad),
    }
}

/// SP of a snapshot.
#[tactic(auto, unfolding(crate::specs::Words::IsSnapshot))]
pub fn snapshot(alloc: Global, word: &[u8]) -> Result<SnapshotAt, LineError>
    ensures { Reads (IsSnapshot word.now) result }
{
    match store_path(alloc, word)? {
        StorePath::Snapshot(snapshot) => Ok(snapshot),
        _ => Err(LineError::Bad),
    }
}

/// SP of a snapshot or an item.
#[tactic(auto, unfolding(crate::specs::Words::IsStored))]
pub fn stored(alloc: Global, word: &[u8]) -> Result<Stored, LineError>
    ensures { Reads (IsStored word.now) result }
{
    match store_path(alloc, word)? {
        StorePath::Snapshot(snapshot) => Ok(Stored::Snapshot(snapshot)),
        StorePath::Item(item) => Ok(Stored::Item(item)),
        _ => Err(LineError::Bad),
    }
}
