//! Stored paths, and the fixed paths of a volume (`docs/RECORDS.md`, "Paths").
ghost use Rattle.std.specs.Prelude.{◌≡◌, ◌≢◌, ◌≤◌, ◌++◌, ℕ, List, [], IfOk, OnOk, flat_map, unwrap_or};
ghost use Rattle.std.specs.Ordering.{is_lt};
ghost use Rattle.tm_base.specs.Limits.{max_fixed};
ghost use Rattle.tm_base.specs.Paths.{Names, path_cmp};
ghost use Rattle.tm_codec.specs.Fields.{short_text};
ghost use Rattle.tm_nodes.specs.Answers.{IfBad, Tells};
ghost use Rattle.tm_nodes.specs.Paths.{path_text, paths_text, ArePaths};
ghost use Rattle.tm_nodes.specs.Readers.{Gives, many, to_end};
ghost use Rattle.tm_nodes.specs.Reading.{last_of, name_at, path_at, next_path_at};
ghost use Rattle.tm_nodes.specs.Records.{paths_of};
ghost use Rattle.tm_nodes.specs.Spelled.{IsSpelled, IsUnspelled};

use crate::error::{NodeError, ReadError, alone};
use crate::field::{put_name, take_name, take_u8};
use std::alloc::Global;
use tm_base::limits::{MAX_FIXED, MAX_NAMES};
use tm_base::{Name, Path};
use tm_codec::{Memory, put_u8};
use tm_tree::PathList;
use tm_world::Bytes;

fn put_each_name(out: &mut Vec<u8>, names: &[Name]) -> Result<(), Memory>
    ensures { OnOk result (out.new.items ≡ out.old.items ++ flat_map short_text names.now) }
{
    for name in names {
        put_name(out, name)?;
    }
    Ok(())
}

/// Adds a path.
#[tactic(auto, unfolding(crate::specs::Paths::path_text))]
pub fn put_path(out: &mut Vec<u8>, path: &Path) -> Result<(), Memory>
    ensures { OnOk result (out.new.items ≡ out.old.items ++ path_text path.now) }
{
    let names = path.names();
    put_u8(out, names.len() as u8)?;
    put_each_name(out, names)
}

/// A path of so many names.
fn take_each_name(alloc: Global, count: u8, bytes: &[u8]) -> Result<(Path, &[u8]), ReadError>
    requires { count ≤ 64 }
    ensures { Gives (λ x. (x.0, x.1.now)) result (many (λ before. name_at) count None bytes.now) }
{
    let mut path = Path::root(alloc);
    let mut rest = bytes;
    for _ in 0..count {
        let (name, after) = take_name(alloc, rest)?;
        path.push(name)?;
        rest = after;
    }
    Ok((path, rest))
}

/// The path in front.
#[tactic(auto, unfolding(crate::specs::Reading::path_at, crate::specs::Readers::and_then, crate::specs::Readers::only_if))]
pub fn take_path(alloc: Global, bytes: &[u8]) -> Result<(Path, &[u8]), ReadError>
    ensures { Gives (λ x. (x.0, x.1.now)) result (path_at bytes.now) }
{
    let (count, rest) = take_u8(bytes)?;
    if usize::from(count) > MAX_NAMES {
        return Err(ReadError::Broken);
    }
    take_each_name(alloc, count, rest)
}

/// The data of fixed paths; only want of memory can refuse it.
#[tactic(auto, unfolding(crate::specs::Paths::paths_text))]
pub fn paths_data(alloc: Global, paths: &PathList) -> Result<Bytes, Memory>
    requires { ArePaths paths.now }
    ensures { IfOk result (λ bytes. bytes ≡ paths_text paths.now) }
{
    let mut out = Vec::new(alloc);
    for path in paths.as_slice() {
        put_path(&mut out, path)?;
    }
    Ok(Bytes::of(out))
}

/// Whether a path is above the last one there, and isn't the root.
fn is_above(paths: &[Path], path: &Path) -> bool
    ensures { result ≡ is_lt (path_cmp (unwrap_or (last_of paths.now) []) path.now) }
{
    match paths.last() {
        None => !path.is_root(),
        Some(last) => last < path,
    }
}

/// One more path, above the last one there.
#[tactic(auto, unfolding(crate::specs::Reading::next_path_at, crate::specs::Readers::and_then, crate::specs::Readers::only_if))]
fn take_next_path<'a>(
    alloc: Global,
    paths: &[Path],
    bytes: &'a [u8],
) -> Result<(Path, &'a [u8]), ReadError>
    ensures { Gives (λ x. (x.0, x.1.now)) result (next_path_at (last_of paths.now) bytes.now) }
{
    let (path, rest) = take_path(alloc, bytes)?;
    if !is_above(paths, &path) {
        return Err(ReadError::Broken);
    }
    Ok((path, rest))
}

/// At most 256 paths, by rising path, up to the end of the bytes.
fn take_paths(alloc: Global, bytes: &[u8]) -> Result<(PathList, &[u8]), ReadError>
    ensures { Gives (λ x. (x.0, x.1.now)) result (to_end next_path_at max_fixed None bytes.now) }
{
    let mut paths = Vec::new(alloc);
    let mut rest = bytes;
    while !rest.is_empty() {
        if paths.len() >= MAX_FIXED {
            return Err(ReadError::Broken);
        }
        let (path, after) = take_next_path(alloc, &paths, rest)?;
        paths.push(path)?;
        rest = after;
    }
    Ok((PathList::of(paths), rest))
}

/// The fixed paths that are these data; [`NodeError::BadNode`] with the key 1 exactly where the
/// data are none.
pub fn read_paths(alloc: Global, data: &[u8]) -> Result<PathList, NodeError>
    ensures paths { IfOk result (IsSpelled paths_text ArePaths «data».now) }
    ensures bad { IfBad result (λ k. (k ≡ 1) × IsUnspelled paths_text ArePaths «data».now) }
    ensures told { Tells 1 result (paths_of «data».now) }
{
    alone(1, take_paths(alloc, data))
}
