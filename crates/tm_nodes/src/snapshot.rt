//! Snapshots (`docs/RECORDS.md`, "Heads").
ghost use Rattle.std.specs.Prelude.{◌≡◌, ℕ, IfOk};
ghost use Rattle.tm_nodes.specs.Answers.{IfBad, Tells};
ghost use Rattle.tm_nodes.specs.Headers.{snapshot_text, IsSnapshotRow};
ghost use Rattle.tm_nodes.specs.Readers.{Gives};
ghost use Rattle.tm_nodes.specs.Reading.{snapshot_at};
ghost use Rattle.tm_nodes.specs.Records.{snapshot_of};
ghost use Rattle.tm_nodes.specs.Spelled.{IsSpelled, IsUnspelled};

use crate::error::{NodeError, ReadError, alone};
use crate::field::{put_name, take_name, take_u64, take_u128};
use std::alloc::Global;
use tm_base::{Moment, Name};
use tm_codec::{Memory, put_u64, put_u128};
use tm_tree::{Mark, NodeId};
use tm_world::Bytes;

/// A finished backup.
#[derive(Drop)]
pub struct SnapshotRow {
    /// Its date.
    pub date: Moment,
    /// The volume's id.
    pub id: u128,
    /// How far the volume's journal had been read.
    pub mark: Mark,
    /// The volume's name.
    pub volume: Name,
    /// The node of its root.
    pub root: NodeId,
}

/// The meta of a snapshot; only want of memory can refuse it.
#[tactic(auto, unfolding(crate::specs::Headers::snapshot_text))]
pub fn snapshot_meta(alloc: Global, row: &SnapshotRow) -> Result<Bytes, Memory>
    ensures { IfOk result (λ meta. meta ≡ snapshot_text row.now) }
{
    let mut out = Vec::new(alloc);
    put_u64(&mut out, row.date.seconds())?;
    put_u128(&mut out, row.id)?;
    put_u64(&mut out, row.mark.generation)?;
    put_u64(&mut out, row.mark.cursor)?;
    put_name(&mut out, &row.volume)?;
    put_u64(&mut out, row.root.0)?;
    Ok(Bytes::of(out))
}

/// The snapshot in front.
#[tactic(auto, unfolding(crate::specs::Reading::snapshot_at, crate::specs::Reading::moment_at, crate::specs::Readers::and_then, crate::specs::Readers::only_if, crate::specs::Readers::done))]
fn take_snapshot(alloc: Global, bytes: &[u8]) -> Result<(SnapshotRow, &[u8]), ReadError>
    ensures { Gives (λ x. (x.0, x.1.now)) result (snapshot_at bytes.now) }
{
    let (seconds, rest) = take_u64(bytes)?;
    let Some(date) = Moment::from_seconds(seconds) else {
        return Err(ReadError::Broken);
    };
    let (id, rest) = take_u128(rest)?;
    let (generation, rest) = take_u64(rest)?;
    let (cursor, rest) = take_u64(rest)?;
    let (volume, rest) = take_name(alloc, rest)?;
    let (root, rest) = take_u64(rest)?;
    let mark = Mark { generation, cursor };
    let row = SnapshotRow {
        date,
        id,
        mark,
        volume,
        root: NodeId(root),
    };
    Ok((row, rest))
}

/// The snapshot whose record under `key` has this meta; [`NodeError::BadNode`] with `key` exactly
/// where the meta is no snapshot's.
pub fn read_snapshot(alloc: Global, key: u64, meta: &[u8]) -> Result<SnapshotRow, NodeError>
    ensures row { IfOk result (IsSpelled snapshot_text IsSnapshotRow meta.now) }
    ensures bad { IfBad result (λ k. (k ≡ key) × IsUnspelled snapshot_text IsSnapshotRow meta.now) }
    ensures told { Tells key result (snapshot_of meta.now) }
{
    alone(key, take_snapshot(alloc, meta))
}
