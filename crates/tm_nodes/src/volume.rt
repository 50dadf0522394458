//! The head of a volume (`docs/RECORDS.md`, "Heads").
ghost use Rattle.std.specs.Prelude.{◌≡◌, ℕ, IfOk};
ghost use Rattle.tm_nodes.specs.Answers.{IfBad, Tells};
ghost use Rattle.tm_nodes.specs.Headers.{volume_text, IsVolumeHead};
ghost use Rattle.tm_nodes.specs.Readers.{Gives};
ghost use Rattle.tm_nodes.specs.Reading.{volume_at};
ghost use Rattle.tm_nodes.specs.Records.{volume_of};
ghost use Rattle.tm_nodes.specs.Spelled.{IsSpelled, IsUnspelled};

use crate::error::{NodeError, ReadError, alone};
use crate::field::{put_name, take_name, take_u32, take_u128};
use std::alloc::Global;
use tm_base::Name;
use tm_codec::{Memory, put_u32, put_u128};
use tm_world::Bytes;

/// What a volume keeps of itself beside its items: it never changes.
#[derive(Drop)]
pub struct VolumeHead {
    /// The volume's id.
    pub id: u128,
    /// How many journal rows it keeps, from 1 to 65,536; any number is written and read.
    pub capacity: u32,
    /// The volume's name.
    pub name: Name,
}

/// The meta of a volume's head; only want of memory can refuse it.
#[tactic(auto, unfolding(crate::specs::Headers::volume_text))]
pub fn volume_meta(alloc: Global, head: &VolumeHead) -> Result<Bytes, Memory>
    ensures { IfOk result (λ meta. meta ≡ volume_text head.now) }
{
    let mut out = Vec::new(alloc);
    put_u128(&mut out, head.id)?;
    put_u32(&mut out, head.capacity)?;
    put_name(&mut out, &head.name)?;
    Ok(Bytes::of(out))
}

/// The head in front.
#[tactic(auto, unfolding(crate::specs::Reading::volume_at, crate::specs::Readers::and_then, crate::specs::Readers::done))]
fn take_volume(alloc: Global, bytes: &[u8]) -> Result<(VolumeHead, &[u8]), ReadError>
    ensures { Gives (λ x. (x.0, x.1.now)) result (volume_at bytes.now) }
{
    let (id, rest) = take_u128(bytes)?;
    let (capacity, rest) = take_u32(rest)?;
    let (name, rest) = take_name(alloc, rest)?;
    let head = VolumeHead { id, capacity, name };
    Ok((head, rest))
}

/// The volume's head that has this meta; [`NodeError::BadNode`] with the key 1 exactly where none
/// has.
pub fn read_volume(alloc: Global, meta: &[u8]) -> Result<VolumeHead, NodeError>
    ensures head { IfOk result (IsSpelled volume_text IsVolumeHead meta.now) }
    ensures bad { IfBad result (λ k. (k ≡ 1) × IsUnspelled volume_text IsVolumeHead meta.now) }
    ensures told { Tells 1 result (volume_of meta.now) }
{
    alone(1, take_volume(alloc, meta))
}
