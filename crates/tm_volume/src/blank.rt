//! Formatting a side.
ghost use Rattle.std.specs.Prelude.{◌≡◌, ◌⊎◌, ◌≤◌, ◌<◌, ◌^◌, ℕ, None, Some, IfOk, IsErrOf, Err};
ghost use Rattle.tm_world.specs.Disk.{Image as ImageOf};
ghost use Rattle.tm_world.specs.Faults.{BlamesOnly, NeverLess};
ghost use Rattle.tm_world.specs.Log.{now};
ghost use Rattle.tm_world.specs.Outside.{disk};
ghost use Rattle.tm_world.specs.Runs.{Runs};
ghost use Rattle.tm_base.specs.declared.refused.Refused.{Refused};
ghost use Rattle.tm_base.specs.declared.refused.Side.{Side as RefusedSide};
ghost use Rattle.tm_volume.specs.Reads.{IsBlank, LeavesEither};
ghost use Rattle.tm_volume.specs.Seen.{IsReady, StandsOn, stored_on};
ghost use Rattle.tm_volume.specs.Stored.{new_stored};
ghost use Rattle.tm_volume.specs.Blank.{first_puts, root_row};
ghost use Rattle.tm_base.specs.Days.{last_moment};
ghost use Rattle.tm_nodes.specs.Headers.{volume_text, IsVolumeHead};
ghost use Rattle.tm_base.specs.Limits.{min_blocks, max_events, max_blocks};

use crate::Volume;
use crate::row::meta_of;
use crate::tag::write_tag;
use std::alloc::{AllocError, Global};
use tm_base::limits::MIN_BLOCKS;
use tm_base::{LineFault, Moment, Name};
use tm_image::{Image, ImageError};
use tm_index::Index;
use tm_nodes::{VolumeHead, volume_meta};
use tm_records::{Body, Put};
use tm_tree::{Attrs, ItemBody, ItemRow};
use tm_volume_records::{FixedPaths, HEAD_KEY, ITEM_KEY};
use tm_world::{Bytes, Side, World};

/// The head of a new volume.
fn new_head(name: &Name, id: u128, events: u32) -> Result<VolumeHead, AllocError>
    ensures head { IfOk result (λ head. head ≡ record { id = id; capacity = events; name = name.now }) }
    ensures rules { IfOk result IsVolumeHead }
{
    // Its bytes come with the rules of a name.
    let _ = name.as_bytes();
    Ok(VolumeHead {
        id,
        capacity: events,
        name: name.clone()?,
    })
}

/// The meta of a head.
pub(crate) fn meta_of_head(alloc: Global, head: &VolumeHead) -> Result<Bytes, AllocError>
    ensures { IfOk result (λ meta. meta ≡ volume_text head.now) }
{
    match volume_meta(alloc, head) {
        Ok(meta) => Ok(meta),
        Err(_) => Err(AllocError),
    }
}

/// The root of a new volume.
fn new_root(alloc: Global, moment: Moment) -> ItemRow
    ensures row { result ≡ root_row moment }
    ensures low { moment ≤ last_moment }
{
    let _ = moment.seconds();
    ItemRow {
        parent: 0,
        name: None,
        body: ItemBody::Folder {
            attrs: Attrs::new(alloc, 0o755, moment),
        },
    }
}

/// The head of a new volume and its root, both without data.
fn first_puts(alloc: Global, head: &VolumeHead, moment: Moment) -> Result<Vec<Put>, AllocError>
    ensures puts { IfOk result (λ put. put.items ≡ first_puts head.now moment) }
    ensures low { moment ≤ last_moment }
{
    let root = new_root(alloc, moment);
    let first = Put {
        key: HEAD_KEY,
        meta: meta_of_head(alloc, head)?,
        body: Body::Empty,
    };
    let second = Put {
        key: ITEM_KEY + 1,
        meta: meta_of(alloc, &root)?,
        body: Body::Empty,
    };
    Ok(vec![in alloc; first, second]?)
}

impl Volume {
    /// Formats a side of so many blocks with a new volume, which keeps so many journal rows, 1 to
    /// 65,536. It is refused as `Small` exactly where there are fewer than 8 blocks.
    ///
    /// A stop leaves the side unformatted, or the new volume. Where memory is refused, nothing was
    /// written; after a fault the side is not to be used again.
    pub fn blank<W: World>(
        alloc: Global,
        world: &mut W,
        blocks: u32,
        name: &Name,
        id: u128,
        events: u32,
        moment: Moment,
    ) -> Result<Volume, LineFault>
        requires count { W.blocks world.old Side.Volume ≡ blocks }
        requires most { blocks ≤ max_blocks }
        requires events { (1 ≤ events) × (events ≤ max_events) }
        requires blank { W.told → IsBlank (disk Side.Volume (now (W.log world.old))) }
        ensures any_moment { W.told → Runs Side.Volume (LeavesEither None (Some (new_stored name.now id events moment))) (W.log world.old) (W.log world.new) }
        ensures ready { IfOk result (λ v. IsReady v blocks) }
        ensures looks { IfOk result (λ v. v.looks ≡ 0) }
        ensures stands { W.told → IfOk result (λ v. StandsOn v (disk Side.Volume (now (W.log world.new)))) }
        ensures new { W.told → IfOk result (λ v. stored_on v (disk Side.Volume (now (W.log world.new))).bytes ≡ new_stored name.now id events moment) }
        ensures small { blocks < min_blocks → result ≡ Err (LineFault.Refused Refused.Small) }
        ensures refused { (why : Refused) → result ≡ Err (LineFault.Refused why) → (why ≡ Refused.Small) × (blocks < min_blocks) }
        ensures blank { W.told → (result ≡ Err (LineFault.Refused Refused.Small)) ⊎ (result ≡ Err LineFault.Memory) → W.log world.new ≡ W.log world.old }
        ensures blocks { W.blocks world.new ≡ W.blocks world.old }
        ensures never_less { NeverLess (W.faults world.old) (W.faults world.new) }
        ensures fault { BlamesOnly RefusedSide.Volume result (W.faults world.old) (W.faults world.new) }
    {
        if blocks < MIN_BLOCKS {
            return Err(LineFault::Refused(tm_base::Refused::Small));
        }
        let head = new_head(name, id, events)?;
        let put = first_puts(alloc, &head, moment)?;
        let tag = write_tag(false, 1, 1);
        let image = match Image::blank(alloc, world, Side::Volume, blocks, put, tag) {
            Ok(image) => image,
            Err(ImageError::Fault) => return Err(LineFault::Fault(tm_base::Side::Volume)),
            Err(ImageError::Full { .. }) => unreachable!(),
            Err(ImageError::Memory) => return Err(LineFault::Memory),
        };
        Ok(Volume {
            alloc,
            image,
            head,
            fixed: FixedPaths::none(alloc),
            clean: false,
            generation: 1,
            next: 1,
            numbers: Index::new(alloc),
            looks: 0,
        })
    }
}
