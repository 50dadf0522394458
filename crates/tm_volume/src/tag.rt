//! The tag of a volume: its mark, its generation and its next number.
ghost use Rattle.std.specs.Prelude.{◌≡◌, ◌≤◌, ◌<◌, ◌^◌, ◌==◌, true, cond, Some, OnOk, OnErr};
ghost use Rattle.tm_world.specs.Faults.{NeverLess, Rose};
ghost use Rattle.tm_world.specs.Log.{now};
ghost use Rattle.tm_world.specs.Outside.{disk};
ghost use Rattle.tm_world.specs.Runs.{Runs};
ghost use Rattle.tm_gate.specs.Tag.{volume_tag, IsVolumeTag};
ghost use Rattle.tm_volume_records.specs.Rules.{IsTagged};
ghost use Rattle.tm_volume.specs.Reads.{LeavesEither};
ghost use Rattle.tm_volume.specs.Seen.{IsReady, StandsOn, stored_on};
ghost use Rattle.tm_volume.specs.Stored.{retagged};

use crate::Volume;
use tm_codec::get_u64;
use tm_world::{Failed, Part, Side, World};

/// The 64 bytes of a tag.
pub(crate) fn write_tag(clean: bool, generation: u64, next: u64) -> [u8; 64]
    ensures { result ≡ volume_tag (cond clean 1 0) generation next }
{
    let mut tag = [0u8; 64];
    tag[..1].copy_from_slice(&[u8::from(clean)]);
    tag[8..16].copy_from_slice(&generation.to_be_bytes());
    tag[16..24].copy_from_slice(&next.to_be_bytes());
    tag
}

/// What a tag says.
#[derive(Clone, Copy)]
pub(crate) struct Fields {
    pub(crate) clean: bool,
    pub(crate) generation: u64,
    pub(crate) next: u64,
}

/// What the 64 bytes of a tag say.
pub(crate) fn read_tag(tag: &[u8; 64]) -> Fields
    requires { IsVolumeTag tag.now }
    ensures is { tag.now ≡ volume_tag (cond result.clean 1 0) result.generation result.next }
    ensures tagged { IsTagged (record { clean = cond result.clean 1 0; generation = result.generation; next = result.next }) }
{
    Fields {
        clean: tag[0] == 1,
        generation: get_u64(tag, 8).unwrap(),
        next: get_u64(tag, 16).unwrap(),
    }
}

impl Volume {
    /// Sets the clean mark, the generation, 1 to 2^62 - 1, and the next number, from the one that
    /// stands to 2^62; the mark is set only where it is on already. It takes no memory.
    ///
    /// A stop leaves the volume before or after; after a failure it is not to be used again.
    pub fn retag<W: World>(
        &mut self,
        world: &mut W,
        clean: bool,
        generation: u64,
        next: u64,
    ) -> Result<(), Failed>
        requires generation { (1 ≤ generation) × (generation < 2 ^ 62) }
        requires next { (self.old.tag.next ≤ next) × (next ≤ 2 ^ 62) }
        requires clean { clean ≡ true → self.old.tag.clean ≡ 1 }
        requires ready { IsReady self.old (W.blocks world.old Side.Volume) }
        requires stands { W.told → StandsOn self.old (disk Side.Volume (now (W.log world.old))) }
        ensures any_moment { W.told → let old = stored_on self.old (disk Side.Volume (now (W.log world.old))).bytes in
            Runs Side.Volume (LeavesEither (Some old) (Some (retagged old clean generation next))) (W.log world.old) (W.log world.new) }
        ensures tag { OnOk result (self.new.tag ≡ record { clean = cond clean 1 0; generation = generation; next = next }) }
        ensures stored { W.told → OnOk result (stored_on self.new (disk Side.Volume (now (W.log world.new))).bytes
            ≡ retagged (stored_on self.old (disk Side.Volume (now (W.log world.old))).bytes) clean generation next) }
        ensures same { (self.new.head ≡ self.old.head) × (self.new.fixed ≡ self.old.fixed) × (self.new.looks ≡ self.old.looks) }
        ensures ready { IsReady self.new (W.blocks world.old Side.Volume) }
        ensures stands { W.told → OnOk result (StandsOn self.new (disk Side.Volume (now (W.log world.new)))) }
        ensures err { OnErr result (self.new ≡ self.old) }
        ensures blocks { W.blocks world.new ≡ W.blocks world.old }
        ensures never_less { NeverLess (W.faults world.old) (W.faults world.new) }
        ensures cause { OnErr result (Rose (W.faults world.old Part.Volume) (W.faults world.new Part.Volume)) }
    {
        self.image.retag(world, write_tag(clean, generation, next))?;
        self.clean = clean;
        self.generation = generation;
        self.next = next;
        Ok(())
    }
}
