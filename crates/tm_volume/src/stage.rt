//! Data before the commit that takes it up.
ghost use Rattle.std.specs.Prelude.{◌≡◌, ◌+◌, ◌≤◌, ◌<◌, ℕ, Some, OnOk, OnErr, IfOk, Err, length};
ghost use Rattle.tm_base.specs.LineFaults.{NoFault};
ghost use Rattle.tm_base.specs.declared.refused.Refused.{Refused as RefusedFor};
ghost use Rattle.tm_base.specs.declared.refused.Refused.TheVariants.{Full};
ghost use Rattle.tm_blockmap.specs.Counts.{times};
ghost use Rattle.tm_chain.specs.Blob.{blob_len, bytes_in};
ghost use Rattle.tm_image.specs.Room.{HasRoom, free_of, table_len};
ghost use Rattle.tm_image.specs.Seen.{IsSettled, staged};
ghost use Rattle.tm_volume.specs.Edits.{IsBack};
ghost use Rattle.tm_volume.specs.Reads.{LeavesSide};
ghost use Rattle.tm_volume.specs.Seen.{IsReady, StandsOn, entries_on, stored_on};
ghost use Rattle.tm_world.specs.Faults.{BlamesOnly, NeverLess};
ghost use Rattle.tm_world.specs.Log.{now};
ghost use Rattle.tm_world.specs.Outside.{disk};
ghost use Rattle.tm_world.specs.Runs.{Runs};

use crate::Volume;
use tm_base::{LineFault, Refused, Side as RefusedSide};
use tm_image::ImageError;
use tm_world::{Blob, Side, World};

impl Volume {
    /// Stages bytes, where nothing is staged: all but the free blocks is as before. It is refused
    /// as `Full` exactly by the rule of room; then, and where memory is refused, all is as before.
    ///
    /// A stop leaves the volume as it is. After a fault the volume is not to be used again.
    pub fn stage<W: World>(&mut self, world: &mut W, bytes: &[u8]) -> Result<Blob, LineFault>
        requires ready { IsReady self.old (W.blocks world.old Side.Volume) }
        requires stands { W.told → StandsOn self.old (disk Side.Volume (now (W.log world.old))) }
        ensures any_moment { W.told → Runs Side.Volume (LeavesSide (Some (stored_on self.old (disk Side.Volume (now (W.log world.old))).bytes))) (W.log world.old) (W.log world.new) }
        ensures stands { W.told → StandsOn self.new (disk Side.Volume (now (W.log world.new))) }
        ensures data { W.told → entries_on self.old (disk Side.Volume (now (W.log world.new))).bytes ≡ entries_on self.old (disk Side.Volume (now (W.log world.old))).bytes }
        ensures holds { W.told → IfOk result (λ blob. bytes_in blob.blocks (disk Side.Volume (now (W.log world.new))).bytes 0 blob.length ≡ bytes.now) }
        ensures length { IfOk result (λ blob. blob.length ≡ length bytes.now) }
        ensures many { IfOk result (λ blob. length blob.blocks ≡ blob_len blob.length) }
        ensures back { IsBack self.old self.new }
        ensures staged { IfOk result (λ blob. (b : ℕ) → staged b self.new.image ≡ times b blob.blocks) }
        ensures free { IfOk result (λ blob. free_of self.new.image + length blob.blocks ≡ free_of self.old.image) }
        ensures settled { IsSettled self.new.image }
        ensures space { OnOk result (HasRoom self.new.image) }
        ensures count { length self.new.image.used ≡ W.blocks world.old Side.Volume }
        ensures full { (why : RefusedFor) → result ≡ Err (LineFault.Refused why) → (why ≡ Full (blob_len (length bytes.now) + table_len self.old.image.records) (free_of self.old.image))
            × (free_of self.old.image < blob_len (length bytes.now) + table_len self.old.image.records) }
        ensures fits { OnOk result (blob_len (length bytes.now) + table_len self.old.image.records ≤ free_of self.old.image) }
        ensures err { OnErr result (NoFault result → self.new ≡ self.old) }
        ensures untouched { OnErr result (NoFault result → world.new ≡ world.old) }
        ensures blocks { W.blocks world.new ≡ W.blocks world.old }
        ensures never_less { NeverLess (W.faults world.old) (W.faults world.new) }
        ensures fault { BlamesOnly RefusedSide.Volume result (W.faults world.old) (W.faults world.new) }
    {
        match self.image.stage(world, bytes) {
            Ok(blob) => Ok(blob),
            Err(ImageError::Fault) => Err(LineFault::Fault(RefusedSide::Volume)),
            Err(ImageError::Full { need, free }) => {
                Err(LineFault::Refused(Refused::Full { need, free }))
            }
            Err(ImageError::Memory) => Err(LineFault::Memory),
        }
    }
}
