//! Reading data.
ghost use Rattle.std.specs.Prelude.{◌≡◌, ◌≤◌, ◌<◌, ◌+◌, OnOk, OnErr, IfSome, IsSome, length, take, drop};
ghost use Rattle.tm_world.specs.Outside.{disk, part_of};
ghost use Rattle.tm_world.specs.Log.{now, Steps};
ghost use Rattle.tm_world.specs.Faults.{NeverLess, Rose};
ghost use Rattle.tm_chain.specs.Blob.{bytes_in};
ghost use Rattle.tm_records.specs.Records.{at};
ghost use Rattle.tm_image.specs.Reads.{entries_of};
ghost use Rattle.tm_image.specs.Lookups.{entry_at};

use crate::Image;
use tm_chain::read_blob;
use tm_world::{Failed, World};

impl Image {
    /// Reads the bytes from a place of a record's data on. It takes no memory, and fails only where
    /// this side's count of faults rose.
    pub fn read_part<W: World>(
        &self,
        world: &mut W,
        key: u64,
        from: u64,
        into: &mut [u8],
    ) -> Result<(), Failed>
        requires count { length self.now.used ≡ W.blocks world.old self.now.side }
        requires there { IsSome (at key self.now.records) }
        requires range { IfSome (at key self.now.records) (λ r. from + length into.old ≤ r.length) }
        ensures bytes { W.told → OnOk result (IfSome (at key self.now.records) (λ r. into.new ≡ bytes_in r.blocks (disk self.now.side (now (W.log world.old))).bytes from (length into.old))) }
        ensures entry { W.told → OnOk result (IfSome (entry_at key (entries_of (disk self.now.side (now (W.log world.old))).bytes self.now.records)) (λ e. into.new ≡ take (length into.old) (drop from e.bytes))) }
        ensures steps { W.told → Steps (W.log world.old) (W.log world.new) (now (W.log world.old)) }
        ensures blocks { W.blocks world.new ≡ W.blocks world.old }
        ensures never_less { NeverLess (W.faults world.old) (W.faults world.new) }
        ensures cause { OnErr result (Rose (W.faults world.old (part_of self.now.side)) (W.faults world.new (part_of self.now.side))) }
    {
        match self.records.get(&key) {
            Some(record) => read_blob(world, self.side, record.blocks.as_slice(), from, into),
            None => unreachable!(),
        }
    }
}
