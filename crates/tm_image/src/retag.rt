//! A new tag.
ghost use Rattle.std.specs.Prelude.{◌≡◌, ◌≤◌, ◌<◌, ℕ, OnOk, OnErr, length};
ghost use Rattle.tm_world.specs.Outside.{disk, part_of};
ghost use Rattle.tm_world.specs.Log.{now};
ghost use Rattle.tm_world.specs.Runs.{Runs};
ghost use Rattle.tm_world.specs.Faults.{NeverLess, Rose};
ghost use Rattle.tm_gate.specs.Tag.{IsTag};
ghost use Rattle.tm_image.specs.Reads.{LeavesOneOf, entries_of};
ghost use Rattle.tm_image.specs.Seen.{Stands, IsSound, IsSettled};
ghost use Rattle.tm_image.specs.Room.{HasRoom};

use crate::Image;
use tm_gate::{Root, turn};
use tm_world::{Failed, World};

impl Image {
    /// Puts another tag in the place of the tag, and nothing else. It takes no memory. A stop leaves
    /// the old tag or the new, and the records as they are; after a failure the image is not to be
    /// used again.
    pub fn retag<W: World>(&mut self, world: &mut W, tag: [u8; 64]) -> Result<(), Failed>
        requires settled { IsSettled self.old }
        requires space { HasRoom self.old }
        requires count { length self.old.used ≡ W.blocks world.old self.old.side }
        requires tag { IsTag self.old.side tag }
        requires stands { W.told → Stands self.old (disk self.old.side (now (W.log world.old))) }
        ensures any_moment { W.told → let old = disk self.old.side (now (W.log world.old)) in
            Runs self.old.side (LeavesOneOf self.old.side (entries_of old.bytes self.old.records) self.old.root.tag (entries_of old.bytes self.old.records) tag) (W.log world.old) (W.log world.new) }
        ensures stands { W.told → OnOk result (Stands self.new (disk self.old.side (now (W.log world.new)))) }
        ensures data { W.told → OnOk result (entries_of (disk self.old.side (now (W.log world.new))).bytes self.old.records ≡ entries_of (disk self.old.side (now (W.log world.old))).bytes self.old.records) }
        ensures others { W.told → OnOk result ((b : ℕ) → 3 ≤ b → (disk self.old.side (now (W.log world.new))).bytes b ≡ (disk self.old.side (now (W.log world.old))).bytes b) }
        ensures tag { OnOk result (self.new.root.tag ≡ tag) }
        ensures same { (self.new.side ≡ self.old.side) × (self.new.records ≡ self.old.records) × (self.new.layout ≡ self.old.layout) × (self.new.used ≡ self.old.used) }
        ensures sound { IsSound self.new }
        ensures settled { IsSettled self.new }
        ensures space { HasRoom self.new }
        ensures err { OnErr result (self.new ≡ self.old) }
        ensures blocks { W.blocks world.new ≡ W.blocks world.old }
        ensures never_less { NeverLess (W.faults world.old) (W.faults world.new) }
        ensures cause { OnErr result (Rose (W.faults world.old (part_of self.old.side)) (W.faults world.new (part_of self.old.side))) }
    {
        let root = Root {
            tag,
            ..self.gate.root
        };
        turn(world, self.side, &mut self.gate, root)?;
        Ok(())
    }
}
