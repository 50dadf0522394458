//! Parts of a file.
ghost use Rattle.std.specs.Prelude.{◌≡◌, ◌≤◌, ◌+◌, ℕ, true, Some, List, length, take, drop, IfSome, OnOk, OnErr};
ghost use Rattle.tm_world.specs.Faults.{NeverLess, Rose};
ghost use Rattle.tm_world.specs.Log.{now, Steps};
ghost use Rattle.tm_world.specs.Outside.{disk};
ghost use Rattle.tm_tree.specs.Items.{is_file, bytes_of};
ghost use Rattle.tm_tree.specs.Trees.{item_at};
ghost use Rattle.tm_tree.specs.declared.item.Item.{Item};
ghost use Rattle.tm_volume.specs.Seen.{IsReady, tree_on};

use crate::Volume;
use tm_base::Path;
use tm_volume_records::ITEM_KEY;
use tm_world::{Failed, Part, Side, World};

impl Volume {
    /// Reads the bytes of the file at a path, from a place on. It takes no memory, and fails only
    /// where the volume's count of faults rose.
    pub fn read_part<W: World>(
        &self,
        world: &mut W,
        path: &Path,
        at: u64,
        into: &mut [u8],
    ) -> Result<(), Failed>
        requires ready { IsReady self.now (W.blocks world.old Side.Volume) }
        requires file { (bytes : ℕ → List ℕ) → (e : Item) × (item_at (tree_on self.now bytes) path.now ≡ Some e) × (is_file e ≡ true) × (at + length into.old ≤ length (bytes_of e)) }
        ensures bytes { W.told → OnOk result (IfSome (item_at (tree_on self.now (disk Side.Volume (now (W.log world.old))).bytes) path.now)
            (λ e. into.new ≡ take (length into.old) (drop at (bytes_of e)))) }
        ensures steps { W.told → Steps (W.log world.old) (W.log world.new) (now (W.log world.old)) }
        ensures blocks { W.blocks world.new ≡ W.blocks world.old }
        ensures never_less { NeverLess (W.faults world.old) (W.faults world.new) }
        ensures cause { OnErr result (Rose (W.faults world.old Part.Volume) (W.faults world.new Part.Volume)) }
    {
        // The total comes with the order of the records.
        let _ = self.image.total();
        match self.number_at(path) {
            Ok(number) => self.image.read_part(world, ITEM_KEY + number, at, into),
            Err(_) => unreachable!(),
        }
    }
}
