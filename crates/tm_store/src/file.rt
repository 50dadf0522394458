//! The bytes of files.
ghost use Rattle.std.specs.Prelude.{◌≡◌, ◌≤◌, ◌+◌, true, OnOk, OnErr, IfSome, is_some, length, take, drop};
ghost use Rattle.tm_world.specs.Outside.{disk, part_of};
ghost use Rattle.tm_world.specs.Log.{now, Steps};
ghost use Rattle.tm_world.specs.Faults.{NeverLess, Rose};
ghost use Rattle.tm_graph.specs.Nodes.{node};
ghost use Rattle.tm_identity.specs.Stored.{node_length};
ghost use Rattle.tm_store_records.specs.Held.{IsWhole, files_of};

use crate::Store;
use tm_nodes::spellings_are_found;
use tm_store_records::NODE_KEY;
use tm_tree::NodeId;
use tm_world::{Failed, Side, World};

impl Store {
    /// Reads the bytes of a file's node, from a place on. It takes no memory, and fails only where
    /// this side's count of faults rose.
    pub fn read_file<W: World>(
        &self,
        world: &mut W,
        number: NodeId,
        at: u64,
        into: &mut [u8],
    ) -> Result<(), Failed>
        requires whole { IsWhole self.now }
        requires count { length self.now.image.used ≡ W.blocks world.old Side.Store }
        requires there { is_some (node self.now.nodes number) ≡ true }
        requires range { IfSome (node self.now.nodes number) (λ row. at + length into.old ≤ node_length row) }
        ensures bytes { W.told → OnOk result (into.new ≡ take (length into.old) (drop at (files_of self.now.image.records (disk Side.Store (now (W.log world.old))).bytes number))) }
        ensures steps { W.told → Steps (W.log world.old) (W.log world.new) (now (W.log world.old)) }
        ensures blocks { W.blocks world.new ≡ W.blocks world.old }
        ensures never_less { NeverLess (W.faults world.old) (W.faults world.new) }
        ensures cause { OnErr result (Rose (W.faults world.old (part_of Side.Store)) (W.faults world.new (part_of Side.Store))) }
    {
        spellings_are_found();
        // This shows that it is a graph.
        let _ = self.graph.len();
        self.image.read_part(world, NODE_KEY + number.0, at, into)
    }
}
