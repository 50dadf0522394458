//! Writing a commit that was prepared, and the tag alone.
ghost use Rattle.std.specs.Prelude.{◌≡◌, ◌+◌, ◌<◌, ◌≤◌, ◌-◌, ℕ, OnOk, OnErr, length, slice_index, sum};
ghost use Rattle.std.specs.List.{sum_by};
ghost use Rattle.tm_world.specs.Outside.{disk, part_of};
ghost use Rattle.tm_world.specs.Log.{now};
ghost use Rattle.tm_world.specs.Runs.{Runs};
ghost use Rattle.tm_world.specs.Faults.{NeverLess, Rose};
ghost use Rattle.tm_gate.specs.Gate.{IsGate};
ghost use Rattle.tm_gate.specs.Tag.{IsTag};
ghost use Rattle.tm_blockmap.specs.Marks.{AreMarks};
ghost use Rattle.tm_blockmap.specs.Counts.{times};
ghost use Rattle.tm_image.specs.Content.{Content, IsAtRest, LeavesEither, in_data};
ghost use Rattle.tm_image.specs.Seen.{content_of, IsSettled, IsSound};
ghost use Rattle.tm_image.specs.Room.{HasRoom};
ghost use Rattle.tm_image.specs.Commit.{IsFor, IsCovered, IsFinished, next_content, released, released_len};

use crate::write::{first_block, write_out};
use crate::{Image, Prepared};
use tm_blockmap::BlockMap;
use tm_gate::Root;
use tm_records::Undo;
use tm_world::{Failed, World};

/// Frees what was let go.
fn give_log(map: &mut BlockMap, log: &[Undo])
    requires used { (b : ℕ) → released b log.now ≤ slice_index map.old b }
    requires marks { AreMarks map.old }
    ensures marks { (b : ℕ) → slice_index map.new b + released b log.now ≡ slice_index map.old b }
    ensures size { length map.new ≡ length map.old }
    ensures count { sum map.new + released_len log.now ≡ sum map.old }
{
    for undo in log {
        if let Undo::Replaced(_, old) = undo {
            map.give_all(old.blocks.as_slice());
        }
    }
}

impl Image {
    /// Writes the commit that the last call prepared, with this tag. It takes no memory.
    ///
    /// The content of the disk before it stays until the new one takes its place: a stop leaves
    /// one of the two. After a failure the image is not to be used again.
    pub fn finish<W: World>(
        &mut self,
        world: &mut W,
        prepared: Prepared,
        tag: [u8; 64],
    ) -> Result<(), Failed>
        requires count { length self.old.used ≡ W.blocks world.old self.old.side }
        requires ready { IsFor prepared.text.items prepared.blocks.items prepared.log.items self.old }
        requires tag { IsTag self.old.side tag }
        requires gate { W.told → IsGate (disk self.old.side (now (W.log world.old))) self.old.named ((disk self.old.side (now (W.log world.old))).bytes self.old.named) }
        ensures any_moment { W.told → (old : Content) → IsAtRest old self.old.named (disk self.old.side (now (W.log world.old))) → IsCovered old self.old prepared.log.items
            → Runs self.old.side (LeavesEither old (next_content prepared.blocks.items prepared.text.items tag self.old) (disk self.old.side (now (W.log world.old))).bytes) (W.log world.old) (W.log world.new) }
        ensures at_rest { W.told → OnOk result ((old : Content) → IsAtRest old self.old.named (disk self.old.side (now (W.log world.old))) → IsCovered old self.old prepared.log.items
            → IsAtRest (content_of self.new) self.new.named (disk self.old.side (now (W.log world.new)))) }
        ensures data { W.told → OnOk result ((old : Content) → IsAtRest old self.old.named (disk self.old.side (now (W.log world.old))) → IsCovered old self.old prepared.log.items
            → (b : ℕ) → 0 < in_data b self.old.records → (disk self.old.side (now (W.log world.new))).bytes b ≡ (disk self.old.side (now (W.log world.old))).bytes b) }
        ensures others { W.told → OnOk result ((b : ℕ) → 3 ≤ b → times b prepared.blocks.items ≡ 0 → (disk self.old.side (now (W.log world.new))).bytes b ≡ (disk self.old.side (now (W.log world.old))).bytes b) }
        ensures sound { IsSound self.old }
        ensures sound_after { IsSound self.new }
        ensures ok { OnOk result (IsFinished self.old self.new prepared.text.items prepared.blocks.items prepared.log.items tag) }
        ensures count { OnOk result (sum self.new.used + length self.old.layout + released_len prepared.log.items ≡ sum self.old.used) }
        ensures settled { OnOk result (IsSettled self.new) }
        ensures space { OnOk result (HasRoom self.new) }
        ensures err { OnErr result (self.new ≡ self.old) }
        ensures blocks { W.blocks world.new ≡ W.blocks world.old }
        ensures never_less { NeverLess (W.faults world.old) (W.faults world.new) }
        ensures cause { OnErr result (Rose (W.faults world.old (part_of self.old.side)) (W.faults world.new (part_of self.old.side))) }
    {
        let Prepared { text, blocks, log } = prepared;
        let root = Root {
            first: first_block(&blocks),
            table_len: text.len() as u64,
            tag,
            ..self.gate.root
        };
        write_out(world, self.side, &mut self.gate, &text, &blocks, root)?;
        self.map.give_all(&self.table);
        give_log(&mut self.map, &log);
        self.table = blocks;
        Ok(())
    }
}
