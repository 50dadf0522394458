//! The lines on a volume.
ghost use Rattle.std.specs.Prelude.{◌≡◌, ◌≤◌, ◌∷◌, ◌++◌, [], ℕ, List, IfOk, IfSome, Err, Some, length, true};
ghost use Rattle.std.specs.Option.{option_map_or};
ghost use Rattle.tm_base.specs.declared.refused.Refused.{Refused};
ghost use Rattle.tm_tree.specs.Changes.{item_tests};
ghost use Rattle.tm_tree.specs.Items.{bytes_of, is_file};
ghost use Rattle.tm_tree.specs.Trees.{item_at};
ghost use Rattle.tm_tree.specs.declared.item.Item.{Item};
ghost use Rattle.tm_changes.specs.Changes.{IsChange};
ghost use Rattle.tm_volume.specs.Seen.{IsReady, tree_on};
ghost use Rattle.tm_world.specs.Log.{Steps};
ghost use Rattle.tm_world.specs.Outside.{Outside, disk};
ghost use Rattle.tm_world.specs.declared.world.Side.TheVariants.{Volume as VolumeSide};
ghost use Rattle.tm_world.specs.Faults.{NeverLess, Blames};
ghost use Rattle.tm_world.specs.Log.{now};
ghost use Rattle.tm_machine.specs.Answers.{AnswersQuery, AnswersReading, IsRow};
ghost use Rattle.tm_machine.specs.Queries.{content_rows, list_rows};
ghost use Rattle.tm_machine.specs.Session.{Alike, Does, IfReplied, IsOpen, Standing, effect, state_on};
ghost use Rattle.tm_machine.specs.States.{kept};
ghost use Rattle.tm_machine.specs.Steps.{change_tests, changed, content_tests, on_volume};

use crate::listing::show_item;
use crate::session::Session;
use std::alloc::Global;
use tm_base::{LineFault, Path, Refused, Side};
use tm_reply::{ReplyRow, ReplyRows};
use tm_store::held_reads;
use tm_store::laws::blank_is_left;
use tm_tree::{Change, ItemBody, ItemRow, LeafRow};
use tm_volume::Volume;
use tm_volume::laws::{blank_is_left as volume_blank_is_left, standing_volume_is_left};
use tm_world::{Bytes, Failed, World};

impl Session {
    /// A line that changes the contents of the volume.
    pub(crate) fn change<W: World>(
        &mut self,
        world: &mut W,
        change: &Change,
    ) -> Result<ReplyRows, LineFault>
        requires change { IsChange change.now }
        requires open { IsOpen self.old (W.blocks world.old) }
        requires standing { W.told → Standing self.old (now (W.log world.old)) }
        ensures does { W.told → let s = state_on self.old (now (W.log world.old)) in
            Does (effect (change_tests s change.now) [] (changed s change.now) (kept (changed s change.now) ∷ []) s) self.old self.new (W.log world.old) (W.log world.new) result }
        ensures open { IfReplied result (IsOpen self.new (W.blocks world.new)) }
        ensures blocks { W.blocks world.new ≡ W.blocks world.old }
        ensures never_less { NeverLess (W.faults world.old) (W.faults world.new) }
        ensures fault { Blames result (W.faults world.old) (W.faults world.new) }
    {
        standing_volume_is_left();
        volume_blank_is_left();
        held_reads();
        blank_is_left();
        let moment = self.moment;
        let Some(volume) = &mut self.volume else {
            return Err(LineFault::Refused(Refused::NoVolume));
        };
        let _touches = match tm_changes::change(volume, world, change, moment) {
            Ok(touches) => touches,
            Err(why) => {
                // The rules that it keeps come with what it says of itself.
                let _ = volume.info();
                return Err(why);
            }
        };
        let _ = volume.info();
        Ok(ReplyRows::new(self.alloc))
    }

    /// `ls`.
    pub(crate) fn ls(&mut self, path: &Path) -> Result<ReplyRows, LineFault>
        ensures answer { (o : Outside) → AnswersQuery (on_volume (state_on self.old o).volume (λ v. item_tests v.volume.contents.tree path.now))
            (option_map_or (λ v. list_rows v.volume.contents.tree path.now) (state_on self.old o).volume []) result }
        ensures alike { Alike self.old self.new }
    {
        let alloc = self.alloc;
        let Some(volume) = &mut self.volume else {
            return Err(LineFault::Refused(Refused::NoVolume));
        };
        show_item(alloc, volume, path)
    }

    /// `cat`.
    pub(crate) fn cat<W: World>(&self, world: &mut W, path: &Path) -> Result<ReplyRows, LineFault>
        requires open { IsOpen self.now (W.blocks world.old) }
        ensures answer { W.told → let s = state_on self.now (now (W.log world.old)) in
            AnswersReading (on_volume s.volume (λ v. content_tests v.volume.contents.tree path.now)) (option_map_or (λ v. content_rows v.volume.contents.tree path.now) s.volume []) result }
        ensures steps { W.told → Steps (W.log world.old) (W.log world.new) (now (W.log world.old)) }
        ensures blocks { W.blocks world.new ≡ W.blocks world.old }
        ensures never_less { NeverLess (W.faults world.old) (W.faults world.new) }
        ensures fault { Blames result (W.faults world.old) (W.faults world.new) }
    {
        let volume = self.volume()?;
        show_contents(self.alloc, world, volume, path)
    }
}

// All bytes of the file at a path, which has so many.
fn read_file<W: World>(
    alloc: Global,
    world: &mut W,
    volume: &Volume,
    path: &Path,
    size: u64,
) -> Result<Bytes, LineFault>
    requires ready { IsReady volume.now (W.blocks world.old VolumeSide) }
    requires file { (bytes : ℕ → List ℕ) → (e : Item) × (item_at (tree_on volume.now bytes) path.now ≡ Some e) × (is_file e ≡ true) × (length (bytes_of e) ≡ size) }
    ensures bytes { W.told → IfOk result (λ found. IfSome (item_at (tree_on volume.now (disk VolumeSide (now (W.log world.old))).bytes) path.now) (λ e. found ≡ bytes_of e)) }
    ensures refused { (why : Refused) → result ≡ Err (LineFault.Refused why) → ⊥ }
    ensures steps { W.told → Steps (W.log world.old) (W.log world.new) (now (W.log world.old)) }
    ensures blocks { W.blocks world.new ≡ W.blocks world.old }
    ensures never_less { NeverLess (W.faults world.old) (W.faults world.new) }
    ensures fault { Blames result (W.faults world.old) (W.faults world.new) }
{
    let mut bytes = Vec::new(alloc);
    bytes.resize(size as usize, 0u8)?;
    match volume.read_part(world, path, 0, bytes.as_mut_slice()) {
        Ok(()) => Ok(Bytes::of(bytes)),
        Err(Failed) => Err(LineFault::Fault(Side::Volume)),
    }
}

// Tells the contents of the file at a path, or the target of the link.
fn show_contents<W: World>(
    alloc: Global,
    world: &mut W,
    volume: &Volume,
    path: &Path,
) -> Result<ReplyRows, LineFault>
    requires ready { IsReady volume.now (W.blocks world.old VolumeSide) }
    ensures answer { W.told → let t = tree_on volume.now (disk VolumeSide (now (W.log world.old))).bytes in AnswersReading (content_tests t path.now) (content_rows t path.now) result }
    ensures steps { W.told → Steps (W.log world.old) (W.log world.new) (now (W.log world.old)) }
    ensures blocks { W.blocks world.new ≡ W.blocks world.old }
    ensures never_less { NeverLess (W.faults world.old) (W.faults world.new) }
    ensures fault { Blames result (W.faults world.old) (W.faults world.new) }
{
    let ItemRow { body, .. } = volume.find(path)?;
    match body {
        ItemBody::Folder { .. } => Err(LineFault::Refused(Refused::IsFolder)),
        ItemBody::Leaf(LeafRow::File { length, .. }) => {
            let bytes = read_file(alloc, world, volume, path, length)?;
            one_row(alloc, ReplyRow::Contents(bytes))
        }
        ItemBody::Leaf(LeafRow::Link { target, .. }) => one_row(alloc, ReplyRow::Target(target)),
    }
}

// One data line.
pub(crate) fn one_row(alloc: Global, row: ReplyRow) -> Result<ReplyRows, LineFault>
    ensures { IsRow row result }
{
    let mut rows = ReplyRows::new(alloc);
    rows.push(row)?;
    Ok(rows)
}
