//! The pair of images, attached and synced.
ghost use Rattle.std.specs.Prelude.{◌≡◌, ◌≢◌, ◌≤◌, ◌<◌, ℕ, IfOk, List, OnOk, Option, Err};
ghost use Rattle.std.specs.Option.{ForSome};
ghost use Rattle.tm_base.specs.declared.refused.Side.{Side as RefusedSide};
ghost use Rattle.tm_base.specs.Limits.{max_blocks};
ghost use Rattle.tm_machine.specs.Session.{IsSynced};
ghost use Rattle.tm_world.specs.Disk.{Image};
ghost use Rattle.tm_world.specs.Faults.{NeverLess, Rose, part_at};
ghost use Rattle.tm_world.specs.Log.{now, Passes};
ghost use Rattle.tm_world.specs.Outside.{Outside};
ghost use Rattle.tm_world.specs.declared.world.Side.TheVariants.{Volume as VolumeSide, Store as StoreSide};
ghost use Rattle.tm_run.specs.Moments.{IsAttached, IsFinding};
ghost use Rattle.tm_run.specs.Pairs.{IsPair, image_at};

use tm_base::Side;
use tm_command::Command;
use tm_world::{Failed, Part, Side as ImageSide, World};

// Attaches both sides, the volume first. How many blocks each has, or which side failed.
fn attach_pair<W: World>(world: &mut W, command: Command<'_>) -> Result<(u32, u32), Side>
    requires create { ForSome command.create (λ n. (1 ≤ n) × (n ≤ max_blocks)) }
    requires differ { command.volume.now ≢ command.store.now }
    ensures pair { W.told → let old = now (W.log world.old) in
        OnOk result (IsPair (image_at command.entry.volume.now command.entry.create old) (image_at command.entry.store.now command.entry.create old) (now (W.log world.new))) }
    ensures said { W.told → (now (W.log world.new)).said ≡ (now (W.log world.old)).said }
    ensures attached { W.told → OnOk result (IsAttached command.entry.volume.now command.entry.store.now command.entry.create (now (W.log world.old)) (now (W.log world.new))) }
    ensures any_moment { W.told → Passes (W.log world.old) (W.log world.new) (IsFinding command.entry.volume.now command.entry.store.now command.entry.create (now (W.log world.old))) }
    ensures count { IfOk result (λ n. (W.blocks world.new VolumeSide ≡ n.0) × (n.0 ≤ max_blocks) × (W.blocks world.new StoreSide ≡ n.1) × (n.1 ≤ max_blocks)) }
    ensures never_less { NeverLess (W.faults world.old) (W.faults world.new) }
    ensures fault { (side : RefusedSide) → result ≡ Err side → Rose (W.faults world.old (part_at side)) (W.faults world.new (part_at side)) }
{
    let volume = match world.attach(Part::Volume, command.volume, command.create) {
        Ok(blocks) => blocks,
        Err(Failed) => return Err(Side::Volume),
    };
    let store = match world.attach(Part::Store, command.store, command.create) {
        Ok(blocks) => blocks,
        Err(Failed) => return Err(Side::Store),
    };
    Ok((volume, store))
}

// Makes all that stands on both sides stable, or tells which side failed.
fn sync_pair<W: World>(world: &mut W) -> Result<(), Side>
    ensures pair { W.told → (v z : Image) → IsPair v z (now (W.log world.old)) → OnOk result (IsPair v z (now (W.log world.new)) × IsSynced (now (W.log world.new))) }
    ensures said { W.told → (now (W.log world.new)).said ≡ (now (W.log world.old)).said }
    ensures attached { W.told → (p q : List ℕ) (create : Option ℕ) (start : Outside) → IsAttached p q create start (now (W.log world.old)) → OnOk result (IsAttached p q create start (now (W.log world.new))) }
    ensures any_moment { W.told → (p q : List ℕ) (create : Option ℕ) (start : Outside) → IsAttached p q create start (now (W.log world.old)) → Passes (W.log world.old) (W.log world.new) (IsFinding p q create start) }
    ensures blocks { W.blocks world.new ≡ W.blocks world.old }
    ensures never_less { NeverLess (W.faults world.old) (W.faults world.new) }
    ensures fault { (side : RefusedSide) → result ≡ Err side → Rose (W.faults world.old (part_at side)) (W.faults world.new (part_at side)) }
{
    match world.sync(ImageSide::Volume) {
        Ok(()) => {}
        Err(Failed) => return Err(Side::Volume),
    }
    match world.sync(ImageSide::Store) {
        Ok(()) => Ok(()),
        Err(Failed) => Err(Side::Store),
    }
}

/// Attaches both sides, the volume first, and makes all that stands there stable. How many blocks
/// each has, or which side failed.
pub(crate) fn open_pair<W: World>(world: &mut W, command: Command<'_>) -> Result<(u32, u32), Side>
    requires create { ForSome command.create (λ n. (1 ≤ n) × (n ≤ max_blocks)) }
    requires differ { command.volume.now ≢ command.store.now }
    ensures pair { W.told → let old = now (W.log world.old) in
        OnOk result (IsPair (image_at command.entry.volume.now command.entry.create old) (image_at command.entry.store.now command.entry.create old) (now (W.log world.new))) }
    ensures synced { W.told → OnOk result (IsSynced (now (W.log world.new))) }
    ensures said { W.told → (now (W.log world.new)).said ≡ (now (W.log world.old)).said }
    ensures attached { W.told → OnOk result (IsAttached command.entry.volume.now command.entry.store.now command.entry.create (now (W.log world.old)) (now (W.log world.new))) }
    ensures any_moment { W.told → Passes (W.log world.old) (W.log world.new) (IsFinding command.entry.volume.now command.entry.store.now command.entry.create (now (W.log world.old))) }
    ensures count { IfOk result (λ n. (W.blocks world.new VolumeSide ≡ n.0) × (n.0 ≤ max_blocks) × (W.blocks world.new StoreSide ≡ n.1) × (n.1 ≤ max_blocks)) }
    ensures never_less { NeverLess (W.faults world.old) (W.faults world.new) }
    ensures fault { (side : RefusedSide) → result ≡ Err side → Rose (W.faults world.old (part_at side)) (W.faults world.new (part_at side)) }
{
    let blocks = attach_pair(world, command)?;
    sync_pair(world)?;
    Ok(blocks)
}
