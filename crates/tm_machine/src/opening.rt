//! Opening a volume.
ghost use Rattle.std.specs.Prelude.{◌≡◌, ◌≤◌, ◌<◌, ◌+◌, ◌^◌, ◌==◌, IfOk, IfSome, OnOk, OnErr, Err, ℕ, Option, Some, None, false};
ghost use Rattle.std.specs.Option.{option_map};
ghost use Rattle.tm_base.specs.declared.refused.Side.{Side as RefusedSide};
ghost use Rattle.tm_base.specs.Limits.{max_blocks};
ghost use Rattle.tm_volume.specs.Answers.{FailsVolume};
ghost use Rattle.tm_volume.specs.Reads.{LeavesEither, SideReads};
ghost use Rattle.tm_volume.specs.Seen.{IsKept, IsReady, StandsOn, stored_on};
ghost use Rattle.tm_volume.specs.Stored.{StoredVolume, reopened};
ghost use Rattle.tm_world.specs.Faults.{NeverLess, Rose, part_at};
ghost use Rattle.tm_world.specs.Log.{now, Steps};
ghost use Rattle.tm_world.specs.Runs.{Runs};
ghost use Rattle.tm_world.specs.Outside.{disk};
ghost use Rattle.tm_world.specs.Torn.{as_read};
ghost use Rattle.tm_world.specs.declared.cause.Cause.{Cause};
ghost use Rattle.tm_world.specs.declared.world.Part.{Part};
ghost use Rattle.tm_world.specs.declared.world.Side.TheVariants.{Volume as VolumeSide, Store as StoreSide};
ghost use Rattle.tm_store.specs.Sides.{StoreSideReads};
ghost use Rattle.tm_store_records.specs.Held.{store_stored_on};
ghost use Rattle.tm_store_records.specs.States.{StoredStore, StoreFails};
ghost use Rattle.tm_machine.specs.Session.{IsIdle, StoreStands, VolumeStands};
ghost use Rattle.tm_machine.specs.Stops.{CanOpen, CanOpenStore};

use crate::session::SessionError;
use std::alloc::Global;
use tm_base::Side;
use tm_image::LoadError;
use tm_store::Store;
use tm_store::laws::sides_read_as_one;
use tm_volume::Volume;
use tm_volume::laws::{sides_read_as_one as volume_sides_read_as_one, standing_volume_is_left};
use tm_world::{Failed, Part, World};

// Begins a generation, in one commit, where the volume was not closed cleanly.
fn begin_generation<W: World>(world: &mut W, volume: &mut Volume) -> Result<(), Failed>
    requires unspent { volume.old.tag.clean ≡ 0 → volume.old.tag.generation + 1 < 2 ^ 62 }
    requires ready { IsReady volume.old (W.blocks world.old VolumeSide) }
    requires stands { W.told → StandsOn volume.old (disk VolumeSide (now (W.log world.old))) }
    ensures any_moment { W.told → let old = stored_on volume.old (disk VolumeSide (now (W.log world.old))).bytes in
        Runs VolumeSide (LeavesEither (Some old) (Some (reopened old))) (W.log world.old) (W.log world.new) }
    ensures stored { W.told → OnOk result (stored_on volume.new (disk VolumeSide (now (W.log world.new))).bytes
        ≡ reopened (stored_on volume.old (disk VolumeSide (now (W.log world.old))).bytes)) }
    ensures kept { IsKept volume.old × IsKept volume.new }
    ensures ready { IsReady volume.new (W.blocks world.old VolumeSide) }
    ensures stands { W.told → OnOk result (StandsOn volume.new (disk VolumeSide (now (W.log world.new)))) }
    ensures blocks { W.blocks world.new ≡ W.blocks world.old }
    ensures never_less { NeverLess (W.faults world.old) (W.faults world.new) }
    ensures cause { OnErr result (Rose (W.faults world.old Part.Volume) (W.faults world.new Part.Volume)) }
{
    let info = volume.info();
    if info.clean {
        return Ok(());
    }
    let done = volume.retag(world, false, info.generation + 1, info.next);
    // The rules that it keeps come with what it says of itself.
    let _ = volume.info();
    done
}

/// The volume of a side of so many blocks, of which nothing is unsynced, opened: none exactly where
/// it is unformatted.
pub(crate) fn open_volume<W: World>(
    alloc: Global,
    world: &mut W,
    blocks: u32,
) -> Result<Option<Volume>, SessionError>
    requires count { W.blocks world.old VolumeSide ≡ blocks }
    requires small { blocks ≤ max_blocks }
    requires stable { W.told → (b : ℕ) → (disk VolumeSide (now (W.log world.old))).loose b ≡ false }
    ensures any_moment { W.told → (r : Option StoredVolume) → SideReads (as_read (disk VolumeSide (now (W.log world.old)))) r
        → Runs VolumeSide (LeavesEither r (option_map reopened r)) (W.log world.old) (W.log world.new) }
    ensures state { W.told → (r : Option StoredVolume) → SideReads (as_read (disk VolumeSide (now (W.log world.old)))) r
        → IfOk result (λ v. option_map (λ w. stored_on w (disk VolumeSide (now (W.log world.new))).bytes) v ≡ option_map reopened r) }
    ensures opens { W.told → IfOk result (λ _. CanOpen (as_read (disk VolumeSide (now (W.log world.old))))) }
    ensures kept { IfOk result (λ v. IfSome v IsKept) }
    ensures ready { IfOk result (λ v. IfSome v (λ w. IsReady w blocks)) }
    ensures stands { W.told → IfOk result (λ v. VolumeStands v (disk VolumeSide (now (W.log world.new)))) }
    ensures alone { W.told → Runs VolumeSide (λ _. Unit {0}) (W.log world.old) (W.log world.new) }
    ensures blank { W.told → SideReads (as_read (disk VolumeSide (now (W.log world.old)))) None → Steps (W.log world.old) (W.log world.new) (now (W.log world.old)) }
    ensures shut { W.told → (CanOpen (as_read (disk VolumeSide (now (W.log world.old)))) → ⊥) → Steps (W.log world.old) (W.log world.new) (now (W.log world.old)) }
    ensures bad { (side : RefusedSide) (cause : Cause) (place : ℕ) → result ≡ Err (SessionError.Bad side cause place)
        → (side ≡ RefusedSide.Volume) × (3 ≤ blocks) × (W.told → FailsVolume (as_read (disk VolumeSide (now (W.log world.old)))) cause place) }
    ensures blocks { W.blocks world.new ≡ W.blocks world.old }
    ensures never_less { NeverLess (W.faults world.old) (W.faults world.new) }
    ensures fault { (side : RefusedSide) → result ≡ Err (SessionError.Fault side) → Rose (W.faults world.old (part_at side)) (W.faults world.new (part_at side)) }
{
    volume_sides_read_as_one();
    standing_volume_is_left();
    match Volume::load(alloc, world, blocks) {
        Ok(mut volume) => match begin_generation(world, &mut volume) {
            Ok(()) => Ok(Some(volume)),
            Err(Failed) => Err(SessionError::Fault(Side::Volume)),
        },
        Err(LoadError::Unformatted) => Ok(None),
        Err(LoadError::Bad { cause, place }) => Err(SessionError::Bad {
            side: Side::Volume,
            cause,
            place,
        }),
        Err(LoadError::Fault) => Err(SessionError::Fault(Side::Volume)),
        Err(LoadError::Memory) => Err(SessionError::Memory),
    }
}

/// The store of a side of so many blocks, of which nothing is unsynced: none exactly where it is
/// unformatted. It writes nothing.
pub(crate) fn open_store<W: World>(
    alloc: Global,
    world: &mut W,
    blocks: u32,
) -> Result<Option<Store>, SessionError>
    requires count { W.blocks world.old StoreSide ≡ blocks }
    requires small { blocks ≤ max_blocks }
    requires stable { W.told → (b : ℕ) → (disk StoreSide (now (W.log world.old))).loose b ≡ false }
    ensures state { W.told → (r : Option StoredStore) → StoreSideReads (as_read (disk StoreSide (now (W.log world.old)))) r
        → IfOk result (λ z. option_map (λ h. store_stored_on h (disk StoreSide (now (W.log world.new))).bytes) z ≡ r) }
    ensures opens { W.told → IfOk result (λ _. CanOpenStore (as_read (disk StoreSide (now (W.log world.old))))) }
    ensures idle { IfOk result (λ z. IfSome z (λ h. IsIdle h blocks)) }
    ensures stands { W.told → IfOk result (λ z. StoreStands z (disk StoreSide (now (W.log world.new)))) }
    ensures steps { W.told → Steps (W.log world.old) (W.log world.new) (now (W.log world.old)) }
    ensures bad { (side : RefusedSide) (cause : Cause) (place : ℕ) → result ≡ Err (SessionError.Bad side cause place)
        → (side ≡ RefusedSide.Store) × (3 ≤ blocks) × (W.told → StoreFails (as_read (disk StoreSide (now (W.log world.old)))) cause place) }
    ensures blocks { W.blocks world.new ≡ W.blocks world.old }
    ensures never_less { NeverLess (W.faults world.old) (W.faults world.new) }
    ensures fault { (side : RefusedSide) → result ≡ Err (SessionError.Fault side) → Rose (W.faults world.old (part_at side)) (W.faults world.new (part_at side)) }
{
    sides_read_as_one();
    match Store::load(alloc, world, blocks) {
        Ok(store) => Ok(Some(store)),
        Err(LoadError::Unformatted) => Ok(None),
        Err(LoadError::Bad { cause, place }) => Err(SessionError::Bad {
            side: Side::Store,
            cause,
            place,
        }),
        Err(LoadError::Fault) => Err(SessionError::Fault(Side::Store)),
        Err(LoadError::Memory) => Err(SessionError::Memory),
    }
}
