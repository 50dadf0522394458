//! Reading a volume's image.
ghost use Rattle.std.specs.Prelude.{◌≡◌, ◌⊎◌, ◌≤◌, ◌<◌, ◌+◌, ◌^◌, ℕ, false, IfOk, IsErrOf, Err};
ghost use Rattle.tm_gate.specs.Load.{IsUnformatted};
ghost use Rattle.tm_world.specs.Disk.{Image as ImageOf};
ghost use Rattle.tm_world.specs.Faults.{NeverLess, Rose};
ghost use Rattle.tm_world.specs.Log.{now, Steps};
ghost use Rattle.tm_world.specs.Outside.{disk};
ghost use Rattle.tm_world.specs.declared.cause.Cause.{Cause as OfCause};
ghost use Rattle.tm_volume.specs.Answers.{FailsVolume};
ghost use Rattle.tm_volume.specs.Seen.{IsReady, StandsOn};
ghost use Rattle.tm_base.specs.Limits.{max_blocks};

use crate::Volume;
use crate::tag::read_tag;
use std::alloc::Global;
use tm_image::{Image, LoadError, standing_is_read};
use tm_volume_records::{Contents, check_records};
use tm_world::{Cause, Part, Side, World};

/// The last generation of a volume.
const LAST_GENERATION: u64 = (1 << 62) - 1;

impl Volume {
    /// Reads the volume of a side of so many blocks. It writes nothing.
    ///
    /// The checks are made in the order of `docs/FORMATS.md`, "What is bad". `Unformatted` comes
    /// where there are fewer than 3 blocks or the named slot lacks the magic, `Bad` where a check
    /// fails, and `Fault` only where the volume's count of faults rose. No folder was listed yet.
    pub fn load<W: World>(alloc: Global, world: &mut W, blocks: u32) -> Result<Volume, LoadError>
        requires count { W.blocks world.old Side.Volume ≡ blocks }
        requires small { blocks ≤ max_blocks }
        requires stable { W.told → (b : ℕ) → (disk Side.Volume (now (W.log world.old))).loose b ≡ false }
        ensures ready { IfOk result (λ v. IsReady v blocks) }
        ensures looks { IfOk result (λ v. v.looks ≡ 0) }
        ensures stands { W.told → IfOk result (λ v. StandsOn v (disk Side.Volume (now (W.log world.old)))) }
        ensures unspent { IfOk result (λ v. v.tag.clean ≡ 0 → v.tag.generation + 1 < 2 ^ 62) }
        ensures bad { W.told → (cause : OfCause) (place : ℕ) → result ≡ Err (LoadError.Bad cause place)
            → FailsVolume (record { count = blocks; bytes = (disk Side.Volume (now (W.log world.old))).bytes }) cause place }
        ensures least { (cause : OfCause) (place : ℕ) → result ≡ Err (LoadError.Bad cause place) → 3 ≤ blocks }
        ensures unformatted { W.told → result ≡ Err LoadError.Unformatted → (blocks < 3) ⊎ ((named : ℕ) × IsUnformatted (disk Side.Volume (now (W.log world.old))).bytes named) }
        ensures steps { W.told → Steps (W.log world.old) (W.log world.new) (now (W.log world.old)) }
        ensures blocks { W.blocks world.new ≡ W.blocks world.old }
        ensures never_less { NeverLess (W.faults world.old) (W.faults world.new) }
        ensures fault { IsErrOf result LoadError.Fault → Rose (W.faults world.old Part.Volume) (W.faults world.new Part.Volume) }
    {
        standing_is_read();
        let image = Image::load(alloc, world, Side::Volume, blocks)?;
        let tag = read_tag(image.tag());
        let contents = check_records(alloc, world, &image, tag.clean, tag.next)?;
        if !tag.clean && tag.generation >= LAST_GENERATION {
            return Err(LoadError::Bad {
                cause: Cause::Spent,
                place: 0,
            });
        }
        let Contents {
            head,
            fixed,
            numbers,
        } = contents;
        Ok(Volume {
            alloc,
            image,
            head,
            fixed,
            clean: tag.clean,
            generation: tag.generation,
            next: tag.next,
            numbers,
            looks: 0,
        })
    }
}
