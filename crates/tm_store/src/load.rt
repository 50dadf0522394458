//! Reading a store.
ghost use Rattle.std.specs.Prelude.{◌≡◌, ◌≤◌, ◌<◌, ℕ, [], None, false, IfOk, IsErrOf, Err, length};
ghost use Rattle.tm_base.specs.Limits.{max_blocks};
ghost use Rattle.tm_world.specs.declared.cause.Cause.{Cause};
ghost use Rattle.tm_world.specs.Outside.{disk, part_of};
ghost use Rattle.tm_world.specs.Log.{now, Steps};
ghost use Rattle.tm_world.specs.Faults.{NeverLess, Rose};
ghost use Rattle.tm_image.specs.Seen.{Stands};
ghost use Rattle.tm_store_records.specs.States.{StoreReads, StoreFails, image_of};
ghost use Rattle.tm_store_records.specs.Held.{IsWhole, store_stored_on};
ghost use Rattle.tm_store.specs.Sides.{IsUnformattedStore};

use crate::{LoadError, Store};
use std::alloc::Global;
use tm_image::{Image, standing_is_read};
use tm_store_records::{Contents, read_store, read_tag};
use tm_world::{Side, World};

impl Store {
    /// Reads the store of a side of so many blocks. It writes nothing. No backup runs afterwards,
    /// whatever date the tag has, and nothing is staged.
    ///
    /// The checks are made in the order of `docs/FORMATS.md`, "What is bad". `Unformatted` comes
    /// where there are fewer than 3 blocks or the named slot lacks the magic, and `Bad` where a check
    /// fails; for a record it tells the least key that is wrong. `Fault` comes only where this side's
    /// count of faults rose.
    pub fn load<W: World>(alloc: Global, world: &mut W, blocks: u32) -> Result<Store, LoadError>
        requires count { W.blocks world.old Side.Store ≡ blocks }
        requires small { blocks ≤ max_blocks }
        ensures reads { W.told → ((b : ℕ) → (disk Side.Store (now (W.log world.old))).loose b ≡ false)
            → IfOk result (λ s. StoreReads (image_of (disk Side.Store (now (W.log world.old)))) (store_stored_on s (disk Side.Store (now (W.log world.old))).bytes)) }
        ensures stands { W.told → ((b : ℕ) → (disk Side.Store (now (W.log world.old))).loose b ≡ false)
            → IfOk result (λ s. Stands s.image (disk Side.Store (now (W.log world.old)))) }
        ensures idle { IfOk result (λ s. (s.running ≡ None) × (s.staged ≡ [])) }
        ensures size { IfOk result (λ s. length s.image.used ≡ blocks) }
        ensures whole { IfOk result IsWhole }
        ensures bad { W.told → ((b : ℕ) → (disk Side.Store (now (W.log world.old))).loose b ≡ false)
            → (cause : Cause) (place : ℕ) → result ≡ Err (LoadError.Bad cause place) → StoreFails (image_of (disk Side.Store (now (W.log world.old)))) cause place }
        ensures least { (cause : Cause) (place : ℕ) → result ≡ Err (LoadError.Bad cause place) → 3 ≤ blocks }
        ensures unformatted { W.told → result ≡ Err LoadError.Unformatted → IsUnformattedStore (image_of (disk Side.Store (now (W.log world.old)))) }
        ensures few { blocks < 3 → result ≡ Err LoadError.Unformatted }
        ensures steps { W.told → Steps (W.log world.old) (W.log world.new) (now (W.log world.old)) }
        ensures blocks { W.blocks world.new ≡ W.blocks world.old }
        ensures never_less { NeverLess (W.faults world.old) (W.faults world.new) }
        ensures fault { IsErrOf result LoadError.Fault → Rose (W.faults world.old (part_of Side.Store)) (W.faults world.new (part_of Side.Store)) }
    {
        standing_is_read();
        let image = Image::load(alloc, world, Side::Store, blocks)?;
        // This shows that the image is sound.
        let _ = image.total();
        let tag = read_tag(image.tag());
        let Contents {
            machine,
            snapshots,
            nodes,
        } = read_store(alloc, &image, tag.number)?;
        Ok(Store {
            alloc,
            image,
            graph: nodes,
            machine,
            snapshots,
            running: None,
            stored: tag.running,
            number: tag.number,
            staged: Vec::new(alloc),
        })
    }
}
