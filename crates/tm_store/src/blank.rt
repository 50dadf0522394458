//! A new store.
ghost use Rattle.std.specs.Prelude.{◌≡◌, ◌≤◌, ◌<◌, ℕ, List, [], None, OnOk, IfOk, length};
ghost use Rattle.tm_base.specs.Limits.{max_blocks, min_blocks};
ghost use Rattle.tm_base.specs.IsName.{IsName};
ghost use Rattle.tm_world.specs.Outside.{disk};
ghost use Rattle.tm_world.specs.Log.{now};
ghost use Rattle.tm_world.specs.Runs.{Runs};
ghost use Rattle.tm_world.specs.Faults.{NeverLess};
ghost use Rattle.tm_tree.specs.States.{new_store};
ghost use Rattle.tm_image.specs.Blank.{IsBlank};
ghost use Rattle.tm_image.specs.Seen.{Stands};
ghost use Rattle.tm_store_records.specs.States.{LeavesNoneOrStore};
ghost use Rattle.tm_store_records.specs.Held.{IsWhole, store_on};
ghost use Rattle.tm_store.specs.Answers.{IfRefused, IsSmallRefusal, BlamesStore, OnRefusal};
ghost use Rattle.tm_store.specs.Blank.{machine_puts};

use crate::Store;
use std::alloc::{AllocError, Global};
use tm_base::limits::MIN_BLOCKS;
use tm_base::{LineFault, Name, Refused};
use tm_graph::Graph;
use tm_image::{Image, ImageError};
use tm_nodes::machine_meta;
use tm_records::{Body, Put};
use tm_store_records::{MACHINE_KEY, SnapshotList, write_tag};
use tm_world::{Side, World};

/// The machine's record alone, without data.
fn machine_puts(alloc: Global, machine: &Name) -> Result<Vec<Put>, AllocError>
    ensures { IfOk result (λ put. put.items ≡ machine_puts machine.now) }
{
    let meta = match machine_meta(alloc, machine) {
        Ok(meta) => meta,
        Err(_) => return Err(AllocError),
    };
    let first = Put {
        key: MACHINE_KEY,
        meta,
        body: Body::Empty,
    };
    Ok(vec![in alloc; first]?)
}

/// A copy of a name, which keeps the rules of one.
pub(crate) fn same_name(name: &Name) -> Result<Name, AllocError>
    ensures same { IfOk result (λ copy. copy ≡ name.now) }
    ensures rules { ∥ IsName name.now ∥₁ }
{
    // Its bytes come with the rules of a name.
    let _ = name.as_bytes();
    Ok(name.clone()?)
}

impl Store {
    /// Formats the side of a store of so many blocks, for this machine: it has no snapshot, and its
    /// backups are numbered from 1.
    ///
    /// The side is unformatted before. `Small` comes exactly where there are fewer than 8 blocks. A
    /// stop leaves the side unformatted, or with this store; so does a failure, after which the side
    /// is to be read again.
    pub fn blank<W: World>(
        alloc: Global,
        world: &mut W,
        blocks: u32,
        machine: &Name,
    ) -> Result<Store, LineFault>
        requires count { W.blocks world.old Side.Store ≡ blocks }
        requires small { blocks ≤ max_blocks }
        requires blank { W.told → 3 ≤ blocks → IsBlank (disk Side.Store (now (W.log world.old))) }
        ensures any_moment { W.told → Runs Side.Store (LeavesNoneOrStore (record { store = new_store machine.now; running = None })) (W.log world.old) (W.log world.new) }
        ensures stands { W.told → IfOk result (λ s. Stands s.image (disk Side.Store (now (W.log world.new)))) }
        ensures state { IfOk result (λ s. (bytes : ℕ → List ℕ) → store_on s bytes ≡ new_store machine.now) }
        ensures idle { IfOk result (λ s. (s.running ≡ None) × (s.stored ≡ None) × (s.staged ≡ [])) }
        ensures empty { IfOk result (λ s. (s.nodes ≡ []) × (s.snapshots ≡ [])) }
        ensures size { IfOk result (λ s. length s.image.used ≡ blocks) }
        ensures whole { IfOk result IsWhole }
        ensures refused { IfRefused result (λ why. IsSmallRefusal why × (blocks < min_blocks)) }
        ensures fits { OnOk result (min_blocks ≤ blocks) }
        ensures err { OnRefusal result (world.new ≡ world.old) }
        ensures blocks { W.blocks world.new ≡ W.blocks world.old }
        ensures never_less { NeverLess (W.faults world.old) (W.faults world.new) }
        ensures fault { BlamesStore result (W.faults world.old) (W.faults world.new) }
    {
        if blocks < MIN_BLOCKS {
            return Err(LineFault::Refused(Refused::Small));
        }
        let put = machine_puts(alloc, machine)?;
        let name = same_name(machine)?;
        let tag = write_tag(None, 1);
        let image = match Image::blank(alloc, world, Side::Store, blocks, put, tag) {
            Ok(image) => image,
            Err(ImageError::Fault) => return Err(LineFault::Fault(tm_base::Side::Store)),
            Err(ImageError::Full { .. }) => unreachable!(),
            Err(ImageError::Memory) => return Err(LineFault::Memory),
        };
        Ok(Store {
            alloc,
            image,
            graph: Graph::new(alloc),
            machine: name,
            snapshots: SnapshotList::of(Vec::new(alloc)),
            running: None,
            stored: None,
            number: 1,
            staged: Vec::new(alloc),
        })
    }
}
