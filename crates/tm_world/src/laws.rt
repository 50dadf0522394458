//! What the definitions of the disk model say together (`docs/DISKS.md`).
//!
//! Each function is empty; its contract is a law.
ghost use Rattle.tm_world.specs.Alone.{RestStays, OtherSideStays, SidesCompose, ReadRuns, WriteRuns, SyncRuns, AttachSideKeeps, AttachScriptKeeps, TakeKeeps, SayKeeps};
ghost use Rattle.tm_world.specs.Torn.{ReadsAreLeft, UnsyncedMayTear, SyncedStays, CanBeMet};

/// A fact about a disk, such as which images a stop may leave of it. The laws hold of each.
pub trait DiskFact {
    ghost use Rattle.tm_world.specs.Disk.{Disk};

    /// The disks that have it.
    ghost holds: { Disk → Type 0 };
}

/// A call on one side leaves the script, the said bytes, what is attached and what stands at
/// other paths as they are, at each moment.
pub fn rest_stays<P: DiskFact>()
    ensures { RestStays P.holds }
{}

/// While the sides are attached at different paths, a call on one side leaves the other side, and
/// what a stop may leave there, at each moment.
pub fn other_side_stays<P: DiskFact>()
    ensures { OtherSideStays P.holds }
{}

/// Two clauses, each about one side, give one about the pair of images that a stop may leave.
pub fn sides_compose<P: DiskFact, Q: DiskFact>()
    ensures { SidesCompose P.holds Q.holds }
{}

/// A read changes nothing.
pub fn read_runs()
    ensures { ReadRuns }
{}

/// A write changes its own block alone, which after `Ok` holds the bytes.
pub fn write_runs()
    ensures { WriteRuns }
{}

/// A sync changes nothing of what a read gives.
pub fn sync_runs()
    ensures { SyncRuns }
{}

/// Attaching a side leaves what stands already and what stands at other paths, and leaves the
/// other side attached as it was.
pub fn attach_side_keeps()
    ensures { AttachSideKeeps }
{}

/// Attaching the script leaves both sides, what stands at any path, and the said bytes.
pub fn attach_script_keeps()
    ensures { AttachScriptKeeps }
{}

/// `take` leaves both sides, what stands at any path, and the said bytes.
pub fn take_keeps()
    ensures { TakeKeeps }
{}

/// `say` leaves both sides, what stands at any path, and the script.
pub fn say_keeps()
    ensures { SayKeeps }
{}

/// A disk as it reads is one of the images that a stop now may leave.
pub fn reads_are_left()
    ensures { ReadsAreLeft }
{}

/// A block that was written and not synced may hold any bytes after a stop.
pub fn unsynced_may_tear()
    ensures { UnsyncedMayTear }
{}

/// After a sync that succeeded a stop leaves what a read gives.
pub fn synced_stays()
    ensures { SyncedStays }
{}

/// The clauses of a write and of a sync can be met, and tell the two apart: between them a stop may
/// leave any bytes in the block, and after them only those that were written.
pub fn can_be_met()
    ensures { CanBeMet }
{}
