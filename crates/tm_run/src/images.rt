//! Lines over a pair of images.
ghost use Rattle.std.specs.Prelude.{◌≡◌, ◌≢◌, ◌≤◌, ℕ, List, Option, All};
ghost use Rattle.std.specs.Option.{ForSome};
ghost use Rattle.tm_base.specs.declared.refused.Side.{Side as RefusedSide};
ghost use Rattle.tm_base.specs.Limits.{max_blocks};
ghost use Rattle.tm_machine.specs.Session.{IsOpen, IsSynced, Standing, state_on};
ghost use Rattle.tm_machine.specs.States.{Stored};
ghost use Rattle.tm_machine.specs.Stops.{CanOpen, CanOpenStore, IsFramed, PairReads};
ghost use Rattle.tm_text.specs.Bounds.{IsValidLine};
ghost use Rattle.tm_volume.specs.Answers.{IsSpent};
ghost use Rattle.tm_volume.specs.Reads.{SideReads};
ghost use Rattle.tm_volume.specs.Stored.{StoredVolume};
ghost use Rattle.tm_world.specs.Disk.{Image};
ghost use Rattle.tm_world.specs.Faults.{NeverLess, Rose, part_at};
ghost use Rattle.tm_world.specs.Log.{now, Passes};
ghost use Rattle.tm_world.specs.declared.world.Part.{Part};
ghost use Rattle.tm_world.specs.declared.world.Side.TheVariants.{Volume as VolumeSide, Store as StoreSide};
ghost use Rattle.tm_run.specs.Claims.{KeepsBoth, KeepsStore};
ghost use Rattle.tm_run.specs.Done.{EndsDone, SaidLines};
ghost use Rattle.tm_run.specs.Ends.{GaveRan, IsCut, NotCutShort, SaysPrefix};
ghost use Rattle.tm_run.specs.Moments.{BesideShut, EndsOnSides, KeepsDisks, RanOnSides, RanOver};
ghost use Rattle.tm_run.specs.Outcomes.{FitsPair, Ran, done_status};
ghost use Rattle.tm_run.specs.Pairs.{IsPair, image_at};
ghost use Rattle.tm_run.specs.Places.{ElsewhereSame};
ghost use Rattle.tm_run.specs.Readings.{IsEndOfLines};
ghost use Rattle.tm_run.specs.declared.status.Status.{Status};

use crate::lines::{RunEnd, run_lines};
use crate::output::say_bad_image;
use crate::pair::open_pair;
use crate::status::Status;
use std::alloc::Global;
use tm_command::Command;
use tm_machine::{
    LineEnd, Session, SessionError, commits_end, plain_is_history, plain_where_fits,
    session_is_left,
};
use tm_store::laws::{sides_read_as_one, store_fails_once};
use tm_text::Lines;
use tm_volume::laws::{sides_read_as_one as volume_sides_read_as_one, volume_fails_once};
use tm_world::World;

// The status of a script that was run to its end.
fn done(refused: bool) -> Status
    ensures { result ≡ done_status refused }
{
    if refused {
        Status::DoneRefused
    } else {
        Status::Done
    }
}

// Runs the lines to their end, and closes the session.
fn run_session<W: World>(
    alloc: Global,
    world: &mut W,
    session: &mut Session,
    lines: &Lines,
) -> Status
    requires lines { All IsValidLine lines.now }
    requires open { IsOpen session.old (W.blocks world.old) }
    requires standing { W.told → Standing session.old (now (W.log world.old)) }
    ensures does { W.told → SaidLines (state_on session.old (now (W.log world.old))) lines.now (W.log world.old) (W.log world.new)
        (λ done. EndsDone result (state_on session.old (now (W.log world.old))) done (now (W.log world.old)) (now (W.log world.new))) }
    ensures ends { IsEndOfLines result }
    ensures never_less { NeverLess (W.faults world.old) (W.faults world.new) }
    ensures fault { result ≡ Status.OutFault → Rose (W.faults world.old Part.Out) (W.faults world.new Part.Out) }
    ensures device { (side : RefusedSide) → result ≡ Status.Device side → Rose (W.faults world.old (part_at side)) (W.faults world.new (part_at side)) }
{
    session_is_left();
    let refused = match run_lines(alloc, session, world, lines.as_slice()) {
        Ok(refused) => refused,
        Err(RunEnd::OutFault) => return Status::OutFault,
        Err(RunEnd::Device(side)) => return Status::Device { side },
        Err(RunEnd::Memory) => return Status::Memory,
    };
    match session.close(world) {
        Ok(_) => done(refused),
        Err(LineEnd::Fault(side)) => Status::Device { side },
        Err(LineEnd::Memory) => Status::Memory,
    }
}

// Opens the pair that is attached, of so many blocks, and runs the lines on it.
fn run_images<W: World>(
    alloc: Global,
    world: &mut W,
    volume_blocks: u32,
    store_blocks: u32,
    lines: &Lines,
) -> Status
    requires count { W.blocks world.old VolumeSide ≡ volume_blocks }
    requires small { volume_blocks ≤ max_blocks }
    requires store_count { W.blocks world.old StoreSide ≡ store_blocks }
    requires store_small { store_blocks ≤ max_blocks }
    requires settled { W.told → IsSynced (now (W.log world.old)) }
    requires lines { All IsValidLine lines.now }
    ensures history { W.told → (v z : Image) → IsPair v z (now (W.log world.old)) → (r : Stored) → PairReads r v z → ¬ IsSpent r.volume
        → RanOnSides lines.now v.count z.count r (W.log world.old) (W.log world.new) (EndsOnSides result (now (W.log world.old)) (now (W.log world.new))) }
    ensures outcome { W.told → (v z : Image) → IsPair v z (now (W.log world.old)) → FitsPair v z → NotCutShort result → GaveRan v z lines.now (now (W.log world.old)) (now (W.log world.new)) result }
    ensures prefix { W.told → (v z : Image) → IsPair v z (now (W.log world.old)) → FitsPair v z → (status : Status) (text : List ℕ) → Ran v z lines.now status text
        → SaysPrefix text (now (W.log world.old)) (now (W.log world.new)) }
    ensures framed { W.told → Passes (W.log world.old) (W.log world.new) (IsFramed (now (W.log world.old))) }
    ensures shut_volume { W.told → (v z : Image) → IsPair v z (now (W.log world.old)) → (CanOpen v → ⊥) → Passes (W.log world.old) (W.log world.new) (KeepsDisks (now (W.log world.old))) }
    ensures shut_store { W.told → (v z : Image) → IsPair v z (now (W.log world.old)) → (r : Option StoredVolume) → SideReads v r → (CanOpenStore z → ⊥)
        → Passes (W.log world.old) (W.log world.new) (BesideShut r (now (W.log world.old))) }
    ensures silent { W.told → (v z : Image) → IsPair v z (now (W.log world.old)) → (CanOpen v → CanOpenStore z → ⊥) → IsCut result → (now (W.log world.new)).said ≡ (now (W.log world.old)).said }
    ensures ends { IsEndOfLines result }
    ensures never_less { NeverLess (W.faults world.old) (W.faults world.new) }
    ensures fault { result ≡ Status.OutFault → Rose (W.faults world.old Part.Out) (W.faults world.new Part.Out) }
    ensures device { (side : RefusedSide) → result ≡ Status.Device side → Rose (W.faults world.old (part_at side)) (W.faults world.new (part_at side)) }
{
    volume_sides_read_as_one();
    volume_fails_once();
    sides_read_as_one();
    store_fails_once();
    commits_end();
    plain_is_history();
    plain_where_fits();
    match Session::load(alloc, world, volume_blocks, store_blocks) {
        Ok(mut session) => run_session(alloc, world, &mut session, lines),
        Err(SessionError::Bad { side, cause, place }) => {
            say_bad_image(alloc, world, side, cause, place)
        }
        Err(SessionError::Fault(side)) => Status::Device { side },
        Err(SessionError::Memory) => Status::Memory,
    }
}

/// Attaches the images that a command names, and runs the lines on them.
pub(crate) fn run_command<W: World>(
    alloc: Global,
    world: &mut W,
    command: Command<'_>,
    lines: &Lines,
) -> Status
    requires create { ForSome command.create (λ n. (1 ≤ n) × (n ≤ max_blocks)) }
    requires differ { command.volume.now ≢ command.store.now }
    requires lines { All IsValidLine lines.now }
    ensures history { W.told → let old = now (W.log world.old) in let v = image_at command.entry.volume.now command.entry.create old in let z = image_at command.entry.store.now command.entry.create old in
        (r : Stored) → PairReads r v z → ¬ IsSpent r.volume
        → RanOver lines.now command.entry.volume.now command.entry.store.now command.entry.create v.count z.count r (W.log world.old) (W.log world.new) result }
    ensures outcome { W.told → let old = now (W.log world.old) in let v = image_at command.entry.volume.now command.entry.create old in let z = image_at command.entry.store.now command.entry.create old in
        FitsPair v z → NotCutShort result → GaveRan v z lines.now old (now (W.log world.new)) result }
    ensures prefix { W.told → let old = now (W.log world.old) in let v = image_at command.entry.volume.now command.entry.create old in let z = image_at command.entry.store.now command.entry.create old in
        FitsPair v z → (status : Status) (text : List ℕ) → Ran v z lines.now status text → SaysPrefix text old (now (W.log world.new)) }
    ensures elsewhere { W.told → Passes (W.log world.old) (W.log world.new) (ElsewhereSame command.entry.volume.now command.entry.store.now (now (W.log world.old))) }
    ensures shut_volume { W.told → (CanOpen (image_at command.entry.volume.now command.entry.create (now (W.log world.old))) → ⊥)
        → Passes (W.log world.old) (W.log world.new) (KeepsBoth command.entry.volume.now command.entry.store.now command.entry.create (now (W.log world.old))) }
    ensures shut_store { W.told → let old = now (W.log world.old) in (r : Option StoredVolume) → SideReads (image_at command.entry.volume.now command.entry.create old) r
        → (CanOpenStore (image_at command.entry.store.now command.entry.create old) → ⊥)
        → Passes (W.log world.old) (W.log world.new) (KeepsStore r command.entry.volume.now command.entry.store.now command.entry.create old) }
    ensures silent { W.told → let old = now (W.log world.old) in (CanOpen (image_at command.entry.volume.now command.entry.create old) → CanOpenStore (image_at command.entry.store.now command.entry.create old) → ⊥)
        → IsCut result → (now (W.log world.new)).said ≡ old.said }
    ensures ends { IsEndOfLines result }
    ensures never_less { NeverLess (W.faults world.old) (W.faults world.new) }
    ensures fault { result ≡ Status.OutFault → Rose (W.faults world.old Part.Out) (W.faults world.new Part.Out) }
    ensures device { (side : RefusedSide) → result ≡ Status.Device side → Rose (W.faults world.old (part_at side)) (W.faults world.new (part_at side)) }
{
    commits_end();
    plain_is_history();
    let (volume_blocks, store_blocks) = match open_pair(world, command) {
        Ok(blocks) => blocks,
        Err(side) => return Status::Device { side },
    };
    run_images(alloc, world, volume_blocks, store_blocks, lines)
}
