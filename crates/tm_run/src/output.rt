//! The bytes that are said.
ghost use Rattle.std.specs.Prelude.{◌≡◌, ◌≢◌, ◌⊎◌, OnOk, OnErr};
ghost use Rattle.tm_world.specs.declared.world.Part.{Part};
ghost use Rattle.tm_world.specs.Log.{now, Passes};
ghost use Rattle.tm_world.specs.Faults.{Rose, NeverLess};
ghost use Rattle.tm_run.specs.Ends.{SaysAll, SaysPrefix, Speaks};
ghost use Rattle.tm_run.specs.Outcomes.{bad_image_line, bad_line, cause_word, side_word};
ghost use Rattle.tm_run.specs.Pairs.{KeepsPair};
ghost use Rattle.tm_run.specs.Readings.{EndsAsOrCut};

use crate::status::Status;
use std::alloc::{AllocError, Global};
use tm_base::Side;
use tm_world::{Cause, Failed, World};

/// Says a text by one call; where that fails, a prefix of it was said.
pub(crate) fn say<W: World>(world: &mut W, text: &[u8]) -> Result<(), Failed>
    ensures said { W.told → OnOk result (SaysAll text.now (now (W.log world.old)) (now (W.log world.new))) }
    ensures cut { W.told → SaysPrefix text.now (now (W.log world.old)) (now (W.log world.new)) }
    ensures pair { W.told → KeepsPair (now (W.log world.old)) (now (W.log world.new)) }
    ensures any_moment { W.told → Passes (W.log world.old) (W.log world.new) (Speaks text.now (now (W.log world.old))) }
    ensures blocks { W.blocks world.new ≡ W.blocks world.old }
    ensures never_less { NeverLess (W.faults world.old) (W.faults world.new) }
    ensures fault { OnErr result (Rose (W.faults world.old Part.Out) (W.faults world.new Part.Out)) }
{
    world.say(text)
}

/// Says the one line of a run that does no line.
pub(crate) fn say_last<W: World>(world: &mut W, text: &str, status: Status) -> Status
    ensures status { (result ≡ status) ⊎ (result ≡ Status.OutFault) }
    ensures said { W.told → result ≢ Status.OutFault → SaysAll text.now (now (W.log world.old)) (now (W.log world.new)) }
    ensures cut { W.told → SaysPrefix text.now (now (W.log world.old)) (now (W.log world.new)) }
    ensures any_moment { W.told → Passes (W.log world.old) (W.log world.new) (Speaks text.now (now (W.log world.old))) }
    ensures blocks { W.blocks world.new ≡ W.blocks world.old }
    ensures never_less { NeverLess (W.faults world.old) (W.faults world.new) }
    ensures fault { status ≢ Status.OutFault → result ≡ Status.OutFault → Rose (W.faults world.old Part.Out) (W.faults world.new Part.Out) }
{
    match say(world, text.as_bytes()) {
        Ok(()) => status,
        Err(Failed) => Status::OutFault,
    }
}

/// Says which line is the first outside the grammar.
#[tactic(auto, unfolding(crate::specs::Outcomes::bad_line))]
pub(crate) fn say_bad_line<W: World>(alloc: Global, world: &mut W, line: u64) -> Status
    ensures status { EndsAsOrCut (Status.Script line) result }
    ensures said { W.told → result ≡ Status.Script line → SaysAll (bad_line line) (now (W.log world.old)) (now (W.log world.new)) }
    ensures cut { W.told → SaysPrefix (bad_line line) (now (W.log world.old)) (now (W.log world.new)) }
    ensures silent { W.told → result ≡ Status.Memory → (now (W.log world.new)).said ≡ (now (W.log world.old)).said }
    ensures any_moment { W.told → Passes (W.log world.old) (W.log world.new) (Speaks (bad_line line) (now (W.log world.old))) }
    ensures blocks { W.blocks world.new ≡ W.blocks world.old }
    ensures never_less { NeverLess (W.faults world.old) (W.faults world.new) }
    ensures fault { result ≡ Status.OutFault → Rose (W.faults world.old Part.Out) (W.faults world.new Part.Out) }
{
    match format!(in alloc; "script line {line}\n") {
        Ok(text) => say_last(world, text.as_str(), Status::Script { line }),
        Err(AllocError) => Status::Memory,
    }
}

// The word for a side.
fn side_word(side: Side) -> &'static str
    ensures { result.now ≡ side_word side }
{
    match side {
        Side::Volume => "volume",
        Side::Store => "store",
    }
}

// The word for a cause.
fn cause_word(cause: Cause) -> &'static str
    ensures { result.now ≡ cause_word cause }
{
    match cause {
        Cause::Slot => "slot",
        Cause::Chain => "chain",
        Cause::Table => "table",
        Cause::Pages => "pages",
        Cause::Block => "block",
        Cause::Room => "room",
        Cause::Record => "record",
        Cause::Spent => "spent",
    }
}

/// Says which image is bad, by which check, and where.
#[tactic(auto, unfolding(crate::specs::Outcomes::bad_image_line))]
pub(crate) fn say_bad_image<W: World>(
    alloc: Global,
    world: &mut W,
    side: Side,
    cause: Cause,
    place: u64,
) -> Status
    ensures status { EndsAsOrCut (Status.BadImage side cause place) result }
    ensures said { W.told → result ≡ Status.BadImage side cause place → SaysAll (bad_image_line side cause place) (now (W.log world.old)) (now (W.log world.new)) }
    ensures cut { W.told → SaysPrefix (bad_image_line side cause place) (now (W.log world.old)) (now (W.log world.new)) }
    ensures silent { W.told → result ≡ Status.Memory → (now (W.log world.new)).said ≡ (now (W.log world.old)).said }
    ensures any_moment { W.told → Passes (W.log world.old) (W.log world.new) (Speaks (bad_image_line side cause place) (now (W.log world.old))) }
    ensures blocks { W.blocks world.new ≡ W.blocks world.old }
    ensures never_less { NeverLess (W.faults world.old) (W.faults world.new) }
    ensures fault { result ≡ Status.OutFault → Rose (W.faults world.old Part.Out) (W.faults world.new Part.Out) }
{
    let which = side_word(side);
    let why = cause_word(cause);
    match format!(in alloc; "bad image {which} {why} {place}\n") {
        Ok(text) => say_last(
            world,
            text.as_str(),
            Status::BadImage { side, cause, place },
        ),
        Err(AllocError) => Status::Memory,
    }
}
