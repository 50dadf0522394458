//! The lines of a script, one after the other.
ghost use Rattle.std.specs.Prelude.{◌≡◌, IfOk, OnOk, Err, All, is_some};
ghost use Rattle.tm_base.specs.declared.refused.Side.{Side as RefusedSide};
ghost use Rattle.tm_machine.specs.Allowed.{after_of, reply_of};
ghost use Rattle.tm_machine.specs.Histories.{any_refused_in, said_in, state_in};
ghost use Rattle.tm_machine.specs.Session.{IsOpen, Standing, state_on};
ghost use Rattle.tm_text.specs.Bounds.{IsValidLine};
ghost use Rattle.tm_tree.specs.Refusing.{first_refused};
ghost use Rattle.tm_world.specs.declared.world.Part.{Part};
ghost use Rattle.tm_world.specs.Log.{now};
ghost use Rattle.tm_world.specs.Faults.{Rose, NeverLess, part_at};
ghost use Rattle.tm_reply.specs.Replies.{reply_text};
ghost use Rattle.tm_run.specs.Done.{SaidLine, SaidLines};
ghost use Rattle.tm_run.specs.Ends.{SaysAll};

use crate::output::say;
use std::alloc::{AllocError, Global};
use tm_base::Side;
use tm_machine::{LineEnd, Session, commits_end, plain_is_history, session_is_left};
use tm_reply::print;
use tm_text::Line;
use tm_world::{Failed, World};

/// Why lines were not run to their end.
#[derive(Clone, Copy, Debug, PartialEq, Eq)]
pub(crate) enum RunEnd {
    /// The output failed.
    OutFault,
    /// An image failed.
    Device(Side),
    /// Memory was refused.
    Memory,
}

impl From<AllocError> for RunEnd {
    ghost use Rattle.tm_run.specs.declared.lines.RunEnd.TheVariants.{Memory};

    ghost from_gives = { λ _ end. end ≡ Memory };

    fn from(_error: AllocError) -> RunEnd {
        RunEnd::Memory
    }
}

impl From<Failed> for RunEnd {
    ghost use Rattle.tm_run.specs.declared.lines.RunEnd.TheVariants.{OutFault};

    ghost from_gives = { λ _ end. end ≡ OutFault };

    fn from(_error: Failed) -> RunEnd {
        RunEnd::OutFault
    }
}

// Does a line, and says its reply by one call. Whether the line was refused.
fn run_line<W: World>(
    alloc: Global,
    session: &mut Session,
    world: &mut W,
    line: &Line,
) -> Result<bool, RunEnd>
    requires line { IsValidLine line.now }
    requires open { IsOpen session.old (W.blocks world.old) }
    requires standing { W.told → Standing session.old (now (W.log world.old)) }
    ensures does { W.told → SaidLine (state_on session.old (now (W.log world.old))) line.now (W.log world.old) (W.log world.new)
        (λ d. IfOk result (λ refused. (refused ≡ is_some (first_refused d.tested)) × (state_on session.new (now (W.log world.new)) ≡ after_of d)
        × SaysAll (reply_text (reply_of d)) (now (W.log world.old)) (now (W.log world.new)))) }
    ensures open { OnOk result (IsOpen session.new (W.blocks world.new)) }
    ensures standing { W.told → OnOk result (Standing session.new (now (W.log world.new))) }
    ensures blocks { W.blocks world.new ≡ W.blocks world.old }
    ensures never_less { NeverLess (W.faults world.old) (W.faults world.new) }
    ensures fault { result ≡ Err RunEnd.OutFault → Rose (W.faults world.old Part.Out) (W.faults world.new Part.Out) }
    ensures device { (side : RefusedSide) → result ≡ Err (RunEnd.Device side) → Rose (W.faults world.old (part_at side)) (W.faults world.new (part_at side)) }
{
    session_is_left();
    let reply = match session.line(world, line) {
        Ok(reply) => reply,
        Err(LineEnd::Fault(side)) => return Err(RunEnd::Device(side)),
        Err(LineEnd::Memory) => return Err(RunEnd::Memory),
    };
    let text = match print(alloc, &reply) {
        Ok(text) => text,
        Err(_) => return Err(RunEnd::Memory),
    };
    say(world, text.as_slice())?;
    Ok(reply.refused.is_some())
}

/// Runs lines to their end. Whether some line was refused.
pub(crate) fn run_lines<W: World>(
    alloc: Global,
    session: &mut Session,
    world: &mut W,
    lines: &[Line],
) -> Result<bool, RunEnd>
    requires lines { All IsValidLine lines.now }
    requires open { IsOpen session.old (W.blocks world.old) }
    requires standing { W.told → Standing session.old (now (W.log world.old)) }
    ensures does { W.told → SaidLines (state_on session.old (now (W.log world.old))) lines.now (W.log world.old) (W.log world.new)
        (λ done. IfOk result (λ refused. (refused ≡ any_refused_in done) × (state_on session.new (now (W.log world.new)) ≡ state_in (state_on session.old (now (W.log world.old))) done)
        × SaysAll (said_in done) (now (W.log world.old)) (now (W.log world.new)))) }
    ensures open { OnOk result (IsOpen session.new (W.blocks world.new)) }
    ensures standing { W.told → OnOk result (Standing session.new (now (W.log world.new))) }
    ensures blocks { W.blocks world.new ≡ W.blocks world.old }
    ensures never_less { NeverLess (W.faults world.old) (W.faults world.new) }
    ensures fault { result ≡ Err RunEnd.OutFault → Rose (W.faults world.old Part.Out) (W.faults world.new Part.Out) }
    ensures device { (side : RefusedSide) → result ≡ Err (RunEnd.Device side) → Rose (W.faults world.old (part_at side)) (W.faults world.new (part_at side)) }
{
    commits_end();
    plain_is_history();
    let mut refused = false;
    for line in lines {
        refused |= run_line(alloc, session, world, line)?;
    }
    Ok(refused)
}
