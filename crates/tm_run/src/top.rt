//! The top call.
ghost use Rattle.std.specs.Prelude.{◌≡◌, ℕ, List, All, Err, IfOk};
ghost use Rattle.tm_world.specs.declared.world.Part.{Part};
ghost use Rattle.tm_world.specs.Log.{now, Passes};
ghost use Rattle.tm_world.specs.Faults.{Rose, NeverLess, part_at};
ghost use Rattle.tm_base.specs.declared.refused.Side.{Side as RefusedSide};
ghost use Rattle.tm_text.specs.Bounds.{IsValidLine};
ghost use Rattle.tm_command.specs.Command.{texts, IsSomeCommand};
ghost use Rattle.tm_run.specs.Scripts.{IsReading};
ghost use Rattle.tm_run.specs.Claims.{KeepsBesideStore, KeepsBesideVolume, LeavesEnd, NamesNoLines, NamesNoPair, PassesPlain, RunsOver, StaysElsewhere, StaysFit};
ghost use Rattle.tm_run.specs.Outcomes.{FitsStart, Outcome};
ghost use Rattle.tm_run.specs.Readings.{EndsAsOrCut, ReadsLines};
ghost use Rattle.tm_run.specs.Ends.{GaveOutcome, IsBefore, IsCut, IsDone, NotCutShort, SaysPrefix};
ghost use Rattle.tm_run.specs.declared.status.Status.{Status};

use crate::images::run_command;
use crate::laws::one_outcome;
use crate::output::{say_bad_line, say_last};
use crate::script::{ScriptError, read_script};
use crate::status::Status;
use std::alloc::Global;
use tm_command::{WordsError, read_words};
use tm_machine::{commits_end, plain_is_history, plain_where_fits};
use tm_text::{Lines, ParseError, parse};
use tm_volume::laws::sides_read_as_one as volume_sides_read_as_one;
use tm_world::World;

/// What is said where the words are not the command.
const USAGE: &str = "usage: tmvol --volume PATH --store PATH --script PATH [--create BLOCKS]\n";

/// What is said where the script is too long.
const TOO_LONG: &str = "script too long\n";

/// Runs the command that the words after the program's name make.
///
/// It reads the script to its end and parses it whole. It attaches the image of the volume and that
/// of the store, which it makes where none stands and a number of blocks is given, syncs and opens
/// them, and then does line after line, each with its reply. The first cause met ends the run, and
/// nothing more is called after a fault or want of memory (`docs/SCRIPT.md`, "The end of a run").
pub fn run<W: World>(alloc: Global, words: &[String], world: &mut W) -> Status
    // Over every pair that reads as something, one history tells the run: what is said, what a stop leaves at each moment, and the end.
    ensures history { W.told → RunsOver (texts words.now) (W.log world.old) (W.log world.new) result }

    // Over a pair that fits, or an image that is bad: a run that isn't cut short says what the plain machine says, or why an image is bad.
    ensures outcome { W.told → FitsStart (texts words.now) (now (W.log world.old)) → NotCutShort result → GaveOutcome (texts words.now) (now (W.log world.old)) (now (W.log world.new)) result }

    // A run that is cut short says a prefix of that.
    ensures prefix { W.told → FitsStart (texts words.now) (now (W.log world.old)) → (status : Status) (text : List ℕ) → Outcome (texts words.now) (now (W.log world.old)) status text
        → SaysPrefix text (now (W.log world.old)) (now (W.log world.new)) }

    // Over a pair that fits, whatever a stop leaves after the last line reads as what is kept of the plain machine's last state.
    ensures left { W.told → FitsStart (texts words.now) (now (W.log world.old)) → IsDone result → LeavesEnd (texts words.now) (now (W.log world.old)) (now (W.log world.new)) }

    // And at each moment the history is the plain machine's.
    ensures any_moment { W.told → FitsStart (texts words.now) (now (W.log world.old)) → PassesPlain (texts words.now) (W.log world.old) (W.log world.new) }

    // Where whatever a stop would leave of the pair fits once it is opened again, so does whatever a stop leaves at each moment.
    ensures fits { W.told → StaysFit (texts words.now) (W.log world.old) (W.log world.new) }

    // What stands at other paths is as it was, whatever stands at these.
    ensures elsewhere { W.told → StaysElsewhere (texts words.now) (W.log world.old) (W.log world.new) }

    // An image that can't be opened is not written; beside one the other isn't either, but that a volume's generation may begin.
    ensures shut_volume { W.told → KeepsBesideVolume (texts words.now) (W.log world.old) (W.log world.new) }
    ensures shut_store { W.told → KeepsBesideStore (texts words.now) (W.log world.old) (W.log world.new) }

    // Where the words are no command, or no script that is lines stands at its path, all images are as they were, at each moment.
    ensures images { W.told → NamesNoLines (texts words.now) (now (W.log world.old)) → Passes (W.log world.old) (W.log world.new) (λ o. o.stands ≡ (now (W.log world.old)).stands) }

    // So they are where the run ends before the images are attached.
    ensures before { W.told → IsBefore result → Passes (W.log world.old) (W.log world.new) (λ o. o.stands ≡ (now (W.log world.old)).stands) }
    ensures blocks { IsBefore result → W.blocks world.new ≡ W.blocks world.old }

    // A run that names no pair which can be opened, and that is cut short by anything but the output, says nothing.
    ensures silent { W.told → NamesNoPair (texts words.now) (now (W.log world.old)) → IsCut result → (now (W.log world.new)).said ≡ (now (W.log world.old)).said }

    // The causes of each status, also where contents are not told.
    ensures usage { result ≡ Status.Usage → IsSomeCommand (texts words.now) → ⊥ }
    ensures not_command { (IsSomeCommand (texts words.now) → ⊥) → EndsAsOrCut Status.Usage result }
    ensures script_fault { result ≡ Status.ScriptFault → Rose (W.faults world.old Part.Script) (W.faults world.new Part.Script) }
    ensures out_fault { result ≡ Status.OutFault → Rose (W.faults world.old Part.Out) (W.faults world.new Part.Out) }
    ensures device { (side : RefusedSide) → result ≡ Status.Device side → Rose (W.faults world.old (part_at side)) (W.faults world.new (part_at side)) }
    ensures never_less { NeverLess (W.faults world.old) (W.faults world.new) }
{
    one_outcome();
    volume_sides_read_as_one();
    plain_where_fits();
    plain_is_history();
    commits_end();
    let command = match read_words(alloc, words) {
        Ok(command) => command,
        Err(WordsError::Usage) => return say_last(world, USAGE, Status::Usage),
        Err(WordsError::Memory) => return Status::Memory,
    };
    match read_lines(alloc, world, command.script) {
        Ok(lines) => run_command(alloc, world, command, &lines),
        Err(ScriptEnd::TooLong) => say_last(world, TOO_LONG, Status::Script { line: 0 }),
        Err(ScriptEnd::BadLine(line)) => say_bad_line(alloc, world, line),
        Err(ScriptEnd::Fault) => Status::ScriptFault,
        Err(ScriptEnd::Memory) => Status::Memory,
    }
}

/// Why a script gave no lines.
#[derive(Clone, Copy, Debug, PartialEq, Eq)]
enum ScriptEnd {
    /// It has more bytes than a script may have.
    TooLong,
    /// This line is the first outside the grammar.
    BadLine(u64),
    /// It could not be read.
    Fault,
    /// Memory was refused.
    Memory,
}

// Attaches the script at a path, reads it to its end and parses it.
fn read_lines<W: World>(alloc: Global, world: &mut W, path: &str) -> Result<Lines, ScriptEnd>
    ensures lines { W.told → ReadsLines (now (W.log world.old)) path.now result }
    ensures valid { IfOk result (λ lines. All IsValidLine lines) }
    ensures reading { W.told → IsReading (now (W.log world.old)) (now (W.log world.new)) }
    ensures any_moment { W.told → Passes (W.log world.old) (W.log world.new) (IsReading (now (W.log world.old))) }
    ensures blocks { W.blocks world.new ≡ W.blocks world.old }
    ensures never_less { NeverLess (W.faults world.old) (W.faults world.new) }
    ensures fault { result ≡ Err ScriptEnd.Fault → Rose (W.faults world.old Part.Script) (W.faults world.new Part.Script) }
{
    match read_script(alloc, world, path) {
        Ok(None) => Err(ScriptEnd::TooLong),
        Ok(Some(script)) => match parse(alloc, script.as_slice()) {
            Ok(lines) => Ok(lines),
            Err(ParseError::BadLine(line)) => Err(ScriptEnd::BadLine(line)),
            Err(ParseError::Memory) => Err(ScriptEnd::Memory),
        },
        Err(ScriptError::Fault) => Err(ScriptEnd::Fault),
        Err(ScriptError::Memory) => Err(ScriptEnd::Memory),
    }
}
