//! The script, read to its end.
ghost use Rattle.std.specs.Prelude.{◌≡◌, ◌≤◌, ◌+◌, ◌++◌, [], IfOk, IfSome, OnOk, OnErr, Err, Some, length, take, drop, vec_len};
ghost use Rattle.tm_world.specs.declared.world.Part.{Part};
ghost use Rattle.tm_world.specs.Log.{now, Passes};
ghost use Rattle.tm_world.specs.Faults.{Rose, NeverLess};
ghost use Rattle.tm_run.specs.Scripts.{IsReading, ReadsScript, ReadsAt};
ghost use Rattle.tm_base.specs.Limits.{max_script_bytes};

use std::alloc::{AllocError, Global};
use tm_base::limits::MAX_SCRIPT_BYTES;
use tm_world::{Bytes, Failed, Part, World};

/// The bytes that are taken at a time.
const PART: usize = 4096;

/// Why a script was not read.
#[derive(Clone, Copy, Debug, PartialEq, Eq)]
pub(crate) enum ScriptError {
    /// It could not be read.
    Fault,
    /// Memory was refused.
    Memory,
}

impl From<AllocError> for ScriptError {
    ghost use Rattle.tm_run.specs.declared.script.ScriptError.TheVariants.{Memory};

    ghost from_gives = { λ _ error. error ≡ Memory };

    fn from(_error: AllocError) -> ScriptError {
        ScriptError::Memory
    }
}

impl From<Failed> for ScriptError {
    ghost use Rattle.tm_run.specs.declared.script.ScriptError.TheVariants.{Fault};

    ghost from_gives = { λ _ error. error ≡ Fault };

    fn from(_error: Failed) -> ScriptError {
        ScriptError::Fault
    }
}

// Attaches the script at a path.
fn attach_script<W: World>(world: &mut W, path: &str) -> Result<(), Failed>
    ensures script { W.told → OnOk result ((now (W.log world.old)).scripts path.now ≡ Some (now (W.log world.new)).unread) }
    ensures reading { W.told → IsReading (now (W.log world.old)) (now (W.log world.new)) }
    ensures any_moment { W.told → Passes (W.log world.old) (W.log world.new) (IsReading (now (W.log world.old))) }
    ensures blocks { W.blocks world.new ≡ W.blocks world.old }
    ensures never_less { NeverLess (W.faults world.old) (W.faults world.new) }
    ensures fault { OnErr result (Rose (W.faults world.old Part.Script) (W.faults world.new Part.Script)) }
{
    world.attach(Part::Script, path, None)?;
    Ok(())
}

// Takes some bytes more, which go to the end of what was read; 0 only at the end of the script.
fn take_part<W: World>(world: &mut W, script: &mut Vec<u8>) -> Result<usize, ScriptError>
    requires { vec_len script.old ≤ max_script_bytes }
    ensures taken { IfOk result (λ n. vec_len script.new ≡ vec_len script.old + n) }
    ensures short { OnOk result (vec_len script.new ≤ max_script_bytes + 1) }
    ensures bytes { W.told → IfOk result (λ n. script.new.items ≡ script.old.items ++ take n (now (W.log world.old)).unread) }
    ensures left { W.told → IfOk result (λ n. (now (W.log world.new)).unread ≡ drop n (now (W.log world.old)).unread) }
    ensures end { W.told → IfOk result (λ n. n ≡ 0 → (now (W.log world.old)).unread ≡ []) }
    ensures reading { W.told → IsReading (now (W.log world.old)) (now (W.log world.new)) }
    ensures any_moment { W.told → Passes (W.log world.old) (W.log world.new) (IsReading (now (W.log world.old))) }
    ensures blocks { W.blocks world.new ≡ W.blocks world.old }
    ensures never_less { NeverLess (W.faults world.old) (W.faults world.new) }
    ensures fault { result ≡ Err ScriptError.Fault → Rose (W.faults world.old Part.Script) (W.faults world.new Part.Script) }
{
    let mut part = [0u8; PART];
    let room = (MAX_SCRIPT_BYTES + 1 - script.len()).min(PART);
    let taken = world.take(&mut part[..room])?;
    script.extend_from_slice(&part[..taken])?;
    Ok(taken)
}

// Reads what is left of the script to its end; none exactly where that is longer than a script may
// be.
fn read_left<W: World>(alloc: Global, world: &mut W) -> Result<Option<Bytes>, ScriptError>
    ensures reads { W.told → ReadsScript (now (W.log world.old)) result }
    ensures reading { W.told → IsReading (now (W.log world.old)) (now (W.log world.new)) }
    ensures any_moment { W.told → Passes (W.log world.old) (W.log world.new) (IsReading (now (W.log world.old))) }
    ensures short { IfOk result (λ script. IfSome script (λ bytes. length bytes ≤ max_script_bytes)) }
    ensures blocks { W.blocks world.new ≡ W.blocks world.old }
    ensures never_less { NeverLess (W.faults world.old) (W.faults world.new) }
    ensures fault { result ≡ Err ScriptError.Fault → Rose (W.faults world.old Part.Script) (W.faults world.new Part.Script) }
{
    let mut script = Vec::new(alloc);
    'parts: while script.len() <= MAX_SCRIPT_BYTES {
        if take_part(world, &mut script)? == 0 {
            return Ok(Some(Bytes::of(script)));
        }
    }
    Ok(None)
}

/// Reads the script at a path to its end; none exactly where it is longer than a script may be.
pub(crate) fn read_script<W: World>(
    alloc: Global,
    world: &mut W,
    path: &str,
) -> Result<Option<Bytes>, ScriptError>
    ensures script { W.told → ReadsAt (now (W.log world.old)) path.now result }
    ensures reading { W.told → IsReading (now (W.log world.old)) (now (W.log world.new)) }
    ensures any_moment { W.told → Passes (W.log world.old) (W.log world.new) (IsReading (now (W.log world.old))) }
    ensures blocks { W.blocks world.new ≡ W.blocks world.old }
    ensures never_less { NeverLess (W.faults world.old) (W.faults world.new) }
    ensures fault { result ≡ Err ScriptError.Fault → Rose (W.faults world.old Part.Script) (W.faults world.new Part.Script) }
{
    attach_script(world, path)?;
    read_left(alloc, world)
}
