//! The name of a store's machine (`docs/RECORDS.md`, "Heads").
ghost use Rattle.std.specs.Prelude.{◌≡◌, ℕ, IfOk};
ghost use Rattle.tm_base.specs.IsName.{IsName};
ghost use Rattle.tm_nodes.specs.Answers.{IfBad, Tells};
ghost use Rattle.tm_nodes.specs.Headers.{machine_text};
ghost use Rattle.tm_nodes.specs.Records.{machine_of};
ghost use Rattle.tm_nodes.specs.Spelled.{IsSpelled, IsUnspelled};

use crate::error::{NodeError, alone};
use crate::field::{put_name, take_name};
use std::alloc::Global;
use tm_base::Name;
use tm_codec::Memory;
use tm_world::Bytes;

/// The meta of a machine's name; only want of memory can refuse it.
pub fn machine_meta(alloc: Global, machine: &Name) -> Result<Bytes, Memory>
    ensures { IfOk result (λ meta. meta ≡ machine_text machine.now) }
{
    let mut out = Vec::new(alloc);
    put_name(&mut out, machine)?;
    Ok(Bytes::of(out))
}

/// The machine's name that has this meta; [`NodeError::BadNode`] with the key 1 exactly where
/// none has.
pub fn read_machine(alloc: Global, meta: &[u8]) -> Result<Name, NodeError>
    ensures machine { IfOk result (IsSpelled machine_text IsName meta.now) }
    ensures bad { IfBad result (λ k. (k ≡ 1) × IsUnspelled machine_text IsName meta.now) }
    ensures told { Tells 1 result (machine_of meta.now) }
{
    alone(1, take_name(alloc, meta))
}
