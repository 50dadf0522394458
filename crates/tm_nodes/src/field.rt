//! Adding a name, and reading a field from the front of bytes, with the bytes after it.
ghost use Rattle.std.specs.Prelude.{◌≡◌, ◌↔◌, ◌++◌, IsTrue, OnOk};
ghost use Rattle.tm_codec.specs.Fields.{short_text};
ghost use Rattle.tm_nodes.specs.Targets.{IsTarget};
ghost use Rattle.tm_nodes.specs.Readers.{Gives};
ghost use Rattle.tm_nodes.specs.Reading.{u8_at, u16_at, u32_at, u64_at, u128_at, short_at, long_at, name_at, target_at};

use crate::error::ReadError;
use std::alloc::Global;
use tm_base::limits::MAX_TARGET_BYTES;
use tm_base::{Name, NameError};
use tm_codec::{
    Memory, get_long, get_short, get_u8, get_u16, get_u32, get_u64, get_u128, put_short,
};
use tm_world::Bytes;

pub fn take_u8(bytes: &[u8]) -> Result<(u8, &[u8]), ReadError>
    ensures { Gives (λ x. (x.0, x.1.now)) result (u8_at bytes.now) }
{
    let number = get_u8(bytes, 0)?;
    Ok((number, bytes.split_at(1).1))
}

pub fn take_u16(bytes: &[u8]) -> Result<(u16, &[u8]), ReadError>
    ensures { Gives (λ x. (x.0, x.1.now)) result (u16_at bytes.now) }
{
    let number = get_u16(bytes, 0)?;
    Ok((number, bytes.split_at(2).1))
}

pub fn take_u32(bytes: &[u8]) -> Result<(u32, &[u8]), ReadError>
    ensures { Gives (λ x. (x.0, x.1.now)) result (u32_at bytes.now) }
{
    let number = get_u32(bytes, 0)?;
    Ok((number, bytes.split_at(4).1))
}

pub fn take_u64(bytes: &[u8]) -> Result<(u64, &[u8]), ReadError>
    ensures { Gives (λ x. (x.0, x.1.now)) result (u64_at bytes.now) }
{
    let number = get_u64(bytes, 0)?;
    Ok((number, bytes.split_at(8).1))
}

pub fn take_u128(bytes: &[u8]) -> Result<(u128, &[u8]), ReadError>
    ensures { Gives (λ x. (x.0, x.1.now)) result (u128_at bytes.now) }
{
    let number = get_u128(bytes, 0)?;
    Ok((number, bytes.split_at(16).1))
}

pub fn take_short(bytes: &[u8]) -> Result<(&[u8], &[u8]), ReadError>
    ensures { Gives (λ x. (x.0.now, x.1.now)) result (short_at bytes.now) }
{
    let part = get_short(bytes, 0)?;
    Ok((part, bytes.split_at(1 + part.len()).1))
}

pub fn take_long(bytes: &[u8]) -> Result<(&[u8], &[u8]), ReadError>
    ensures { Gives (λ x. (x.0.now, x.1.now)) result (long_at bytes.now) }
{
    let part = get_long(bytes, 0)?;
    Ok((part, bytes.split_at(2 + part.len()).1))
}

/// Adds a name after its length.
pub fn put_name(out: &mut Vec<u8>, name: &Name) -> Result<(), Memory>
    ensures { OnOk result (out.new.items ≡ out.old.items ++ short_text name.now) }
{
    put_short(out, name.as_bytes())
}

/// A name after its length.
#[tactic(auto, unfolding(crate::specs::Reading::name_at, crate::specs::Readers::and_then, crate::specs::Readers::only_if), using(crate::proofs::Fields::names))]
pub fn take_name(alloc: Global, bytes: &[u8]) -> Result<(Name, &[u8]), ReadError>
    ensures { Gives (λ x. (x.0, x.1.now)) result (name_at bytes.now) }
{
    let (part, rest) = take_short(bytes)?;
    match Name::read(alloc, part) {
        Ok(name) => Ok((name, rest)),
        Err(NameError::BadName) => Err(ReadError::Broken),
        Err(NameError::Memory) => Err(ReadError::Memory),
    }
}

/// Whether a link may point to what these bytes say: 1 to 1,023 bytes of UTF-8 without NUL.
fn is_target(bytes: &[u8]) -> bool
    ensures { IsTrue result ↔ IsTarget bytes.now }
{
    !bytes.is_empty()
        && bytes.len() <= MAX_TARGET_BYTES
        && str::from_utf8(bytes).is_ok()
        && bytes.iter().all(|byte| *byte != 0)
}

/// The target of a link after its length.
#[tactic(auto, unfolding(crate::specs::Reading::target_at, crate::specs::Readers::and_then, crate::specs::Readers::only_if))]
pub fn take_target(alloc: Global, bytes: &[u8]) -> Result<(Bytes, &[u8]), ReadError>
    ensures { Gives (λ x. (x.0, x.1.now)) result (target_at bytes.now) }
{
    let (part, rest) = take_long(bytes)?;
    if !is_target(part) {
        return Err(ReadError::Broken);
    }
    Ok((Bytes::of(part.to_vec(alloc)?), rest))
}
