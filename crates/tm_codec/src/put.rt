//! Adding a field to the end of bytes.
ghost use Rattle.std.specs.Prelude.{◌≡◌, ◌^◌, ◌<◌, ◌++◌, length, OnOk, OnErr};
ghost use Rattle.tm_codec.specs.Fields.{u8_text, u16_text, u32_text, u64_text, u128_text, short_text, long_text};

use crate::Memory;

/// Adds a `u8` (`docs/FORMATS.md`, "Fields"). Only want of memory can refuse it.
#[tactic(auto, unfolding(crate::specs::Fields::u8_text))]
pub fn put_u8(out: &mut Vec<u8>, value: u8) -> Result<(), Memory>
    ensures ok { OnOk result (out.new.items ≡ out.old.items ++ u8_text value) }
    ensures err { OnErr result (out.new.items ≡ out.old.items) }
{
    out.push(value)?;
    Ok(())
}

/// Adds a `u16`, big endian. Only want of memory can refuse it.
#[tactic(auto, unfolding(crate::specs::Fields::u16_text))]
pub fn put_u16(out: &mut Vec<u8>, value: u16) -> Result<(), Memory>
    ensures ok { OnOk result (out.new.items ≡ out.old.items ++ u16_text value) }
    ensures err { OnErr result (out.new.items ≡ out.old.items) }
{
    out.extend_from_slice(&value.to_be_bytes())?;
    Ok(())
}

/// Adds a `u32`, big endian. Only want of memory can refuse it.
#[tactic(auto, unfolding(crate::specs::Fields::u32_text))]
pub fn put_u32(out: &mut Vec<u8>, value: u32) -> Result<(), Memory>
    ensures ok { OnOk result (out.new.items ≡ out.old.items ++ u32_text value) }
    ensures err { OnErr result (out.new.items ≡ out.old.items) }
{
    out.extend_from_slice(&value.to_be_bytes())?;
    Ok(())
}

/// Adds a `u64`, big endian. Only want of memory can refuse it.
#[tactic(auto, unfolding(crate::specs::Fields::u64_text))]
pub fn put_u64(out: &mut Vec<u8>, value: u64) -> Result<(), Memory>
    ensures ok { OnOk result (out.new.items ≡ out.old.items ++ u64_text value) }
    ensures err { OnErr result (out.new.items ≡ out.old.items) }
{
    out.extend_from_slice(&value.to_be_bytes())?;
    Ok(())
}

/// Adds a `u128`, big endian. Only want of memory can refuse it.
#[tactic(auto, unfolding(crate::specs::Fields::u128_text))]
pub fn put_u128(out: &mut Vec<u8>, value: u128) -> Result<(), Memory>
    ensures ok { OnOk result (out.new.items ≡ out.old.items ++ u128_text value) }
    ensures err { OnErr result (out.new.items ≡ out.old.items) }
{
    out.extend_from_slice(&value.to_be_bytes())?;
    Ok(())
}

/// Adds a `short` of these bytes. Only want of memory can refuse it.
pub fn put_short(out: &mut Vec<u8>, part: &[u8]) -> Result<(), Memory>
    requires { length part.now < 2 ^ 8 }
    ensures ok { OnOk result (out.new.items ≡ out.old.items ++ short_text part.now) }
    ensures err { OnErr result (out.new.items ≡ out.old.items) }
{
    out.reserve(1 + part.len())?;
    out.push(part.len() as u8)?;
    out.extend_from_slice(part)?;
    Ok(())
}

/// Adds a `long` of these bytes. Only want of memory can refuse it.
pub fn put_long(out: &mut Vec<u8>, part: &[u8]) -> Result<(), Memory>
    requires { length part.now < 2 ^ 16 }
    ensures ok { OnOk result (out.new.items ≡ out.old.items ++ long_text part.now) }
    ensures err { OnErr result (out.new.items ≡ out.old.items) }
{
    out.reserve(2 + part.len())?;
    out.extend_from_slice(&(part.len() as u16).to_be_bytes())?;
    out.extend_from_slice(part)?;
    Ok(())
}
