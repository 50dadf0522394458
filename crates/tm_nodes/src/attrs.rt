//! The attributes of an item in its record (`docs/RECORDS.md`, "Attributes").
ghost use Rattle.std.specs.Prelude.{◌≡◌, ◌≤◌, ◌++◌, ℕ, List, All, IfOk, OnOk, length, flat_map, option_map};
ghost use Rattle.std.specs.Bool.{OnTrue};
ghost use Rattle.std.specs.declared.cmp.Ordering.TheVariants.{Greater};
ghost use Rattle.tm_base.specs.Paths.{name_cmp};
ghost use Rattle.tm_nodes.specs.Attrs.{extra_text, attrs_text, IsExtra, IsAttrs};
ghost use Rattle.tm_nodes.specs.Readers.{Gives, many};
ghost use Rattle.tm_nodes.specs.Reading.{is_after, last_of, extra_at, next_extra_at, extras_at, attrs_at};

use crate::error::ReadError;
use crate::field::{put_name, take_long, take_name, take_u8, take_u16, take_u32, take_u64};
use std::alloc::Global;
use tm_base::limits::{MAX_EXTRAS, MAX_VALUE_BYTES};
use tm_base::{Moment, Name};
use tm_codec::{Memory, put_long, put_u8, put_u16, put_u32, put_u64};
use tm_tree::{Attrs, Extras};
use tm_world::Bytes;

/// The greatest mode.
const LAST_MODE: u16 = 0o7777;

/// Adds an extra attribute.
#[tactic(auto, unfolding(crate::specs::Attrs::extra_text))]
fn put_extra(out: &mut Vec<u8>, name: &Name, value: &Bytes) -> Result<(), Memory>
    requires { IsExtra (name.now, value.now) }
    ensures { OnOk result (out.new.items ≡ out.old.items ++ extra_text (name.now, value.now)) }
{
    put_name(out, name)?;
    put_long(out, value.as_slice())
}

/// Adds each extra attribute.
fn put_extras(out: &mut Vec<u8>, extras: &Extras) -> Result<(), Memory>
    requires { All IsExtra extras.now }
    ensures { OnOk result (out.new.items ≡ out.old.items ++ flat_map extra_text extras.now) }
{
    for (name, value) in extras.values() {
        put_extra(out, name, value)?;
    }
    Ok(())
}

/// Adds attributes.
#[tactic(auto, unfolding(crate::specs::Attrs::attrs_text))]
pub fn put_attrs(out: &mut Vec<u8>, attrs: &Attrs) -> Result<(), Memory>
    requires { IsAttrs attrs.now }
    ensures { OnOk result (out.new.items ≡ out.old.items ++ attrs_text attrs.now) }
{
    put_u16(out, attrs.mode)?;
    put_u32(out, attrs.uid)?;
    put_u32(out, attrs.gid)?;
    put_u64(out, attrs.modified.seconds())?;
    put_u8(out, attrs.extra.len() as u8)?;
    put_extras(out, &attrs.extra)
}

/// The extra attribute in front.
#[tactic(auto, unfolding(crate::specs::Reading::extra_at, crate::specs::Readers::and_then, crate::specs::Readers::only_if))]
fn take_extra(alloc: Global, bytes: &[u8]) -> Result<((Name, Bytes), &[u8]), ReadError>
    ensures { Gives (λ x. (x.0, x.1.now)) result (extra_at bytes.now) }
{
    let (name, rest) = take_name(alloc, bytes)?;
    let (value, rest) = take_long(rest)?;
    if value.len() > MAX_VALUE_BYTES {
        return Err(ReadError::Broken);
    }
    Ok(((name, Bytes::of(value.to_vec(alloc)?)), rest))
}

/// Whether a name is above those of all extra attributes there.
fn is_above(extras: &Extras, name: &Name) -> bool
    ensures after { result ≡ is_after name_cmp (option_map (λ x. x.0) (last_of extras.now)) name.now }
    ensures above { OnTrue result (All (λ e. name_cmp name.now e.0 ≡ Greater) extras.now) }
{
    match extras.values().last_key_value() {
        None => true,
        Some((last, _)) => last < name,
    }
}

/// One more extra attribute, its name above those there.
#[tactic(auto, unfolding(crate::specs::Reading::next_extra_at, crate::specs::Readers::and_then, crate::specs::Readers::only_if))]
fn take_next_extra<'a>(
    alloc: Global,
    extras: &Extras,
    bytes: &'a [u8],
) -> Result<((Name, Bytes), &'a [u8]), ReadError>
    ensures read { Gives (λ x. (x.0, x.1.now)) result (next_extra_at (last_of extras.now) bytes.now) }
    ensures above { IfOk result (λ x. All (λ e. name_cmp x.0.0 e.0 ≡ Greater) extras.now) }
{
    let (extra, rest) = take_extra(alloc, bytes)?;
    if !is_above(extras, &extra.0) {
        return Err(ReadError::Broken);
    }
    Ok((extra, rest))
}

/// So many extra attributes, by rising name.
fn take_each_extra(alloc: Global, count: u8, bytes: &[u8]) -> Result<(Extras, &[u8]), ReadError>
    ensures { Gives (λ x. (x.0, x.1.now)) result (many next_extra_at count None bytes.now) }
{
    let mut extras = Extras::new(alloc);
    let mut rest = bytes;
    for _ in 0..count {
        let ((name, value), after) = take_next_extra(alloc, &extras, rest)?;
        extras.put(name, value)?;
        rest = after;
    }
    Ok((extras, rest))
}

/// The extra attributes after their number, at most 16.
#[tactic(auto, unfolding(crate::specs::Reading::extras_at, crate::specs::Readers::and_then, crate::specs::Readers::only_if))]
fn take_extras(alloc: Global, bytes: &[u8]) -> Result<(Extras, &[u8]), ReadError>
    ensures { Gives (λ x. (x.0, x.1.now)) result (extras_at bytes.now) }
{
    let (count, rest) = take_u8(bytes)?;
    if usize::from(count) > MAX_EXTRAS {
        return Err(ReadError::Broken);
    }
    take_each_extra(alloc, count, rest)
}

/// The attributes in front.
#[tactic(auto, unfolding(crate::specs::Reading::attrs_at, crate::specs::Reading::moment_at, crate::specs::Readers::and_then, crate::specs::Readers::only_if))]
pub fn take_attrs(alloc: Global, bytes: &[u8]) -> Result<(Attrs, &[u8]), ReadError>
    ensures { Gives (λ x. (x.0, x.1.now)) result (attrs_at bytes.now) }
{
    let (mode, rest) = take_u16(bytes)?;
    let (uid, rest) = take_u32(rest)?;
    let (gid, rest) = take_u32(rest)?;
    let (seconds, rest) = take_u64(rest)?;
    let Some(modified) = Moment::from_seconds(seconds) else {
        return Err(ReadError::Broken);
    };
    let (extra, rest) = take_extras(alloc, rest)?;
    if mode > LAST_MODE {
        return Err(ReadError::Broken);
    }
    let attrs = Attrs {
        mode,
        uid,
        gid,
        modified,
        extra,
    };
    Ok((attrs, rest))
}
