//! Reading a field at a place.
ghost use Rattle.std.specs.Prelude.{◌≡◌, ◌+◌, ◌*◌, ◌^◌, ◌<◌, ◌≤◌, ℕ, List, ◌++◌, length, drop, Ok, IfOk, IsOkAnd, MatchResult};
ghost use Rattle.tm_codec.specs.Fields.{u8_text, u16_text, u32_text, u64_text, u128_text, short_text, long_text};
ghost use Rattle.tm_codec.specs.Places.{IsTextAt, short_end, long_end};

use crate::CodecError;

/// The `N` bytes at a place.
fn array_at<const N: usize>(bytes: &[u8], at: usize) -> Result<&[u8; N], CodecError>
    ensures ok { IfOk result (λ part. (length part.now ≡ N) × (drop at bytes.now ≡ part.now ++ drop (at + N) bytes.now)) }
    ensures short { MatchResult result (λ _. at + N ≤ length bytes.now) (λ e. (length bytes.now < at + N) × (e ≡ CodecError.Short at)) }
{
    let rest = bytes.get(at..).ok_or(CodecError::Short(at))?;
    rest.first_chunk::<N>().ok_or(CodecError::Short(at))
}

/// So many bytes at a place.
fn part_at(bytes: &[u8], at: usize, count: usize) -> Result<&[u8], CodecError>
    ensures ok { IfOk result (λ part. (length part.now ≡ count) × (drop at bytes.now ≡ part.now ++ drop (at + count) bytes.now)) }
    ensures short { MatchResult result (λ _. at + count ≤ length bytes.now) (λ e. (length bytes.now < at + count) × (e ≡ CodecError.Short at)) }
{
    let rest = bytes.get(at..).ok_or(CodecError::Short(at))?;
    rest.get(..count).ok_or(CodecError::Short(at))
}

/// The `u8` at a place; `Short` exactly where the bytes end first (`docs/FORMATS.md`, "Fields").
pub fn get_u8(bytes: &[u8], at: usize) -> Result<u8, CodecError>
    ensures stands { IfOk result (λ n. IsTextAt (u8_text n) at bytes.now) }
    ensures read { (n : ℕ) → n < 2 ^ 8 → IsTextAt (u8_text n) at bytes.now → result ≡ Ok n }
    ensures short { MatchResult result (λ _. at + 1 ≤ length bytes.now) (λ e. (length bytes.now < at + 1) × (e ≡ CodecError.Short at)) }
{
    Ok(u8::from_be_bytes(*array_at(bytes, at)?))
}

/// The `u16` at a place, big endian; `Short` exactly where the bytes end first.
pub fn get_u16(bytes: &[u8], at: usize) -> Result<u16, CodecError>
    ensures stands { IfOk result (λ n. IsTextAt (u16_text n) at bytes.now) }
    ensures read { (n : ℕ) → n < 2 ^ 16 → IsTextAt (u16_text n) at bytes.now → result ≡ Ok n }
    ensures short { MatchResult result (λ _. at + 2 ≤ length bytes.now) (λ e. (length bytes.now < at + 2) × (e ≡ CodecError.Short at)) }
{
    Ok(u16::from_be_bytes(*array_at(bytes, at)?))
}

/// The `u32` at a place, big endian; `Short` exactly where the bytes end first.
pub fn get_u32(bytes: &[u8], at: usize) -> Result<u32, CodecError>
    ensures stands { IfOk result (λ n. IsTextAt (u32_text n) at bytes.now) }
    ensures read { (n : ℕ) → n < 2 ^ 32 → IsTextAt (u32_text n) at bytes.now → result ≡ Ok n }
    ensures short { MatchResult result (λ _. at + 4 ≤ length bytes.now) (λ e. (length bytes.now < at + 4) × (e ≡ CodecError.Short at)) }
{
    Ok(u32::from_be_bytes(*array_at(bytes, at)?))
}

/// The `u64` at a place, big endian; `Short` exactly where the bytes end first.
pub fn get_u64(bytes: &[u8], at: usize) -> Result<u64, CodecError>
    ensures stands { IfOk result (λ n. IsTextAt (u64_text n) at bytes.now) }
    ensures read { (n : ℕ) → n < 2 ^ 64 → IsTextAt (u64_text n) at bytes.now → result ≡ Ok n }
    ensures short { MatchResult result (λ _. at + 8 ≤ length bytes.now) (λ e. (length bytes.now < at + 8) × (e ≡ CodecError.Short at)) }
{
    Ok(u64::from_be_bytes(*array_at(bytes, at)?))
}

/// The `u128` at a place, big endian; `Short` exactly where the bytes end first.
pub fn get_u128(bytes: &[u8], at: usize) -> Result<u128, CodecError>
    ensures stands { IfOk result (λ n. IsTextAt (u128_text n) at bytes.now) }
    ensures read { (n : ℕ) → n < 2 ^ 128 → IsTextAt (u128_text n) at bytes.now → result ≡ Ok n }
    ensures short { MatchResult result (λ _. at + 16 ≤ length bytes.now) (λ e. (length bytes.now < at + 16) × (e ≡ CodecError.Short at)) }
{
    Ok(u128::from_be_bytes(*array_at(bytes, at)?))
}

/// The bytes of the `short` at a place; `Short` exactly where the bytes end first.
pub fn get_short(bytes: &[u8], at: usize) -> Result<&[u8], CodecError>
    ensures stands { IfOk result (λ part. (length part.now < 2 ^ 8) × IsTextAt (short_text part.now) at bytes.now) }
    ensures read { (part : List ℕ) → length part < 2 ^ 8 → IsTextAt (short_text part) at bytes.now → IsOkAnd result (λ got. got.now ≡ part) }
    ensures short { MatchResult result (λ _. short_end at bytes.now ≤ length bytes.now) (λ e. (length bytes.now < short_end at bytes.now) × (e ≡ CodecError.Short at)) }
{
    let count = get_u8(bytes, at)?;
    match part_at(bytes, at + 1, count as usize) {
        Ok(part) => Ok(part),
        Err(_) => Err(CodecError::Short(at)),
    }
}

/// The bytes of the `long` at a place; `Short` exactly where the bytes end first.
pub fn get_long(bytes: &[u8], at: usize) -> Result<&[u8], CodecError>
    ensures stands { IfOk result (λ part. (length part.now < 2 ^ 16) × IsTextAt (long_text part.now) at bytes.now) }
    ensures read { (part : List ℕ) → length part < 2 ^ 16 → IsTextAt (long_text part) at bytes.now → IsOkAnd result (λ got. got.now ≡ part) }
    ensures short { MatchResult result (λ _. long_end at bytes.now ≤ length bytes.now) (λ e. (length bytes.now < long_end at bytes.now) × (e ≡ CodecError.Short at)) }
{
    let count = get_u16(bytes, at)?;
    match part_at(bytes, at + 2, count as usize) {
        Ok(part) => Ok(part),
        Err(_) => Err(CodecError::Short(at)),
    }
}
